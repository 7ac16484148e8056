ghost use Rattle.std.specs.Prelude.{◌≡◌, [], ◌∷◌, ◌++◌, take};

use crate::begun::Begun;
use arrayvec::ArrayVec;

impl Begun {
    /// A line with no byte yet.
    pub fn empty() -> Begun
        ensures { result ≡ [] }
    {
        Begun {
            bytes: ArrayVec::new(),
        }
    }

    /// Adds a byte, if fewer than 1,101 are kept.
    pub fn add(&mut self, byte: u8)
        ensures { self.new ≡ take 1101 (self.old ++ byte ∷ []) }
    {
        if !self.bytes.is_full() {
            self.bytes.push(byte);
        }
    }

    /// The bytes that are kept.
    pub fn as_bytes(&self) -> &[u8]
        ensures { result.now ≡ self.now }
    {
        self.bytes.as_slice()
    }

    /// Begins a new line.
    pub fn clear(&mut self)
        ensures { self.new ≡ [] }
    {
        self.bytes.clear();
    }
}
