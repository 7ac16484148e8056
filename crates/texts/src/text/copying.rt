ghost use Rattle.std.specs.Prelude.{◌≡◌, ◌≤◌, ◌==◌, length};
ghost use Rattle.texts.specs.Copying.{Copied};

use crate::text::Text;
use refusals::Refusal;

impl Text {
    /// How many bytes it has.
    pub fn len(&self) -> usize
        ensures value { result ≡ length self.now }
        ensures few { result ≤ 64 }
    {
        self.bytes.len()
    }

    /// Whether it has no byte.
    pub fn is_empty(&self) -> bool
        ensures { result ≡ (length self.now == 0) }
    {
        self.bytes.is_empty()
    }

    /// Its bytes.
    pub fn as_bytes(&self) -> &[u8]
        ensures value { result.now ≡ self.now }
        ensures few { length result.now ≤ 64 }
    {
        self.bytes.as_slice()
    }

    /// Writes the text into the front of the memory, and answers how long it is.
    pub fn copy_into(&self, memory: &mut [u8]) -> Result<usize, Refusal>
        ensures { Copied self.now memory.old result memory.new }
    {
        let bytes = self.as_bytes();
        if memory.len() < bytes.len() {
            return Err(Refusal::MemoryTooShort);
        }
        memory[..bytes.len()].copy_from_slice(bytes);
        Ok(bytes.len())
    }
}
