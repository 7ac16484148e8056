use arrayvec::ArrayVec;
use std::marker::Model;

/// The pins of a to-list, as far as they can make a wiring. Eleven are enough to see that there are too many, and a pin of
/// 255 or more is kept as 255, which no wiring has.
#[derive(Drop)]
pub struct ToList {
    pins: ArrayVec<u8, 11>,
}

// Clauses see the pins that are kept.
impl Model for ToList {
    ghost use Rattle.std.specs.Prelude.{ℕ, List};

    ghost Value = { List ℕ };

    ghost view = { λ list. list.pins.items };
}

ghost use Rattle.std.specs.Prelude.{◌≡◌, ◌++◌, ◌∷◌, [], min, take};

impl ToList {
    /// A list of no pins.
    pub fn empty() -> ToList
        ensures { result ≡ [] }
    {
        ToList {
            pins: ArrayVec::new(),
        }
    }

    /// Adds a pin, as far as there can be pins.
    pub fn push(&mut self, pin: u32)
        ensures { self.new ≡ take 11 (self.old ++ min pin 255 ∷ []) }
    {
        if !self.pins.is_full() {
            self.pins.push(pin.min(255) as u8);
        }
    }

    /// The pins.
    pub fn pins(&self) -> &[u8]
        ensures { result.now ≡ self.now }
    {
        self.pins.as_slice()
    }
}
