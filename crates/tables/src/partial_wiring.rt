ghost use Rattle.std.specs.Prelude.{◌≡◌, ℕ, ◌<◌, ◌≤◌, true, false, length, ◌≢◌, slice_index_or};
ghost use Rattle.tables.specs.Wirings.{pin, Apart};

mod growing;

/// The beginning of a wiring for n inputs: the pins of its first inputs, each below n and none twice.
#[derive(Clone, Copy)]
pub struct PartialWiring {
    inputs: usize,
    len: usize,
    pins: [u8; 10],
    used: [bool; 10],
    ghost few: { inputs ≤ 10 },
    ghost whole: { length pins ≡ 10 },
    ghost short: { len ≤ inputs },
    ghost into: { (i : ℕ) → i < len → pin pins i < inputs },
    ghost apart: { Apart len (pin pins) },
    ghost rest: { (i : ℕ) → len ≤ i → pin pins i ≡ 0 },
    ghost marked: { (i : ℕ) → i < len → slice_index_or used (pin pins i) false ≡ true },
    ghost unmarked: { (p : ℕ) → ((i : ℕ) → i < len → pin pins i ≢ p) → slice_index_or used p false ≡ false },
}

impl PartialWiring {
    /// How many inputs the wiring is for.
    pub fn inputs(&self) -> usize
        ensures { result ≡ self.now.inputs }
    {
        self.inputs
    }

    /// How many inputs have their pins.
    pub fn len(&self) -> usize
        ensures { result ≡ self.now.len }
    {
        self.len
    }
}
