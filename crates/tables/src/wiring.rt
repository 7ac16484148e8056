ghost use Rattle.std.specs.Prelude.{◌≡◌, ℕ, ◌<◌, ◌≤◌, length, take};
ghost use Rattle.tables.specs.Wirings.{pin, Apart};

mod carry;
mod equality;
mod inverse;
mod making;
mod order;

/// A wiring for n inputs: the pin of each card input, below n, and no pin twice. The places past n hold 0, so that
/// two wirings are equal when they give each input the same pin.
#[derive(Clone, Copy, Debug)]
pub struct Wiring {
    pub(crate) inputs: usize,
    pub(crate) pins: [u8; 10],
    ghost few: { inputs ≤ 10 },
    ghost whole: { length pins ≡ 10 },
    ghost into: { (i : ℕ) → i < inputs → pin pins i < inputs },
    ghost apart: { Apart inputs (pin pins) },
    ghost rest: { (i : ℕ) → inputs ≤ i → pin pins i ≡ 0 },
}

impl Wiring {
    /// How many inputs it has.
    pub fn inputs(&self) -> usize
        ensures { result ≡ self.now.inputs }
    {
        self.inputs
    }

    /// The pin of each input, in order.
    pub fn pins(&self) -> &[u8]
        ensures { result.now ≡ take self.now.inputs self.now.pins }
    {
        &self.pins[0..self.inputs]
    }
}
