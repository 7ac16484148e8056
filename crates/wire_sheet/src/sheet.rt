ghost use Rattle.std.specs.Prelude.{◌≤◌};

use tables::Wiring;

mod reading;

/// What a wire line says: the number of a part, and the wiring of a card's inputs to its pins.
#[derive(Clone, Copy, Debug)]
pub struct Sheet {
    number: u32,
    wiring: Wiring,
    ghost numbered: { (1 ≤ number) × (number ≤ 9999) },
}
