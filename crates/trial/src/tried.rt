ghost use Rattle.std.specs.Prelude.{◌≤◌};

use tables::Wiring;

mod trying;

pub use trying::try_wiring;

/// A wiring that passed its trial, and the number of its part. Only a trial makes one. It is moved and never copied, so
/// that what is done with it is done once; it may be given up.
#[derive(Drop)]
pub struct Tried {
    number: u32,
    wiring: Wiring,
    ghost numbered: { (1 ≤ number) × (number ≤ 9999) },
}
