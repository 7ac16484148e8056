ghost use Rattle.tables.specs.Making.{WiringMade};

use crate::partial_wiring::PartialWiring;
use crate::wiring::Wiring;
use refusals::Refusal;

impl Wiring {
    /// The wiring that gives each input its pin of the list.
    pub fn new(inputs: usize, pins: &[u8]) -> Result<Wiring, Refusal>
        ensures { WiringMade inputs pins.now result }
    {
        let mut partial = PartialWiring::empty(inputs)?;
        for pin in pins {
            partial = partial.with(*pin).ok_or(Refusal::NotAWiring)?;
        }
        partial.finish().ok_or(Refusal::NotAWiring)
    }
}
