ghost use Rattle.std.specs.Prelude.{◌≡◌};
ghost use Rattle.tables.specs.Wirings.{pin, Inverse};

use crate::wiring::Wiring;

impl Wiring {
    /// The way back: from each pin to its input.
    pub fn inverse(&self) -> Wiring
        ensures inputs { result.inputs ≡ self.now.inputs }
        ensures back { Inverse self.now.inputs (pin self.now.pins) (pin result.pins) }
    {
        let mut pins = [0; 10];
        for (i, pin) in self.pins().iter().enumerate() {
            pins[*pin as usize] = i as u8;
        }
        Wiring {
            inputs: self.inputs,
            pins,
        }
    }
}
