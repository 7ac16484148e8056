ghost use Rattle.std.specs.Prelude.{Decides};
ghost use Rattle.refusals.specs.Due.{Outcome};
ghost use Rattle.tables.specs.Making.{wiring_due, IsEmpty, Takes, Extended, Finished};

use crate::partial_wiring::PartialWiring;
use crate::wiring::Wiring;
use refusals::Refusal;

impl PartialWiring {
    /// No input has its pin yet.
    pub fn empty(inputs: usize) -> Result<PartialWiring, Refusal>
        ensures { Outcome (wiring_due inputs) (IsEmpty inputs) result }
    {
        if inputs > 10 {
            return Err(Refusal::TooManyInputs);
        }
        Ok(PartialWiring {
            inputs,
            len: 0,
            pins: [0; 10],
            used: [false; 10],
        })
    }

    /// Whether the next input can have this pin.
    pub fn takes(&self, pin: u8) -> bool
        ensures { Decides result (Takes self.now pin) }
    {
        let at = pin as usize;
        self.len < self.inputs && at < self.inputs && !self.used[at]
    }

    /// With a pin for the next input, unless that makes no part of a wiring.
    pub fn with(&self, pin: u8) -> Option<PartialWiring>
        ensures { Extended self.now pin result }
    {
        if !self.takes(pin) {
            return None;
        }
        let mut longer = *self;
        longer.pins[self.len] = pin;
        longer.used[pin as usize] = true;
        longer.len += 1;
        Some(longer)
    }

    /// The wiring, once each input has its pin.
    pub fn finish(&self) -> Option<Wiring>
        ensures { Finished self.now result }
    {
        if self.len < self.inputs {
            return None;
        }
        Some(Wiring {
            inputs: self.inputs,
            pins: self.pins,
        })
    }
}
