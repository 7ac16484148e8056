ghost use Rattle.std.specs.Prelude.{◌^◌, ◌<◌};
ghost use Rattle.tables.specs.Wirings.{pin};
ghost use Rattle.tables.specs.Agreement.{Carried};

use crate::wiring::Wiring;

impl Wiring {
    /// The part row that a card row is carried to: pin w(i) has there the value that input i has in the card row.
    pub fn carry(&self, row: usize) -> usize
        ensures within { result < 2 ^ self.now.inputs }
        ensures carried { Carried self.now.inputs (pin self.now.pins) row result }
    {
        let mut carried = 0;
        for (i, pin) in self.pins().iter().enumerate() {
            if (row >> i) % 2 == 1 {
                carried += 1usize << *pin;
            }
        }
        carried
    }
}
