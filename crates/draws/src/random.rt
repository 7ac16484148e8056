ghost use Rattle.std.specs.Prelude.{◌≡◌, ◌<◌, ◌≤◌};
ghost use Rattle.std.specs.Fn.{iterate};
ghost use Rattle.draws.specs.Draws.{next, drawn, drawn_row};

use rows::OnOff;
use std::array;
use tables::Wiring;

/// A linear congruential generator, so that each run draws the same.
#[derive(Drop)]
pub struct Random(pub u32);

impl Random {
    /// A number below this one.
    pub fn below(&mut self, end: usize) -> usize
        requires { 0 < end }
        ensures low { result < end }
        ensures value { result ≡ drawn self.old.0 end }
        ensures state { self.new.0 ≡ next self.old.0 }
    {
        self.0 = self.0.wrapping_mul(1664525).wrapping_add(1013904223);
        (self.0 >> 16) as usize % end
    }

    /// A row that is off or on.
    pub fn row(&mut self) -> OnOff
        ensures value { result ≡ drawn_row self.old.0 }
        ensures state { self.new.0 ≡ next self.old.0 }
    {
        if self.below(2) == 0 {
            OnOff::Off
        } else {
            OnOff::On
        }
    }

    /// A wiring for so many inputs, by as many draws.
    pub fn wiring(&mut self, inputs: usize) -> Wiring
        requires { inputs ≤ 10 }
        ensures inputs { result.inputs ≡ inputs }
        ensures state { self.new.0 ≡ iterate next inputs self.old.0 }
    {
        let mut pins: [u8; 10] = array::from_fn(|i| i as u8);
        for i in 0..inputs {
            pins.swap(i, i + self.below(inputs - i));
        }
        Wiring::new(inputs, &pins[..inputs]).unwrap()
    }
}
