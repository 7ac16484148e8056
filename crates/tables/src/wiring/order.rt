ghost use Rattle.std.specs.Prelude.{◌≡◌, Decides};
ghost use Rattle.tables.specs.Wirings.{pin, Before};

use crate::wiring::Wiring;

impl Wiring {
    /// Whether this wiring comes before another for as many inputs in dictionary order.
    pub fn comes_before(&self, other: &Wiring) -> bool
        ensures { Decides result ((self.now.inputs ≡ other.now.inputs) × Before self.now.inputs (pin self.now.pins) (pin other.now.pins)) }
    {
        self.inputs == other.inputs && self.pins() < other.pins()
    }
}
