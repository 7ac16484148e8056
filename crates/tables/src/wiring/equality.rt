ghost use Rattle.std.specs.Prelude.{◌≡◌, Decides, nat_eq};
ghost use Rattle.std.specs.Ordering.{eq_of_both, on};
ghost use Rattle.std.specs.Cmp.Lexicographic.{pointwise};
ghost use Rattle.std.specs.Cmp.Rules.{comparing};
ghost use Rattle.std.proofs.Common.{rules};
ghost use Rattle.tables.specs.Wirings.{pin, Alike};

use crate::wiring::Wiring;

// Wirings are equal when they give as many inputs the same pins.
impl PartialEq for Wiring {
    ghost eq = { eq_of_both (on (λ w. w.inputs) nat_eq) (on (λ w. w.pins) (pointwise nat_eq)) };

    ghost laws = { Prim.search (comparing, rules) };

    fn eq(&self, other: &Wiring) -> bool
        ensures value { result ≡ ⟦<Wiring as PartialEq>⟧.eq self.now other.now }
        ensures decided { Decides result ((self.now.inputs ≡ other.now.inputs) × Alike self.now.inputs (pin self.now.pins) (pin other.now.pins)) }
    {
        self.pins() == other.pins()
    }
}

impl Eq for Wiring {
    ghost laws = { Prim.search (comparing, rules) };
}
