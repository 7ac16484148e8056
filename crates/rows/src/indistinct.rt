ghost use Rattle.std.specs.Prelude.{true};
ghost use Rattle.std.proofs.Common.{rules};

use crate::row_kind::RowKind;

/// A kind that calls all rows the same, whatever they hold: lawful, and so a test of what is said of every kind.
#[derive(Clone, Copy)]
pub struct Indistinct(pub u8);

impl RowKind for Indistinct {
    ghost same = { λ _ _. true };

    ghost weight = { λ _. 0 };

    ghost laws = { Prim.search rules };

    fn is_same(&self, _other: &Indistinct) -> bool {
        true
    }

    fn weight(&self) -> u8 {
        0
    }
}
