ghost use Rattle.rows.specs.Kinds.{on_off_same, on_off_weight};
ghost use Rattle.std.proofs.Common.{rules};

use crate::row_kind::RowKind;

/// A row that is 0 or 1.
#[derive(Clone, Copy, PartialEq, Eq, Debug)]
pub enum OnOff {
    Off,
    On,
}

impl RowKind for OnOff {
    ghost same = { on_off_same };

    ghost weight = { on_off_weight };

    ghost laws = { Prim.search rules };

    fn is_same(&self, other: &OnOff) -> bool {
        self == other
    }

    fn weight(&self) -> u8 {
        *self as u8
    }
}
