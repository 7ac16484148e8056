ghost use Rattle.rows.specs.Kinds.{drive_same, drive_weight};
ghost use Rattle.std.proofs.Common.{rules, arith};

use crate::drive::{Direction, Drive};
use crate::row_kind::RowKind;

impl RowKind for Drive {
    ghost same = { drive_same };

    ghost weight = { drive_weight };

    ghost laws = { Prim.search rules };

    fn is_same(&self, other: &Drive) -> bool {
        match (self.direction, other.direction) {
            (Direction::Rest, Direction::Rest) => true,
            (here, there) => here == there && self.hold == other.hold,
        }
    }

    fn weight(&self) -> u8 {
        match self.direction {
            Direction::Rest => 0,
            Direction::Left => 1 + self.hold,
            Direction::Right => 101 + self.hold,
        }
    }
}
