ghost use Rattle.std.specs.Prelude.{◌==◌, ◌%◌};
ghost use Rattle.std.proofs.Common.{rules};

use rows::{Direction, Drive, Indistinct, OnOff, RowKind};

/// A kind of row, with this program's own account of what a row does.
pub trait Kind: RowKind {
    /// One of at most four rows. The first two do different things, if any do.
    fn row(k: usize) -> Self;

    /// What the row does, as a number.
    fn code(&self) -> u16;
}

impl Kind for OnOff {
    fn row(k: usize) -> OnOff {
        [OnOff::Off, OnOff::On][k % 2]
    }

    fn code(&self) -> u16 {
        *self as u16
    }
}

impl Kind for Drive {
    fn row(k: usize) -> Drive {
        let (direction, hold) = match k {
            0 => (Direction::Left, 99),
            1 => (Direction::Right, 0),
            2 => (Direction::Rest, 0),
            _ => (Direction::Rest, 99),
        };
        Drive { direction, hold }
    }

    fn code(&self) -> u16 {
        match self.direction {
            Direction::Rest => 0,
            Direction::Left => 100 + u16::from(self.hold),
            Direction::Right => 200 + u16::from(self.hold),
        }
    }
}

/// A kind of row of this program's own: rows are the same when they are equal, and two that are not may weigh alike.
#[derive(Clone, Copy)]
pub struct Level(u8);

impl RowKind for Level {
    ghost same = { λ x y. x.0 == y.0 };

    ghost weight = { λ x. x.0 % 2 };

    ghost laws = { Prim.search rules };

    fn is_same(&self, other: &Level) -> bool {
        self.0 == other.0
    }

    fn weight(&self) -> u8 {
        self.0 % 2
    }
}

impl Kind for Level {
    fn row(k: usize) -> Level {
        Level([0, 2, 1, 3][k % 4])
    }

    fn code(&self) -> u16 {
        u16::from(self.0)
    }
}

impl Kind for Indistinct {
    fn row(k: usize) -> Indistinct {
        Indistinct((k % 2) as u8)
    }

    fn code(&self) -> u16 {
        0
    }
}
