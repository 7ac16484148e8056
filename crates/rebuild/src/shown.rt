ghost use Rattle.std.specs.Prelude.{◌≡◌, Some};
ghost use Rattle.rebuild.specs.Shown.{shown_text, on_off_shown, drive_shown};

use rows::{Direction, Drive, OnOff, RowKind};
use std::fmt;

/// A row as a person reads it.
#[derive(Clone, Copy)]
pub enum Shown {
    Off,
    On,
    Rest(u8),
    Left(u8),
    Right(u8),
}

impl fmt::Display for Shown {
    ghost output = { λ shown. Some (shown_text shown) };

    fn fmt<W: fmt::Write>(&self, f: &mut fmt::Formatter<W>) -> fmt::Result {
        match self {
            Shown::Off => write!(f, "0"),
            Shown::On => write!(f, "1"),
            Shown::Rest(hold) => write!(f, "rest {hold}"),
            Shown::Left(hold) => write!(f, "left {hold}"),
            Shown::Right(hold) => write!(f, "right {hold}"),
        }
    }
}

/// A kind of row that a person can read.
pub trait Show: RowKind {
    ghost use Rattle.rebuild.specs.declared.shown.Shown.{Shown};

    ghost shows: { Self → Shown };

    /// How this row is shown.
    fn shown(&self) -> Shown
        ensures { result ≡ shows self.now };
}

impl Show for OnOff {
    ghost shows = { on_off_shown };

    /// How this row is shown.
    fn shown(&self) -> Shown {
        match self {
            OnOff::Off => Shown::Off,
            OnOff::On => Shown::On,
        }
    }
}

impl Show for Drive {
    ghost shows = { drive_shown };

    /// How this row is shown.
    fn shown(&self) -> Shown {
        match self.direction {
            Direction::Rest => Shown::Rest(self.hold),
            Direction::Left => Shown::Left(self.hold),
            Direction::Right => Shown::Right(self.hold),
        }
    }
}
