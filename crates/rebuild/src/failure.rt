ghost use Rattle.std.specs.Prelude.{◌≡◌, Some};
ghost use Rattle.rebuild.specs.declared.failure.Failure.TheVariants.{Memory, Output};
ghost use Rattle.rebuild.specs.Texts.{side_text, failure_text};

use refusals::Refusal;
use std::alloc::{AllocError, AllocFailed};
use std::{fmt, io};

/// Which argument is meant: the card, the readings, or the part of this number.
#[derive(Clone, Copy, Debug)]
pub enum Side {
    Card,
    Readings,
    Part(u32),
}

/// Why no answer was printed.
#[derive(Debug, Drop)]
pub enum Failure {
    Usage,
    NotRows(Side),
    /// The part that comes at this place, counted from 1.
    NotAPart(usize),
    Refused(Side, Refusal),
    StockSize,
    Memory,
    Output,
}

impl From<AllocError> for Failure {
    ghost from_gives = { λ _ r. r ≡ Memory };

    fn from(_error: AllocError) -> Failure {
        Failure::Memory
    }
}

impl<T: Drop> From<AllocFailed<T>> for Failure {
    ghost from_gives = { λ _ r. r ≡ Memory };

    fn from(_refused: AllocFailed<T>) -> Failure {
        Failure::Memory
    }
}

impl From<io::Error> for Failure {
    ghost from_gives = { λ _ r. r ≡ Output };

    fn from(_error: io::Error) -> Failure {
        Failure::Output
    }
}

impl fmt::Display for Side {
    ghost output = { λ side. Some (side_text side) };

    fn fmt<W: fmt::Write>(&self, f: &mut fmt::Formatter<W>) -> fmt::Result {
        match self {
            Side::Card => write!(f, "the card"),
            Side::Readings => write!(f, "the readings"),
            Side::Part(number) => write!(f, "part {number}"),
        }
    }
}

// What stands on standard error.
impl fmt::Display for Failure {
    ghost output = { λ failure. Some (failure_text failure) };

    fn fmt<W: fmt::Write>(&self, f: &mut fmt::Formatter<W>) -> fmt::Result {
        match self {
            Failure::Usage => write!(
                f,
                "rebuild: takes no arguments, or rows of a card, readings and parts N=ROWS; rebuild --help says how to use it"
            ),
            Failure::NotRows(side) => write!(
                f,
                "rebuild: rows are digits 0 and 1, and those of {side} are not"
            ),
            Failure::NotAPart(place) => write!(
                f,
                "rebuild: a part is N=ROWS, its number and its rows in digits 0 and 1, and the part at place {place} is not"
            ),
            Failure::Refused(side, refusal) => {
                let number = refusal.number();
                write!(f, "rebuild: {side} refused with {number}: {refusal}")
            }
            Failure::StockSize => write!(f, "rebuild: the stock has 1 to 64 parts"),
            Failure::Memory => write!(f, "rebuild: out of memory"),
            Failure::Output => write!(f, "rebuild: cannot read the arguments or write the answer"),
        }
    }
}
