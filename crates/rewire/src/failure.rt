ghost use Rattle.std.specs.Prelude.{◌≡◌, Some};
ghost use Rattle.rewire.specs.declared.failure.Failure.TheVariants.{Memory, Output};
ghost use Rattle.rewire.specs.Texts.{side_text, failure_text};

use refusals::Refusal;
use std::alloc::AllocError;
use std::{fmt, io};

/// Which of the two tables.
#[derive(Clone, Copy, Debug)]
pub enum Side {
    Card,
    Part,
}

/// Why no answer was printed.
#[derive(Debug, Drop)]
pub enum Failure {
    Usage,
    NotRows(Side),
    Refused(Side, Refusal),
    Memory,
    Output,
}

impl From<AllocError> for Failure {
    ghost from_gives = { λ _ failure. failure ≡ Memory };

    fn from(_error: AllocError) -> Failure {
        Failure::Memory
    }
}

impl From<io::Error> for Failure {
    ghost from_gives = { λ _ failure. failure ≡ Output };

    fn from(_error: io::Error) -> Failure {
        Failure::Output
    }
}

impl fmt::Display for Side {
    ghost output = { λ side. Some (side_text side) };

    fn fmt<W: fmt::Write>(&self, f: &mut fmt::Formatter<W>) -> fmt::Result {
        match self {
            Side::Card => write!(f, "card"),
            Side::Part => write!(f, "part"),
        }
    }
}

// What stands on standard error.
impl fmt::Display for Failure {
    ghost output = { λ failure. Some (failure_text failure) };

    fn fmt<W: fmt::Write>(&self, f: &mut fmt::Formatter<W>) -> fmt::Result {
        match self {
            Failure::Usage => write!(
                f,
                "rewire: takes the rows of a card and of a part; rewire --help says how to use it"
            ),
            Failure::NotRows(side) => write!(f, "rewire: the {side}'s rows are digits 0 and 1"),
            Failure::Refused(side, refusal) => {
                let number = refusal.number();
                write!(f, "rewire: the {side} is refused with {number}: {refusal}")
            }
            Failure::Memory => write!(f, "rewire: out of memory"),
            Failure::Output => write!(f, "rewire: cannot read the arguments or write the answer"),
        }
    }
}
