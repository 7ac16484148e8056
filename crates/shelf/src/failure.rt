ghost use Rattle.std.specs.Prelude.{◌≡◌, Some};
ghost use Rattle.shelf.specs.declared.failure.Failure.TheVariants.{Refused, Memory, Broken};
ghost use Rattle.shelf.specs.Texts.{failure_text, failure_of};

use line_service::ServiceError;
use refusals::Refusal;
use std::alloc::AllocError;
use std::{fmt, io};

/// Why the program did not go on to the end of its input.
#[derive(Debug, Drop)]
pub enum Failure {
    Usage,
    Refused(Refusal),
    Memory,
    Broken,
}

impl From<AllocError> for Failure {
    ghost from_gives = { λ _ failure. failure ≡ Memory };

    fn from(_error: AllocError) -> Failure {
        Failure::Memory
    }
}

impl From<io::Error> for Failure {
    ghost from_gives = { λ _ failure. failure ≡ Broken };

    fn from(_error: io::Error) -> Failure {
        Failure::Broken
    }
}

impl From<ServiceError> for Failure {
    ghost from_gives = { λ error failure. failure ≡ failure_of error };

    fn from(error: ServiceError) -> Failure {
        match error {
            ServiceError::Refused(refusal) => Failure::Refused(refusal),
            ServiceError::Reading(_) | ServiceError::Writing(_) | ServiceError::TooLong => {
                Failure::Broken
            }
        }
    }
}

// What stands on standard error.
impl fmt::Display for Failure {
    ghost output = { λ failure. Some (failure_text failure) };

    fn fmt<W: fmt::Write>(&self, f: &mut fmt::Formatter<W>) -> fmt::Result {
        match self {
            Failure::Usage => write!(
                f,
                "shelf: takes no arguments; shelf --help says how to use it"
            ),
            Failure::Refused(refusal) => {
                let number = refusal.number();
                write!(f, "shelf: refused with {number}: {refusal}")
            }
            Failure::Memory => write!(f, "shelf: out of memory"),
            Failure::Broken => write!(f, "shelf: cannot read a line or write an answer"),
        }
    }
}
