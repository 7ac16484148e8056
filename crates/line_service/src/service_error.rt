ghost use Rattle.std.specs.Prelude.{◌≡◌};
ghost use Rattle.line_service.specs.declared.service_error.ServiceError.TheVariants.{Refused};

use refusals::Refusal;
use std::io;

/// Why a conversation was not held, or broke off.
#[derive(Debug, Drop)]
pub enum ServiceError {
    Refused(Refusal),
    Reading(io::Error),
    Writing(io::Error),
    /// At least 2^64 - 1 bytes came.
    TooLong,
}

impl From<Refusal> for ServiceError {
    ghost from_gives = { λ refusal error. error ≡ Refused refusal };

    fn from(refusal: Refusal) -> ServiceError {
        ServiceError::Refused(refusal)
    }
}
