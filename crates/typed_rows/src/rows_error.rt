ghost use Rattle.std.specs.Prelude.{◌≡◌};
ghost use Rattle.typed_rows.specs.declared.rows_error.RowsError.TheVariants.{OutOfMemory};

use std::alloc::AllocFailed;

/// Why a text was not read as rows.
#[derive(Clone, Copy, PartialEq, Eq, Debug)]
pub enum RowsError {
    NotDigits,
    OutOfMemory,
}

impl<T: Drop> From<AllocFailed<T>> for RowsError {
    ghost from_gives = { λ _ error. error ≡ OutOfMemory };

    fn from(_refused: AllocFailed<T>) -> RowsError {
        RowsError::OutOfMemory
    }
}
