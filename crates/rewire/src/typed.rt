ghost use Rattle.rewire.specs.Reading.{Read, ReadTable};

use crate::failure::{Failure, Side};
use rows::OnOff;
use std::alloc::Global;
use tables::Table;
use typed_rows::{RowsError, rows_from, table_of};

/// The rows that were typed on this side.
pub fn typed(heap: Global, side: Side, text: &str) -> Result<Vec<OnOff>, Failure>
    ensures { Read side text.now result }
{
    rows_from(heap, text).map_err(|error| match error {
        RowsError::NotDigits => Failure::NotRows(side),
        RowsError::OutOfMemory => Failure::Memory,
    })
}

/// The table of the rows that were typed on this side.
pub fn sized(side: Side, rows: &[OnOff]) -> Result<Table<'_, OnOff>, Failure>
    ensures { ReadTable side rows.now result }
{
    table_of(rows).map_err(|refusal| Failure::Refused(side, refusal))
}
