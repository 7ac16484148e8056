ghost use Rattle.std.specs.Prelude.{map};
ghost use Rattle.rebuild.specs.Sizing.{IsSized, AreSized};

use crate::failure::{Failure, Side};
use crate::job::Stocked;
use crate::typed::TypedPart;
use rows::OnOff;
use std::alloc::Global;
use tables::Table;
use typed_rows::table_of;

/// The table of these rows; where there is none, this side is refused.
pub fn sized(side: Side, rows: &[OnOff]) -> Result<Table<'_, OnOff>, Failure>
    ensures { IsSized side rows.now result }
{
    table_of(rows).map_err(|refusal| Failure::Refused(side, refusal))
}

/// The parts as tables.
pub fn stocked(heap: Global, parts: &[TypedPart]) -> Result<Vec<Stocked<'_, OnOff>>, Failure>
    ensures { AreSized parts.now result }
{
    let mut stock = Vec::new(heap);
    for part in parts {
        let table = sized(Side::Part(part.number), part.rows.as_slice())?;
        stock.push(Stocked {
            number: part.number,
            table,
        })?;
    }
    Ok(stock)
}
