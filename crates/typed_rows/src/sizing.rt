ghost use Rattle.typed_rows.specs.Sizing.{IsSized};

use crate::inputs::inputs_for;
use refusals::Refusal;
use tables::Table;

/// The table of these rows, with the number of inputs that so many rows ask for.
pub fn table_of<R>(rows: &[R]) -> Result<Table<'_, R>, Refusal>
    ensures { IsSized rows.now result }
{
    let inputs = inputs_for(rows.len()).ok_or(Refusal::TooManyInputs)?;
    Table::new(inputs, rows)
}
