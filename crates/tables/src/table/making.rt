ghost use Rattle.std.specs.Prelude.{◌≡◌, ◌^◌, ◌≤◌, length};
ghost use Rattle.refusals.specs.Due.{Outcome};
ghost use Rattle.tables.specs.Making.{table_due, IsTable};

use crate::table::Table;
use refusals::Refusal;

impl<'a, R> Table<'a, R> {
    /// The table of so many inputs with these rows.
    pub fn new(inputs: usize, rows: &'a [R]) -> Result<Table<'a, R>, Refusal>
        ensures { Outcome (table_due inputs (length rows.now)) (IsTable inputs rows.now) result }
    {
        Table::check(inputs, rows)?;
        Ok(Table { inputs, rows })
    }

    /// Whether these rows are a table of so many inputs.
    pub fn check(inputs: usize, rows: &[R]) -> Result<(), Refusal>
        ensures { Outcome (table_due inputs (length rows.now)) (λ _. (inputs ≤ 10) × (length rows.now ≡ 2 ^ inputs)) result }
    {
        if inputs > 10 {
            return Err(Refusal::TooManyInputs);
        }
        if rows.len() != 1usize << inputs {
            return Err(Refusal::WrongRowCount);
        }
        Ok(())
    }
}
