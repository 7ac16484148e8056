ghost use Rattle.std.specs.Prelude.{◌≡◌, ◌^◌};
ghost use Rattle.tables.specs.Sums.{weighed};
ghost use Rattle.tables.specs.Wirings.{pin};
ghost use Rattle.tables.specs.RowCheck.{Checked};

use crate::table::Table;
use crate::wiring::Wiring;
use rows::RowKind;

/// The sum of the weights of all rows.
pub fn total_weight<R: RowKind>(table: &Table<R>) -> u32
    ensures { result ≡ weighed R.RowKind.weight table.now.rows.now (2 ^ table.now.inputs) }
{
    let mut sum = 0;
    for row in table.rows {
        sum += row.weight() as u32;
    }
    sum
}

/// Whether card and part agree under a wiring: the sums of the weights first, then row by row.
pub fn agrees<R: RowKind>(card: &Table<R>, part: &Table<R>, wiring: &Wiring) -> bool
    ensures { Checked R.RowKind.same wiring.now.inputs (pin wiring.now.pins) card.now.rows.now part.now.rows.now result }
{
    let inputs = wiring.inputs();
    if card.inputs != inputs || part.inputs != inputs {
        return false;
    }
    if total_weight(card) != total_weight(part) {
        return false;
    }
    for (r, row) in card.rows.iter().enumerate() {
        let q = wiring.carry(r);
        if !row.is_same(&part.rows[q]) {
            return false;
        }
    }
    true
}
