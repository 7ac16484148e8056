ghost use Rattle.std.specs.Prelude.{◌<◌, Decides};
ghost use Rattle.symmetry.specs.Symmetry.{Symmetric};

use rows::RowKind;
use tables::Table;

/// Whether each row is the same as the row in which inputs i and k have each other's values. It is enough to ask the rows
/// with i on and k off: a row in which both have one value is its own, and sameness goes both ways. Row 2^i is the first
/// with i on.
pub fn are_symmetric<R: RowKind>(table: &Table<R>, i: usize, k: usize) -> bool
    requires i_in { i < table.now.inputs }
    requires k_in { k < table.now.inputs }
    ensures { Decides result (Symmetric R.RowKind.same table.now.inputs table.now.rows.now i k) }
{
    for r in (1usize << i)..table.rows.len() {
        if (r >> i) % 2 == 1 && (r >> k) % 2 == 0 {
            let exchanged = r + (1usize << k) - (1usize << i);
            if !table.rows[r].is_same(&table.rows[exchanged]) {
                return false;
            }
        }
    }
    true
}
