ghost use Rattle.std.specs.Prelude.{◌≡◌, ℕ, ◌+◌, ◌*◌, ◌<◌, ◌≤◌, ◌++◌, length, drop};
ghost use Rattle.tables.specs.Making.{IsTable};
ghost use Rattle.inventory.specs.Slots.{front, written};

use rows::RowKind;
use tables::Table;

// Copies rows into the front of a stretch.
fn copy_rows<R: RowKind>(stretch: &mut [R], rows: &[R])
    requires { length rows.now ≤ length stretch.old }
    ensures { stretch.new ≡ rows.now ++ drop (length rows.now) stretch.old }
{
    stretch[..rows.len()].copy_from_slice(rows);
}

/// Writes rows into the front of a slot's stretch of 1,024 rows.
pub fn store<R: RowKind>(memory: &mut [R], slot: usize, rows: &[R])
    requires slot_few { slot < 64 }
    requires stretch_in { (slot + 1) * 1024 ≤ length memory.old }
    requires rows_fit { length rows.now ≤ 1024 }
    ensures { memory.new ≡ written memory.old (slot * 1024) rows.now }
{
    let start = slot * 1024;
    copy_rows(&mut memory[start..start + 1024], rows);
}

/// The part of a slot: its rows are the front of the slot's stretch.
pub fn stored<R: RowKind>(memory: &[R], slot: usize, inputs: usize) -> Table<'_, R>
    requires slot_few { slot < 64 }
    requires stretch_in { (slot + 1) * 1024 ≤ length memory.now }
    requires inputs_few { inputs ≤ 10 }
    ensures { IsTable inputs (front memory.now slot inputs) result }
{
    let start = slot * 1024;
    let rows = &memory[start..start + (1usize << inputs)];
    Table { inputs, rows }
}
