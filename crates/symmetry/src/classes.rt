ghost use Rattle.std.specs.Prelude.{◌<◌, length};
ghost use Rattle.symmetry.specs.Symmetry.{Class, Classes};
ghost use Rattle.symmetry.specs.Writing.{Written, classes_due};

use crate::exchange::are_symmetric;
use refusals::Refusal;
use rows::RowKind;
use tables::Table;

// The lowest input symmetric with this one, itself counted.
fn class_of<R: RowKind>(table: &Table<R>, input: usize) -> usize
    requires { input < table.now.inputs }
    ensures { Class R.RowKind.same table.now.inputs table.now.rows.now input result }
{
    (0..input)
        .find(|&lower| are_symmetric(table, input, lower))
        .unwrap_or(input)
}

/// The class of each input of a table, and 255 in the places that have no input.
pub fn classes_of<R: RowKind>(table: &Table<R>) -> [u8; 10]
    ensures { Classes R.RowKind.same table.now.inputs table.now.rows.now result }
{
    let mut classes = [255; 10];
    for (input, class) in classes[..table.inputs].iter_mut().enumerate() {
        *class = class_of(table, input) as u8;
    }
    classes
}

/// Writes the classes of a table's inputs into the first ten bytes of the memory.
pub fn write_classes<R: RowKind>(
    inputs: usize,
    rows: &[R],
    memory: &mut [u8],
) -> Result<(), Refusal>
    ensures { Written R.RowKind.same inputs rows.now memory.old (classes_due inputs (length rows.now) (length memory.old)) result memory.new }
{
    let table = Table::new(inputs, rows)?;
    if memory.len() < 10 {
        return Err(Refusal::MemoryTooShort);
    }
    memory[..10].copy_from_slice(&classes_of(&table));
    Ok(())
}
