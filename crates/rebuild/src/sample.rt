ghost use Rattle.std.specs.Prelude.{◌≡◌, IfOk};
ghost use Rattle.rebuild.specs.Samples.{IsWired};
ghost use Rattle.tables.specs.Wirings.{pin};

use rows::RowKind;
use std::alloc::{AllocError, Global};
use tables::{Table, Wiring};

/// What a sample reads where a part stands in by a wiring: in each row what the part has in the row that it is carried to.
pub fn readings_of<R: RowKind>(
    heap: Global,
    part: &Table<R>,
    wiring: &Wiring,
) -> Result<Vec<R>, AllocError>
    requires { part.now.inputs ≡ wiring.now.inputs }
    ensures { IfOk result (λ readings. IsWired part.now.inputs (pin wiring.now.pins) part.now.rows.now readings.items) }
{
    let mut readings = Vec::new(heap);
    for row in 0..part.rows.len() {
        readings.push(part.rows[wiring.carry(row)])?;
    }
    Ok(readings)
}
