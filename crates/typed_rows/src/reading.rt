ghost use Rattle.typed_rows.specs.Reading.{IsRow, Read, Copies};

use crate::rows_error::RowsError;
use rows::OnOff;
use std::alloc::Global;

fn row_of(byte: u8) -> Option<OnOff>
    ensures { IsRow byte result }
{
    match byte {
        b'0' => Some(OnOff::Off),
        b'1' => Some(OnOff::On),
        _ => None,
    }
}

/// The rows that a text of digits 0 and 1 spells, row 0 first.
pub fn rows_from(heap: Global, text: &str) -> Result<Vec<OnOff>, RowsError>
    ensures { Read text.now result }
{
    let mut rows = Vec::new(heap);
    for byte in text.bytes() {
        let row = row_of(byte).ok_or(RowsError::NotDigits)?;
        rows.push(row)?;
    }
    Ok(rows)
}

/// Writes the rows that digits 0 and 1 spell into the front of the room, row 0 first.
pub fn copy_rows(digits: &[u8], room: &mut [OnOff]) -> Option<()>
    ensures { Copies digits.now room.old room.new result }
{
    if digits.len() > room.len() {
        return None;
    }
    for (i, byte) in digits.iter().enumerate() {
        room[i] = row_of(*byte)?;
    }
    Some(())
}
