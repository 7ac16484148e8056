ghost use Rattle.std.specs.Prelude.{◌≡◌, ◌≢◌, ℕ, ◌++◌, List, map, codes, string_bytes, IfOk, MatchOption};
ghost use Rattle.typed_rows.specs.Reading.{digit, SpellsNone};
ghost use Rattle.rebuild.specs.Reading.{ReadRows, ReadPart, ReadParts, ReadJob};

use crate::failure::{Failure, Side};
use refusals::Refusal;
use rows::OnOff;
use std::alloc::{AllocError, Global};
use tokens::{Cursor, Token};
use typed_rows::{RowsError, copy_rows, rows_from};

// The rows that were typed on this side.
fn typed_rows(heap: Global, side: Side, text: &str) -> Result<Vec<OnOff>, Failure>
    ensures { ReadRows side text.now result }
{
    rows_from(heap, text).map_err(|error| match error {
        RowsError::NotDigits => Failure::NotRows(side),
        RowsError::OutOfMemory => Failure::Memory,
    })
}

// The rows that digits spell, if they spell any.
fn rows_of(heap: Global, digits: &[u8]) -> Result<Option<Vec<OnOff>>, AllocError>
    ensures { IfOk result (λ rows. MatchOption rows (SpellsNone digits.now) (λ rows. digits.now ≡ map digit rows.items)) }
{
    let mut rows = vec![in heap; OnOff::Off; digits.len()]?;
    if copy_rows(digits, rows.as_mut_slice()).is_none() {
        return Ok(None);
    }
    Ok(Some(rows))
}

// What follows an equals sign, if the text begins with one.
fn after_equals(text: &[u8]) -> Option<&[u8]>
    ensures { MatchOption result ((tail : List ℕ) → text.now ≢ codes "=" ++ tail) (λ tail. text.now ≡ codes "=" ++ tail.now) }
{
    match text {
        [b'=', tail @ ..] => Some(tail),
        _ => None,
    }
}

/// A part as it was typed.
#[derive(Drop)]
pub struct TypedPart {
    pub number: u32,
    pub rows: Vec<OnOff>,
}

// The part that a text N=ROWS spells, the one at this place.
fn typed_part(heap: Global, place: usize, text: &str) -> Result<TypedPart, Failure>
    ensures { ReadPart place text.now result }
{
    let mut cursor = Cursor::new(text.as_bytes());
    let Some(Token::Number { value, .. }) = cursor.number() else {
        return Err(Failure::NotAPart(place));
    };
    let Some(digits) = after_equals(&cursor.line[cursor.at..]) else {
        return Err(Failure::NotAPart(place));
    };
    let Some(rows) = rows_of(heap, digits)? else {
        return Err(Failure::NotAPart(place));
    };
    Ok(TypedPart {
        number: value,
        rows,
    })
}

// The parts that were typed, whose places are counted from 1.
fn typed_parts(heap: Global, texts: &[String]) -> Result<Vec<TypedPart>, Failure>
    ensures { ReadParts (map string_bytes texts.now) result }
{
    let mut parts = Vec::new(heap);
    for (k, text) in texts.iter().enumerate() {
        let part = typed_part(heap, k + 1, text.as_str())?;
        parts.push(part)?;
    }
    Ok(parts)
}

/// A card, readings of a sample and parts as they were typed.
#[derive(Drop)]
pub struct Typed {
    pub card: Vec<OnOff>,
    pub readings: Vec<OnOff>,
    pub parts: Vec<TypedPart>,
}

impl Typed {
    /// Reads a card, the readings and the parts of a stock from the arguments.
    pub fn of(heap: Global, card: &str, readings: &str, stock: &[String]) -> Result<Typed, Failure>
        ensures { ReadJob card.now readings.now (map string_bytes stock.now) result }
    {
        let card = typed_rows(heap, Side::Card, card)?;
        let readings = typed_rows(heap, Side::Readings, readings)?;
        let parts = typed_parts(heap, stock)?;
        if readings.len() != card.len() {
            return Err(Failure::Refused(Side::Readings, Refusal::WrongTrialCount));
        }
        Ok(Typed {
            card,
            readings,
            parts,
        })
    }
}
