ghost use Rattle.std.specs.Prelude.{◌≡◌, ◌≢◌, ◌<◌, ◌++◌, ℕ, List, MatchOption, codes};
ghost use Rattle.std.specs.List.{All};
ghost use Rattle.tokens.specs.Cursors.{rest};
ghost use Rattle.wire_sheet.specs.Lines.{kept};
ghost use Rattle.tokens.specs.Phrases.{IsShort};
ghost use Rattle.wire_sheet.specs.Sheets.{list_text};

use crate::to_list::ToList;
use tokens::{Cursor, Sign, Word};

// The pins up to the bracket that closes the list.
fn pins(cursor: &mut Cursor) -> Option<ToList>
    ensures { MatchOption result ((pins tail : List ℕ) → All IsShort pins → rest cursor.old ≢ list_text pins tail) (λ list. (pins : List ℕ) × All IsShort pins × (list ≡ kept pins) × (rest cursor.old ≡ list_text pins (rest cursor.new))) }
{
    let mut list = ToList::empty();
    while cursor.sign(Sign::Close).is_none() {
        list.push(cursor.next_number()?);
    }
    Some(list)
}

/// What a wire line says, so far as it can make a sheet.
#[derive(Drop)]
pub struct WireLine {
    pub number: u32,
    pub inputs: usize,
    pub list: ToList,
}

impl WireLine {
    ghost use Rattle.wire_sheet.specs.Lines.{Said, Spells, Holds};

    /// What a wire line says, if the bytes are one.
    pub fn read(line: &[u8]) -> Option<WireLine>
        ensures { MatchOption result ((said : Said) → ¬ (Spells line.now said)) (λ held. (said : Said) × Spells line.now said × Holds held said) }
    {
        let mut cursor = Cursor::new(line);
        cursor.open(Word::Wire)?;
        let number = cursor.next_number()?;
        let inputs = cursor.inputs()?;
        cursor.sign(Sign::Space)?;
        cursor.open(Word::To)?;
        let list = pins(&mut cursor)?;
        cursor.end()?;
        Some(WireLine {
            number,
            inputs,
            list,
        })
    }
}
