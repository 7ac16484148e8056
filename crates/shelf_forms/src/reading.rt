ghost use Rattle.std.specs.Prelude.{◌≡◌, ◌≢◌, ℕ, ◌<◌, ◌++◌, [], List, MatchOption, length, map, codes};
ghost use Rattle.std.specs.List.{All};
ghost use Rattle.rows.specs.declared.on_off.OnOff.{OnOff};
ghost use Rattle.typed_rows.specs.Reading.{digit};
ghost use Rattle.tokens.specs.Characters.{Is};
ghost use Rattle.tokens.specs.Cursors.{rest, Ends};
ghost use Rattle.tokens.specs.declared.characters.Kind.TheVariants.{RowDigit};
ghost use Rattle.tokens.specs.declared.token.Word.TheVariants as word;
ghost use Rattle.shelf_forms.specs.Forms.{rows_text, Reads, NoPart, NoDrop, NoCard, Spells};

use crate::form::Form;
use tokens::{Cursor, Sign, Token, Word};

const LONGEST_LINE: usize = 1100;

// The digits of rows that come after a space.
fn row_digits<'a>(cursor: &mut Cursor<'a>) -> Option<&'a [u8]>
    ensures { MatchOption result ((tail : List ℕ) → rest cursor.old ≡ codes " " ++ tail → Ends RowDigit tail) (λ run. All (Is RowDigit) run.now × (run.now ≢ []) × Ends RowDigit (rest cursor.new) × (rest cursor.old ≡ codes " " ++ (run.now ++ rest cursor.new))) }
{
    cursor.sign(Sign::Space)?;
    let Some(Token::Rows { run, .. }) = cursor.rows() else {
        return None;
    };
    Some(run)
}

// The rows, with which the line ends.
fn rows<'a>(mut cursor: Cursor<'a>) -> Option<&'a [u8]>
    ensures { MatchOption result ((rows : List OnOff) → 0 < length rows → rest cursor.entry ≢ rows_text rows) (λ run. (rows : List OnOff) × (0 < length rows) × (run.now ≡ map digit rows) × (rest cursor.entry ≡ rows_text rows)) }
{
    cursor.sign(Sign::Space)?;
    cursor.open(Word::Rows)?;
    let run = row_digits(&mut cursor)?;
    cursor.sign(Sign::Close)?;
    cursor.end()?;
    Some(run)
}

fn part<'a>(mut cursor: Cursor<'a>) -> Option<Form<'a>>
    ensures { MatchOption result (NoPart (rest cursor.entry)) (Spells word.Part (rest cursor.entry)) }
{
    let number = cursor.next_number()?;
    let inputs = cursor.inputs()?;
    let rows = rows(cursor)?;
    Some(Form::Part {
        number,
        inputs,
        rows,
    })
}

fn dropped<'a>(mut cursor: Cursor<'a>) -> Option<Form<'a>>
    ensures { MatchOption result (NoDrop (rest cursor.entry)) (Spells word.Drop (rest cursor.entry)) }
{
    let number = cursor.next_number()?;
    cursor.end()?;
    Some(Form::Drop { number })
}

fn card<'a>(mut cursor: Cursor<'a>) -> Option<Form<'a>>
    ensures { MatchOption result (NoCard (rest cursor.entry)) (Spells word.Card (rest cursor.entry)) }
{
    let inputs = cursor.inputs()?;
    let rows = rows(cursor)?;
    Some(Form::Card { inputs, rows })
}

impl<'a> Form<'a> {
    /// The form that the line spells, its newline included.
    pub fn read(line: &'a [u8]) -> Option<Form<'a>>
        ensures { Reads line.now result }
    {
        if line.len() > LONGEST_LINE {
            return None;
        }
        let mut cursor = Cursor::new(line);
        match cursor.opening()? {
            Word::Part => part(cursor),
            Word::Drop => dropped(cursor),
            Word::Card => card(cursor),
            _ => None,
        }
    }
}
