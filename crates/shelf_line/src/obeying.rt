ghost use Rattle.std.specs.Prelude.{◌≡◌, ◌≤◌, List, length, take, map};
ghost use Rattle.rows.specs.declared.on_off.OnOff.{OnOff};
ghost use Rattle.typed_rows.specs.Reading.{digit};
ghost use Rattle.ledger.specs.Questions.{questions_by};
ghost use Rattle.answers.specs.Telling.{told};
ghost use Rattle.shelf_line.specs.Lines.{Obeys};
ghost use Rattle.rows.specs.Kinds.{on_off_same};

use answers::Reply;
use inventory::Shelf;
use refusals::Refusal;
use rows::OnOff;
use shelf_forms::Form;
use signatures::Signature;

// A line has fewer rows than bytes.
const MOST_ROWS: usize = 1100;

// The row of a digit, without a jump that would be guessed wrong at every second row.
fn row_of(byte: u8) -> OnOff
    requires { (row : OnOff) × (digit row ≡ byte) }
    ensures { digit result ≡ byte }
{
    if byte == b'0' { OnOff::Off } else { OnOff::On }
}

// Writes the rows that the digits of a form spell into the front of the room.
fn write_rows(digits: &[u8], room: &mut [OnOff])
    requires spelled { (rows : List OnOff) × (digits.now ≡ map digit rows) }
    requires enough { length digits.now ≤ length room.old }
    ensures { map digit (take (length digits.now) room.new) ≡ digits.now }
{
    for (i, byte) in digits.iter().enumerate() {
        room[i] = row_of(*byte);
    }
}

// The rows that the digits of a form spell, as many as there are digits.
fn rows_of(digits: &[u8]) -> [OnOff; MOST_ROWS]
    requires { (rows : List OnOff) × (digits.now ≡ map digit rows) × (length rows ≤ 1100) }
    ensures { map digit (take (length digits.now) result) ≡ digits.now }
{
    let mut rows = [OnOff::Off; MOST_ROWS];
    write_rows(digits, &mut rows);
    rows
}

/// Does what a line asks of the shelf.
pub fn obey<P: Signature<OnOff>>(
    shelf: &mut Shelf,
    memory: &mut [OnOff],
    pile: &P,
    line: &[u8],
) -> Result<Reply, Refusal>
    ensures { Obeys (questions_by on_off_same P.Signature.count P.Signature.value) pile.now line.now shelf.old memory.old (told result) shelf.new memory.new }
{
    let Some(form) = Form::read(line) else {
        return Err(Refusal::NotAForm);
    };
    match form {
        Form::Part {
            number,
            inputs,
            rows: digits,
        } => {
            let rows = rows_of(digits);
            shelf
                .enter(memory, number, inputs, &rows[..digits.len()])
                .map(|()| Reply::Done)
        }
        Form::Drop { number } => shelf.drop_part(memory, number).map(|()| Reply::Done),
        Form::Card {
            inputs,
            rows: digits,
        } => {
            let card = rows_of(digits);
            shelf
                .fit(memory, inputs, &card[..digits.len()], pile)
                .map(Reply::Fit)
        }
    }
}
