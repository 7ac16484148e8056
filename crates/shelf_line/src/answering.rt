ghost use Rattle.ledger.specs.Questions.{questions_by};
ghost use Rattle.shelf_line.specs.Lines.{Answers};
ghost use Rattle.rows.specs.Kinds.{on_off_same};

use crate::obeying::obey;
use answers::answer_text;
use inventory::Shelf;
use refusals::Refusal;
use rows::OnOff;
use signatures::Signature;

// Every answer has room in so many bytes.
const LEAST_ROOM: usize = 64;

/// Does what a line asks of the shelf, writes the answer into the front of the room for it, and answers its length.
pub fn answer_line<P: Signature<OnOff>>(
    shelf: &mut Shelf,
    memory: &mut [OnOff],
    pile: &P,
    line: &[u8],
    room: &mut [u8],
) -> Result<usize, Refusal>
    ensures { Answers (questions_by on_off_same P.Signature.count P.Signature.value) pile.now line.now shelf.old memory.old room.old result shelf.new memory.new room.new }
{
    if room.len() < LEAST_ROOM {
        return Err(Refusal::MemoryTooShort);
    }
    let answer = obey(shelf, memory, pile, line);
    answer_text(&answer).copy_into(room)
}
