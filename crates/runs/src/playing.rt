ghost use Rattle.std.specs.Prelude.{map};
ghost use Rattle.ledger.specs.Questions.{questions_by};
ghost use Rattle.runs.specs.Transcript.{said, told, answered};
ghost use Rattle.runs.specs.declared.answer.Grant.TheVariants.{Done};
ghost use Rattle.runs.specs.Calls.{Does};
ghost use Rattle.runs.specs.Entries.{call_kind};
ghost use Rattle.runs.specs.Playing.{Played, Opened};

use crate::answer::{Answer, Grant};
use crate::call::Call;
use crate::entry::{Entry, play_entries};
use inventory::Shelf;
use refusals::Refusal;
use rows::RowKind;
use signatures::Signature;

// One call.
fn obey<R: RowKind, P: Signature<R>>(
    shelf: &mut Shelf,
    memory: &mut [R],
    call: &Call<'_, R, P>,
) -> Answer
    ensures { Does (questions_by R.RowKind.same P.Signature.count P.Signature.value) shelf.old memory.old (said call.now) (told result) shelf.new memory.new }
{
    match *call {
        Call::Enter {
            number,
            inputs,
            rows,
        } => shelf
            .enter(memory, number, inputs, rows)
            .map(|()| Grant::Done),
        Call::Drop { number } => shelf.drop_part(memory, number).map(|()| Grant::Done),
        Call::Ask(question) => question.ask(shelf, memory),
    }
}

impl<R: RowKind, P: Signature<R>> Entry<R, P> for Call<'_, R, P> {
    type Answer = Answer;

    ghost kind = { call_kind };

    fn bytes(&self) -> usize {
        0
    }

    fn words(&self) -> usize {
        0
    }

    fn play(
        &self,
        shelf: &mut Shelf,
        memory: &mut [R],
        _bytes: &mut [u8],
        _words: &mut [u64],
    ) -> Answer {
        obey(shelf, memory, self)
    }
}

/// Plays a list of calls on a shelf and writes the answers in order into the front of the room for them.
pub fn play<R: RowKind, P: Signature<R>>(
    shelf: &mut Shelf,
    memory: &mut [R],
    calls: &[Call<'_, R, P>],
    answers: &mut [Answer],
) -> Result<(), Refusal>
    ensures { Played (questions_by R.RowKind.same P.Signature.count P.Signature.value) memory.old (map said calls.now) answers.old shelf.old result shelf.new memory.new answers.new }
{
    play_entries::<R, P, Call<'_, R, P>>(shelf, memory, calls, &mut [], &mut [], answers)
}

/// Opens a shelf and plays a list of calls on it.
pub fn open_and_play<R: RowKind, P: Signature<R>>(
    slots: usize,
    memory: &mut [R],
    calls: &[Call<'_, R, P>],
    answers: &mut [Answer],
) -> Result<Shelf, Refusal>
    ensures { Opened (questions_by R.RowKind.same P.Signature.count P.Signature.value) memory.old (map said calls.now) answers.old slots result memory.new answers.new }
{
    let mut shelf = Shelf::open(slots)?;
    play(&mut shelf, memory, calls, answers)?;
    Ok(shelf)
}
