ghost use Rattle.line_runs.specs.Turns.{turn_kind};

use inventory::Shelf;
use refusals::Refusal;
use rows::OnOff;
use runs::{Answer, Call, Entry};
use shelf_line::answer_line;
use signatures::Signature;

/// What is asked of an on/off shelf in a list of calls: one of the calls, or a line, which has so many bytes of the answer
/// memory for its answer.
#[derive_where(Clone, Copy)]
pub enum Turn<'a, P> {
    Call(Call<'a, OnOff, P>),
    Line {
        text: &'a [u8],
        pile: &'a P,
        room: usize,
    },
}

/// What a turn is answered. A line's answer is written, and this is its length.
#[derive(Drop)]
pub enum TurnAnswer {
    Call(Answer),
    Line(Result<usize, Refusal>),
}

impl<P: Signature<OnOff>> Entry<OnOff, P> for Turn<'_, P> {
    type Answer = TurnAnswer;

    ghost kind = { turn_kind P };

    fn bytes(&self) -> usize {
        match *self {
            Turn::Call(_) => 0,
            Turn::Line { room, .. } => room,
        }
    }

    fn words(&self) -> usize {
        0
    }

    fn play(
        &self,
        shelf: &mut Shelf,
        memory: &mut [OnOff],
        bytes: &mut [u8],
        words: &mut [u64],
    ) -> TurnAnswer {
        match *self {
            Turn::Call(call) => TurnAnswer::Call(call.play(shelf, memory, bytes, words)),
            Turn::Line { text, pile, .. } => {
                TurnAnswer::Line(answer_line(shelf, memory, pile, text, bytes))
            }
        }
    }
}
