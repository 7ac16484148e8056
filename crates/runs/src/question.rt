ghost use Rattle.ledger.specs.Questions.{questions_by};
ghost use Rattle.runs.specs.Transcript.{question_of, told};
ghost use Rattle.runs.specs.Calls.{AnswersQuestion};

use crate::answer::{Answer, Grant};
use inventory::Shelf;
use rows::RowKind;
use signatures::Signature;

/// What is asked of a shelf and leaves it as it was. Each question brings its pile.
#[derive_where(Clone, Copy)]
pub enum Question<'a, R, P> {
    Fit {
        inputs: usize,
        card: &'a [R],
        pile: &'a P,
    },
    Spread {
        number: u32,
        inputs: usize,
        card: &'a [R],
        pile: &'a P,
    },
}

impl<R: RowKind, P: Signature<R>> Question<'_, R, P> {
    /// What the shelf answers.
    pub fn ask(&self, shelf: &Shelf, memory: &[R]) -> Answer
        ensures { AnswersQuestion (questions_by R.RowKind.same P.Signature.count P.Signature.value) shelf.now memory.now (question_of self.now) (told result) }
    {
        match *self {
            Question::Fit { inputs, card, pile } => shelf
                .fit(memory, inputs, card, pile)
                .map(Grant::Proposed),
            Question::Spread {
                number,
                inputs,
                card,
                pile,
            } => shelf
                .spread(memory, number, inputs, card, pile)
                .map(Grant::Spread),
        }
    }
}
