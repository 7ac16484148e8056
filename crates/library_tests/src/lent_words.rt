ghost use Rattle.std.specs.Prelude.{◌≡◌, length, replicate};
ghost use Rattle.runs.specs.Transcript.{said, told};

use crate::on_the_shelf::{enter, fit, remove};
use inventory::Shelf;
use refusals::Refusal;
use rows::OnOff;
use runs::{Answer, Call, Entry, Grant, open_and_play_entries};
use signatures::Cofactor;
use std::array;
use std::process::Abort;
use std::test::Fail;

const F: OnOff = OnOff::Off;

const T: OnOff = OnOff::On;

// A call that is lent words, into each of which it writes its note.
#[derive(Clone, Copy)]
struct Noted<'a> {
    call: Call<'a, OnOff, Cofactor>,
    room: usize,
    note: u64,
}

impl Entry<OnOff, Cofactor> for Noted<'_> {
    type Answer = Answer;

    ghost kind = { record {
      IsCall = λ x c. c ≡ said x.call;
      bytes = record { room = λ x. 0; Tells = λ x result bytes bytes' tells. (tells ≡ told result) × (bytes' ≡ bytes) };
      words = record { room = λ x. x.room; Tells = λ x result words words' tells. words' ≡ replicate (length words) x.note };
    } };

    fn bytes(&self) -> usize {
        0
    }

    fn words(&self) -> usize {
        self.room
    }

    fn play(
        &self,
        shelf: &mut Shelf,
        memory: &mut [OnOff],
        bytes: &mut [u8],
        words: &mut [u64],
    ) -> Answer {
        words.fill(self.note);
        self.call.play(shelf, memory, bytes, &mut [])
    }
}

// Enters a part, fits a card and drops the part, with two words, no word and three words.
fn three_noted<'a>(rows: &'a [OnOff]) -> [Noted<'a>; 3] {
    let lend = |call, room, note| Noted { call, room, note };
    [
        lend(enter(7, 1, rows), 2, 11),
        lend(fit(1, rows, &Cofactor), 0, 22),
        lend(remove(7), 3, 33),
    ]
}

#[test]
fn words_are_lent_one_after_the_other(rt: HostRuntime) -> Result<(), Fail> {
    let mut memory = [T; 1024];
    let mut words = [0; 6];
    let mut answers: [Answer; 3] = array::from_fn(|_| Err(Refusal::NotAForm));
    open_and_play_entries::<OnOff, Cofactor, Noted<'_>>(
        1,
        &mut memory,
        &three_noted(&[F, T]),
        &mut [],
        &mut words,
        &mut answers,
    )?;
    assert_eq!(rt; words, [11, 11, 33, 33, 33, 0]);
    assert!(rt; matches!(answers[0], Ok(Grant::Done)));
    assert!(rt; matches!(answers[1], Ok(Grant::Proposed(_))));
    assert!(rt; matches!(answers[2], Ok(Grant::Done)));
    Ok(())
}

#[test]
fn nothing_is_done_with_a_word_too_few(rt: HostRuntime) -> Result<(), Fail> {
    let mut memory = [T; 1024];
    let mut words = [0; 4];
    let mut answers: [Answer; 3] = array::from_fn(|_| Err(Refusal::NotAForm));
    let refused = open_and_play_entries::<OnOff, Cofactor, Noted<'_>>(
        1,
        &mut memory,
        &three_noted(&[F, T]),
        &mut [],
        &mut words,
        &mut answers,
    );
    assert!(rt; matches!(refused, Err(Refusal::MemoryTooShort)));
    assert_eq!(rt; words, [0; 4]);
    assert!(rt;
        answers
            .iter()
            .all(|answer| matches!(answer, Err(Refusal::NotAForm)))
    );
    assert!(rt; memory[0] == T);
    Ok(())
}
