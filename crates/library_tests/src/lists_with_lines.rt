use line_runs::{Turn, TurnAnswer};
use refusals::Refusal;
use rows::OnOff;
use runs::{Call, Grant, Question, open_and_play_entries};
use signatures::{STANDARD_PILE, StandardPile};
use std::array;
use std::process::Abort;
use std::test::Fail;

const F: OnOff = OnOff::Off;

const T: OnOff = OnOff::On;

const CARD: [OnOff; 8] = [F, F, T, T, F, T, F, T];

fn line<'a>(text: &'a [u8], room: usize) -> Turn<'a, StandardPile> {
    Turn::Line {
        text,
        pile: &STANDARD_PILE,
        room,
    }
}

fn spread_of<'a>(number: u32, card: &'a [OnOff]) -> Turn<'a, StandardPile> {
    Turn::Call(Call::Ask(Question::Spread {
        number,
        inputs: 3,
        card,
        pile: &STANDARD_PILE,
    }))
}

// Lines and every kind of call in any order; the second line has a byte of answer memory too few.
fn mixed_turns<'a>(card: &'a [OnOff]) -> [Turn<'a, StandardPile>; 10] {
    [
        line(b"(part 30 (pins 3) (rows 00011011))\n", 64),
        line(b"(drop 30)\n", 63),
        Turn::Call(Call::Enter {
            number: 12,
            inputs: 3,
            rows: card,
        }),
        line(b"(card (pins 3) (rows 00110101))\n", 64),
        spread_of(12, card),
        Turn::Call(Call::Drop { number: 12 }),
        Turn::Call(Call::Ask(Question::Fit {
            inputs: 3,
            card,
            pile: &STANDARD_PILE,
        })),
        spread_of(12, card),
        line(b"(drop 31)\n", 64),
        line(b"(drop 30)", 64),
    ]
}

fn no_answers() -> [TurnAnswer; 10] {
    array::from_fn(|_| TurnAnswer::Line(Ok(0)))
}

fn is_done(answer: &TurnAnswer) -> bool {
    matches!(answer, TurnAnswer::Call(Ok(Grant::Done)))
}

fn is_fit(answer: &TurnAnswer, number: u32, pins: &[u8]) -> bool {
    match answer {
        TurnAnswer::Call(Ok(Grant::Proposed(fit))) => {
            fit.number() == number && fit.wiring().pins() == pins
        }
        _ => false,
    }
}

fn is_spread(answer: &TurnAnswer, spread: u32) -> bool {
    match answer {
        TurnAnswer::Call(Ok(Grant::Spread(ways))) => *ways == spread,
        _ => false,
    }
}

fn is_refused(answer: &TurnAnswer, number: u8) -> bool {
    match answer {
        TurnAnswer::Call(Err(refusal)) | TurnAnswer::Line(Err(refusal)) => {
            refusal.number() == number
        }
        _ => false,
    }
}

fn is_line(answer: &TurnAnswer, size: usize) -> bool {
    match answer {
        TurnAnswer::Line(Ok(written)) => *written == size,
        _ => false,
    }
}

#[test]
fn lines_and_calls_in_any_order(rt: HostRuntime) -> Result<(), Fail> {
    let mut memory = [T; 2048];
    let mut bytes = [b'.'; 320];
    let mut answers = no_answers();
    let shelf = open_and_play_entries::<OnOff, StandardPile, Turn<'_, StandardPile>>(
        2,
        &mut memory,
        &mixed_turns(&CARD),
        &mut bytes,
        &mut [],
        &mut answers,
    )?;
    assert_eq!(rt; shelf.slots(), 2);
    assert!(rt; is_line(&answers[0], 5));
    assert!(rt; is_refused(&answers[1], 13));
    assert!(rt; is_done(&answers[2]));
    assert!(rt; is_line(&answers[3], 31));
    assert!(rt; is_spread(&answers[4], 1));
    assert!(rt; is_done(&answers[5]));
    assert!(rt; is_fit(&answers[6], 30, &[1, 2, 0]));
    assert!(rt; is_refused(&answers[7], 9));
    assert!(rt; is_line(&answers[8], 7));
    assert!(rt; is_line(&answers[9], 7));
    assert_eq!(rt; &bytes[..6], b"(ok)\n.".as_slice());
    assert_eq!(rt; &bytes[64..127], [b'.'; 63].as_slice());
    assert_eq!(rt;
        &bytes[127..159],
        b"(fit 12 (to 0 1 2) (struck 6))\n.".as_slice()
    );
    assert_eq!(rt; &bytes[191..199], b"(no 9)\n.".as_slice());
    assert_eq!(rt; &bytes[255..263], b"(no 1)\n.".as_slice());
    assert_eq!(rt; bytes[319], b'.');
    Ok(())
}

#[test]
fn nothing_is_done_with_a_byte_too_few(rt: HostRuntime) -> Result<(), Fail> {
    let mut memory = [T; 1024];
    let mut bytes = [b'.'; 318];
    let mut answers = no_answers();
    let refused = open_and_play_entries::<OnOff, StandardPile, Turn<'_, StandardPile>>(
        1,
        &mut memory,
        &mixed_turns(&CARD),
        &mut bytes,
        &mut [],
        &mut answers,
    );
    assert!(rt; matches!(refused, Err(Refusal::MemoryTooShort)));
    assert!(rt; answers.iter().all(|answer| is_line(answer, 0)));
    assert_eq!(rt; bytes.as_slice(), [b'.'; 318].as_slice());
    assert!(rt; memory.iter().all(|row| *row == T));
    Ok(())
}
