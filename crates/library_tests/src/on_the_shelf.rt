use crate::refused_values::refused;
use inventory::Shelf;
use rows::{Drive, Indistinct, OnOff, RowKind};
use runs::{Answer, Call, Grant, Question, open_and_play, play};
use signatures::{Cofactor, STANDARD_PILE, Signature};
use std::process::Abort;
use std::test::Fail;
use std::{array, slice};
use tables::Wiring;

const F: OnOff = OnOff::Off;

const T: OnOff = OnOff::On;

// What an answer says.
#[derive(Debug, PartialEq, Clone, Copy)]
enum Reported {
    Done,
    Fit(u32, Wiring, usize),
    Spread(u32),
    Refused(u8),
}

use Reported::{Done, Refused, Spread};

fn report(answer: Answer) -> Reported {
    match answer {
        Ok(Grant::Done) => Done,
        Ok(Grant::Proposed(fit)) => Reported::Fit(fit.number(), *fit.wiring(), fit.struck()),
        Ok(Grant::Spread(ways)) => Spread(ways),
        Err(refusal) => Refused(refusal.number()),
    }
}

/// The call that enters a part.
pub fn enter<'a, R, P>(number: u32, inputs: usize, rows: &'a [R]) -> Call<'a, R, P> {
    Call::Enter {
        number,
        inputs,
        rows,
    }
}

/// The call that drops a part.
pub fn remove<'a, R, P>(number: u32) -> Call<'a, R, P> {
    Call::Drop { number }
}

/// The call that fits a card.
pub fn fit<'a, R, P>(inputs: usize, card: &'a [R], pile: &'a P) -> Call<'a, R, P> {
    Call::Ask(Question::Fit { inputs, card, pile })
}

fn spread<'a, R, P>(number: u32, inputs: usize, card: &'a [R], pile: &'a P) -> Call<'a, R, P> {
    Call::Ask(Question::Spread {
        number,
        inputs,
        card,
        pile,
    })
}

fn fits(number: u32, pins: &[u8], struck: usize) -> Result<Reported, Fail> {
    Ok(Reported::Fit(number, Wiring::new(pins.len(), pins)?, struck))
}

// Makes each call, as a list of one, and looks at its answer.
fn check_calls<R: RowKind, P: Signature<R>>(
    rt: &impl Abort,
    shelf: &mut Shelf,
    memory: &mut [R],
    calls: &[(Call<'_, R, P>, Reported)],
) {
    for (call, due) in calls {
        let mut answers = [Ok(Grant::Done)];
        let played = play(shelf, memory, slice::from_ref(call), &mut answers);
        let [answer] = answers;
        assert_eq!(rt; report(played.and(answer)), *due);
    }
}

#[test]
fn lowest_part_and_its_wiring(rt: HostRuntime) -> Result<(), Fail> {
    let card = [F, F, T, T, F, T, F, T];
    let calls = [
        (enter(30, 3, &[F, F, F, T, T, F, T, T]), Done),
        (enter(12, 3, &card), Done),
        (fit(3, &card, &STANDARD_PILE), fits(12, &[0, 1, 2], 6)?),
        (remove(12), Done),
        (fit(3, &card, &STANDARD_PILE), fits(30, &[1, 2, 0], 6)?),
        (fit(2, &[F, T, T, T], &STANDARD_PILE), Refused(10)),
    ];
    check_calls(&rt, &mut Shelf::open(16)?, &mut [F; 16384], &calls);
    Ok(())
}

#[test]
fn one_slot_is_full_and_free_again(rt: HostRuntime) -> Result<(), Fail> {
    let mut shelf = Shelf::open(1)?;
    let mut memory = [T; 1024];
    let first = [(enter::<_, Cofactor>(7, 1, &[F, T]), Done)];
    check_calls(&rt, &mut shelf, &mut memory, &first);
    assert_eq!(rt; &memory[..3], [F, T, T].as_slice());
    let calls = [
        (enter::<_, Cofactor>(8, 1, &[T, F]), Refused(8)),
        (remove(7), Done),
        (remove(7), Refused(9)),
        (enter(8, 1, &[T, F]), Done),
    ];
    check_calls(&rt, &mut shelf, &mut memory, &calls);
    assert_eq!(rt; &memory[..3], [T, F, T].as_slice());
    Ok(())
}

#[test]
fn smaller_refusals_come_first(rt: HostRuntime) -> Result<(), Fail> {
    let mut shelf = Shelf::open(1)?;
    let mut memory = [F; 1024];
    let mut short = [F; 1023];
    let calls = [
        (enter::<_, Cofactor>(0, 11, &[F]), Refused(2)),
        (enter(10000, 1, &[F, T]), Refused(2)),
        (enter(9999, 11, &[F]), Refused(3)),
        (enter(9999, 2, &[F]), Refused(4)),
        (enter(9999, 0, &[F]), Done),
    ];
    check_calls(&rt, &mut shelf, &mut memory, &calls);
    assert_eq!(rt; refused(shelf.enter(&mut short, 0, 0, &[F])), Some(2));
    assert_eq!(rt; refused(shelf.enter(&mut short, 9999, 0, &[F])), Some(6));
    assert_eq!(rt; refused(shelf.enter(&mut memory, 9999, 0, &[F])), Some(7));
    assert_eq!(rt; refused(Shelf::open(0)), Some(6));
    assert_eq!(rt; refused(Shelf::open(65)), Some(6));
    Ok(())
}

#[test]
fn wrong_memory_and_nothing_is_done(rt: HostRuntime) -> Result<(), Fail> {
    let mut shelf = Shelf::open(1)?;
    let mut long = [F; 1025];
    let call = enter::<_, Cofactor>(1, 1, &[T, T]);
    check_calls(&rt, &mut shelf, &mut long, &[(call, Refused(6))]);
    assert!(rt; long[0] == F);
    check_calls(&rt, &mut shelf, &mut [F; 1024], &[(call, Done)]);
    Ok(())
}

#[test]
fn spread_counts_more_than_agree(rt: HostRuntime) -> Result<(), Fail> {
    let table = [F, F, F, T, F, F, F, T, F, F, F, T, T, T, T, T];
    let calls = [
        (spread(9, 4, &table, &Cofactor), Refused(9)),
        (enter(9, 4, &table), Done),
        (spread(9, 4, &table, &Cofactor), Spread(24)),
        (spread(9, 1, &[F, T], &Cofactor), Spread(0)),
    ];
    check_calls(&rt, &mut Shelf::open(64)?, &mut [F; 65536], &calls);
    Ok(())
}

// A part of two inputs is entered, asked for by two cards, dropped, and dropped again.
fn play_five_calls<R: RowKind>(
    rt: &impl Abort,
    slots: usize,
    memory: &mut [R],
    part: &[R],
    card: &[R],
    other: &[R],
    due: [Reported; 2],
) -> Result<(), Fail> {
    let calls = [
        enter(3, 2, part),
        fit(2, card, &Cofactor),
        fit(2, other, &Cofactor),
        remove(3),
        remove(3),
    ];
    let mut answers: [Answer; 5] = array::from_fn(|_| Ok(Grant::Done));
    let shelf = open_and_play(slots, memory, &calls, &mut answers)?;
    assert_eq!(rt; shelf.slots(), slots);
    assert_eq!(rt;
        answers.map(report),
        [Done, due[0], due[1], Done, Refused(9)]
    );
    Ok(())
}

#[test]
fn on_off_rows_on_one_slot(rt: HostRuntime) -> Result<(), Fail> {
    let (part, card, other) = ([F, F, T, F], [F, T, F, F], [F, F, F, T]);
    let due = [fits(3, &[1, 0], 2)?, Refused(10)];
    play_five_calls(&rt, 1, &mut [F; 1024], &part, &card, &other, due)
}

#[test]
fn drives_on_sixteen_slots(rt: HostRuntime) -> Result<(), Fail> {
    let (rest, still) = (Drive::new(0, 4)?, Drive::new(0, 99)?);
    let (left, longer) = (Drive::new(1, 4)?, Drive::new(1, 5)?);
    let part = [still, left, rest, rest];
    let (card, other) = ([rest, rest, left, still], [rest, rest, longer, rest]);
    let due = [fits(3, &[1, 0], 2)?, Refused(10)];
    play_five_calls(&rt, 16, &mut [rest; 16384], &part, &card, &other, due)
}

#[test]
fn indistinct_rows_on_sixty_four_slots(rt: HostRuntime) -> Result<(), Fail> {
    let (part, card) = ([1, 2, 3, 4].map(Indistinct), [Indistinct(5); 4]);
    let due = [fits(3, &[0, 1], 0)?; 2];
    let mut memory = [Indistinct(0); 65536];
    play_five_calls(&rt, 64, &mut memory, &part, &card, &part, due)
}
