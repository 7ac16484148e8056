use answers::{Reply, answer_text};
use inventory::Shelf;
use refusals::Refusal;
use rows::OnOff;
use signatures::STANDARD_PILE;
use std::process::Abort;
use std::test::Fail;

const F: OnOff = OnOff::Off;

const T: OnOff = OnOff::On;

fn is_answered(rt: &impl Abort, answer: Result<Reply, Refusal>, text: &[u8]) {
    assert_eq!(rt; answer_text(&answer).as_bytes(), text);
}

// Fits a card to one part that stands.
fn fitted(number: u32, inputs: usize, card: &[OnOff], part: &[OnOff]) -> Result<Reply, Refusal> {
    let mut shelf = Shelf::open(1)?;
    let mut memory = [F; 1024];
    shelf.enter(&mut memory, number, inputs, part)?;
    shelf
        .fit(&memory, inputs, card, &STANDARD_PILE)
        .map(Reply::Fit)
}

#[test]
fn answers_to_the_byte(rt: HostRuntime) -> Result<(), Fail> {
    let card = [F, F, T, T, F, T, F, T];
    let part = [F, F, F, T, T, F, T, T];
    is_answered(&rt, Ok(Reply::Done), b"(ok)\n");
    is_answered(&rt, Err(Refusal::NumberStands), b"(no 7)\n");
    is_answered(&rt, fitted(30, 1, &[F, T], &[T, F]), b"(no 10)\n");
    is_answered(
        &rt,
        fitted(30, 3, &card, &part),
        b"(fit 30 (to 1 2 0) (struck 6))\n",
    );
    is_answered(
        &rt,
        fitted(9999, 0, &[T], &[T]),
        b"(fit 9999 (to) (struck 0))\n",
    );
    Ok(())
}
