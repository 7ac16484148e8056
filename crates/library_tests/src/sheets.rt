use inventory::{Proposal, Shelf};
use refusals::Refusal;
use rows::OnOff;
use signatures::STANDARD_PILE;
use std::test::Fail;
use trial::Fault;
use wire_sheet::{Sheet, Stopped, print_sheet, try_and_print};

const F: OnOff = OnOff::Off;

const T: OnOff = OnOff::On;

const CARD: [OnOff; 8] = [F, F, T, F, F, F, T, T];

const PART: [OnOff; 8] = [F, T, F, T, F, F, F, T];

const SHEET: &[u8] = b"(wire 12 (pins 3) (to 2 0 1))\n";

// What fit proposes for a card, of one part that stands.
fn proposed(
    number: u32,
    inputs: usize,
    card: &[OnOff],
    part: &[OnOff],
) -> Result<Proposal, Refusal> {
    let mut shelf = Shelf::open(1)?;
    let mut memory = [F; 1024];
    shelf.enter(&mut memory, number, inputs, part)?;
    shelf.fit(&memory, inputs, card, &STANDARD_PILE)
}

#[test]
fn sheet_to_the_byte(rt: HostRuntime) -> Result<(), Fail> {
    let Ok(proposal) = proposed(12, 3, &CARD, &PART) else {
        return Err(Fail::new("no part"));
    };
    let mut memory = [b'.'; 32];
    let Ok(size) = try_and_print(proposal, &CARD, &CARD, &mut memory) else {
        return Err(Fail::new("no sheet"));
    };
    assert_eq!(rt; size, 30);
    assert_eq!(rt;
        memory.as_slice(),
        b"(wire 12 (pins 3) (to 2 0 1))\n..".as_slice()
    );
    let Ok(sheet) = Sheet::read(&memory[..size]) else {
        return Err(Fail::new("no sheet is read"));
    };
    assert_eq!(rt; sheet.number(), 12);
    assert_eq!(rt; sheet.wiring().pins(), [2, 0, 1].as_slice());
    Ok(())
}

#[test]
fn what_is_handed_back_is_tried_and_printed_again(rt: HostRuntime) -> Result<(), Fail> {
    let Ok(proposal) = proposed(12, 3, &CARD, &PART) else {
        return Err(Fail::new("no part"));
    };
    let mut readings = CARD;
    readings[5] = T;
    let mut memory = [b'.'; 30];
    let Err(Stopped::Failed(failed)) = try_and_print(proposal, &CARD, &readings, &mut memory) else {
        return Err(Fail::new("the trial passes"));
    };
    assert_eq!(rt; failed.fault, Fault::Differs { row: 5 });
    assert_eq!(rt; memory[0], b'.');
    let Err(Stopped::TooShort(short)) = try_and_print(
        failed.proposal,
        &CARD,
        &CARD,
        &mut memory[..29],
    ) else {
        return Err(Fail::new("29 bytes are enough"));
    };
    assert_eq!(rt; memory[0], b'.');
    assert!(rt; print_sheet(short.tried, &mut memory).is_ok());
    assert_eq!(rt; memory.as_slice(), SHEET);
    Ok(())
}

#[test]
fn sheet_with_no_inputs(rt: HostRuntime) -> Result<(), Fail> {
    let Ok(proposal) = proposed(9999, 0, &[T], &[T]) else {
        return Err(Fail::new("no part"));
    };
    let mut memory = [b'.'; 28];
    assert!(rt; try_and_print(proposal, &[T], &[T], &mut memory).is_ok());
    assert_eq!(rt;
        memory.as_slice(),
        b"(wire 9999 (pins 0) (to))\n..".as_slice()
    );
    Ok(())
}
