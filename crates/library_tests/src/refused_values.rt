use refusals::Refusal;
use rows::{Direction, Drive, OnOff};
use std::process::Abort;
use std::test::Fail;
use tables::{Table, Wiring};

const OFF: OnOff = OnOff::Off;

/// The number of the refusal, if there is one.
pub fn refused<T: Drop>(res: Result<T, Refusal>) -> Option<u8> {
    res.err().map(Refusal::number)
}

#[test]
fn drives_and_tables_are_refused(rt: HostRuntime) -> Result<(), Fail> {
    assert_eq!(rt; refused(Drive::new(2, 100)), Some(5));
    assert_eq!(rt; refused(Drive::new(3, 0)), Some(5));
    let longest = Drive::new(2, 99)?;
    assert_eq!(rt; longest.direction, Direction::Right);
    assert_eq!(rt; longest.hold, 99);
    assert_eq!(rt; refused(Table::check(11, &[OFF; 3])), Some(3));
    assert_eq!(rt; refused(Table::check(2, &[OFF; 3])), Some(4));
    assert_eq!(rt; refused(Table::check(2, &[OFF; 4])), None);
    Ok(())
}

#[test]
fn wirings_are_refused(rt: HostRuntime) -> Result<(), Fail> {
    assert_eq!(rt; refused(Wiring::new(2, &[0, 0])), Some(14));
    assert_eq!(rt; refused(Wiring::new(2, &[0, 2])), Some(14));
    assert_eq!(rt; refused(Wiring::new(2, &[1, 0, 1])), Some(14));
    assert_eq!(rt; refused(Wiring::new(2, &[1])), Some(14));
    let eleven = Wiring::new(11, &[0, 1, 2, 3, 4, 5, 6, 7, 8, 9, 10]);
    assert_eq!(rt; refused(eleven), Some(3));
    let low = Wiring::new(3, &[0, 2, 1])?;
    let high = Wiring::new(3, &[2, 0, 1])?;
    assert!(rt; low.comes_before(&high));
    assert!(rt; !high.comes_before(&low));
    assert!(rt; !low.comes_before(&low));
    Ok(())
}
