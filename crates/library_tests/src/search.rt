use matching::{Strikes, first_wiring};
use rows::{Drive, Indistinct, OnOff};
use std::process::Abort;
use std::test::Fail;
use tables::{Table, Wiring, agrees};

const F: OnOff = OnOff::Off;

const T: OnOff = OnOff::On;

#[test]
fn on_off_rows_have_one_wiring(rt: HostRuntime) -> Result<(), Fail> {
    let card = Table::new(3, &[F, F, T, T, F, T, F, T])?;
    let part = Table::new(3, &[F, F, F, T, T, F, T, T])?;
    let wiring = Wiring::new(3, &[1, 2, 0])?;
    let mut strikes = Strikes::none();
    assert_eq!(rt; first_wiring(&card, &part, &strikes), Some(wiring));
    assert!(rt; agrees(&card, &part, &wiring));
    let back = wiring.inverse();
    assert_eq!(rt; back, Wiring::new(3, &[2, 0, 1])?);
    assert!(rt; !agrees(&card, &part, &back));
    strikes.strike(2, 1);
    assert_eq!(rt; first_wiring(&card, &part, &strikes), Some(wiring));
    strikes.strike(1, 2);
    assert_eq!(rt; first_wiring(&card, &part, &strikes), None);
    Ok(())
}

#[test]
fn a_struck_pair_is_kept_to(rt: HostRuntime) -> Result<(), Fail> {
    let table = Table::new(2, &[F, F, F, T])?;
    let mut strikes = Strikes::none();
    assert_eq!(rt;
        first_wiring(&table, &table, &strikes),
        Some(Wiring::new(2, &[0, 1])?)
    );
    strikes.strike(0, 0);
    assert_eq!(rt;
        first_wiring(&table, &table, &strikes),
        Some(Wiring::new(2, &[1, 0])?)
    );
    Ok(())
}

#[test]
fn few_inputs(rt: HostRuntime) -> Result<(), Fail> {
    let strikes = Strikes::none();
    let off = Table::new(0, &[F])?;
    let on = Table::new(0, &[T])?;
    let rising = Table::new(1, &[F, T])?;
    let falling = Table::new(1, &[T, F])?;
    assert_eq!(rt;
        first_wiring(&on, &on, &strikes),
        Some(Wiring::new(0, &[])?)
    );
    assert_eq!(rt; first_wiring(&on, &off, &strikes), None);
    assert_eq!(rt; first_wiring(&rising, &falling, &strikes), None);
    assert_eq!(rt; first_wiring(&on, &falling, &strikes), None);
    Ok(())
}

#[test]
fn drives_agree_up_to_the_holds_of_rests(rt: HostRuntime) -> Result<(), Fail> {
    let (rest, longer_rest) = (Drive::new(0, 4)?, Drive::new(0, 9)?);
    let (left, longer_left) = (Drive::new(1, 7)?, Drive::new(1, 8)?);
    let straight = Wiring::new(1, &[0])?;
    let rows = [rest, left];
    let card = Table::new(1, &rows)?;
    let rows = [longer_rest, left];
    let part = Table::new(1, &rows)?;
    assert!(rt; agrees(&card, &part, &straight));
    assert_eq!(rt;
        first_wiring(&card, &part, &Strikes::none()),
        Some(straight)
    );
    let rows = [left, longer_left];
    let card = Table::new(1, &rows)?;
    let rows = [longer_left, left];
    let part = Table::new(1, &rows)?;
    assert!(rt; !agrees(&card, &part, &straight));
    assert_eq!(rt; first_wiring(&card, &part, &Strikes::none()), None);
    Ok(())
}

#[test]
fn indistinct_rows_take_the_first_wiring(rt: HostRuntime) -> Result<(), Fail> {
    let rows = [1, 2, 3, 4].map(Indistinct);
    let card = Table::new(2, &rows)?;
    let rows = [9, 8, 8, 7].map(Indistinct);
    let part = Table::new(2, &rows)?;
    assert!(rt; agrees(&card, &part, &Wiring::new(2, &[1, 0])?));
    let first = first_wiring(&card, &part, &Strikes::none());
    assert_eq!(rt; first, Some(Wiring::new(2, &[0, 1])?));
    Ok(())
}

#[test]
fn ten_inputs(rt: HostRuntime) -> Result<(), Fail> {
    let wiring = Wiring::new(10, &[3, 1, 4, 0, 5, 9, 2, 6, 8, 7])?;
    let mut card = [F; 1024];
    card[683..].fill(T);
    let mut part = [F; 1024];
    for (r, row) in card.iter().enumerate() {
        let q = wiring.carry(r);
        assert!(rt; q < 1024);
        part[q] = *row;
    }
    let card = Table::new(10, &card)?;
    let part = Table::new(10, &part)?;
    assert!(rt; agrees(&card, &part, &wiring));
    // The part's pins 1 and 3 may be exchanged, and the lower comes first.
    let first = first_wiring(&card, &part, &Strikes::none());
    assert_eq!(rt;
        first,
        Some(Wiring::new(10, &[1, 3, 4, 0, 5, 9, 2, 6, 8, 7])?)
    );
    Ok(())
}
