use rows::OnOff;
use std::test::Fail;
use typed_rows::rows_from;

#[test]
fn digits_are_rows_and_other_text_is_none(rt: HostRuntime) -> Result<(), Fail> {
    let Ok(rows) = rows_from(rt.alloc(), "0110") else {
        return Err(Fail::new("no rows"));
    };
    assert_eq!(rt;
        rows.as_slice(),
        [OnOff::Off, OnOff::On, OnOff::On, OnOff::Off].as_slice()
    );
    assert!(rt; rows_from(rt.alloc(), "01 0").is_err());
    Ok(())
}
