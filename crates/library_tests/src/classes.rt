use refusals::Refusal;
use rows::{Drive, OnOff, RowKind};
use std::process::Abort;
use std::test::Fail;
use symmetry::write_classes;

const OFF: OnOff = OnOff::Off;

const ON: OnOff = OnOff::On;

// The classes of a table in memory of twelve bytes of 7.
fn written<R: RowKind>(
    rt: &impl Abort,
    inputs: usize,
    rows: &[R],
    classes: &[u8],
) -> Result<(), Fail> {
    let mut memory = [7; 12];
    write_classes(inputs, rows, &mut memory)?;
    assert_eq!(rt; &memory[..inputs], classes);
    assert!(rt; memory[inputs..10].iter().all(|class| *class == 255));
    assert_eq!(rt; &memory[10..], [7, 7].as_slice());
    Ok(())
}

#[test]
fn inputs_that_can_be_exchanged_are_of_one_class(rt: HostRuntime) -> Result<(), Fail> {
    written(&rt, 3, &[OFF, OFF, OFF, ON, OFF, ON, ON, ON], &[0, 0, 0])?;
    written(&rt, 3, &[OFF, OFF, OFF, OFF, OFF, ON, ON, ON], &[0, 0, 2])?;
    written(&rt, 2, &[OFF, ON, OFF, ON], &[0, 1])?;
    written(&rt, 0, &[ON], &[])
}

#[test]
fn rests_are_the_same_whatever_their_holds(rt: HostRuntime) -> Result<(), Fail> {
    let left = Drive::new(1, 5)?;
    written(
        &rt,
        2,
        &[left, Drive::new(0, 3)?, Drive::new(0, 70)?, left],
        &[0, 0],
    )?;
    written(
        &rt,
        2,
        &[left, Drive::new(1, 3)?, Drive::new(1, 70)?, left],
        &[0, 1],
    )
}

#[test]
fn a_refusal_writes_nothing(rt: HostRuntime) -> Result<(), Fail> {
    let mut memory = [7; 9];
    assert_eq!(rt;
        write_classes(11, &[OFF], &mut memory),
        Err(Refusal::TooManyInputs)
    );
    assert_eq!(rt;
        write_classes(1, &[OFF], &mut memory),
        Err(Refusal::WrongRowCount)
    );
    assert_eq!(rt;
        write_classes(0, &[OFF], &mut memory),
        Err(Refusal::MemoryTooShort)
    );
    assert_eq!(rt; memory, [7; 9]);
    Ok(())
}
