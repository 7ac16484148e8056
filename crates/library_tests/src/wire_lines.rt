use refusals::Refusal;
use std::process::Abort;
use std::test::Fail;
use wire_sheet::Sheet;

fn is_refused(rt: &impl Abort, line: &[u8], refusal: Refusal) {
    assert_eq!(rt; Sheet::read(line).err(), Some(refusal));
}

#[test]
fn lines_that_are_no_form(rt: HostRuntime) -> Result<(), Fail> {
    is_refused(&rt, b"(wire 12 (pins 3) (to 2 0 1))", Refusal::NotAForm);
    is_refused(&rt, b"(wire 12 (pins 3) (to 2 0 1))\n ", Refusal::NotAForm);
    is_refused(&rt, b"(wire 12 (pins 3) (to 02 0 1))\n", Refusal::NotAForm);
    is_refused(&rt, b"(wire 12 (pins 0) (to ))\n", Refusal::NotAForm);
    is_refused(&rt, b"(wire 123456 (pins 0) (to))\n", Refusal::NotAForm);
    is_refused(
        &rt,
        b"(wire 12 (pins 3) (to 123456 0 1))\n",
        Refusal::NotAForm,
    );
    is_refused(&rt, b"(part 12 (pins 0) (rows 1))\n", Refusal::NotAForm);
    Ok(())
}

#[test]
fn forms_that_are_no_sheet(rt: HostRuntime) -> Result<(), Fail> {
    is_refused(&rt, b"(wire 0 (pins 11) (to))\n", Refusal::NotAPartNumber);
    is_refused(
        &rt,
        b"(wire 10000 (pins 0) (to))\n",
        Refusal::NotAPartNumber,
    );
    is_refused(
        &rt,
        b"(wire 12 (pins 11) (to 0 0))\n",
        Refusal::TooManyInputs,
    );
    is_refused(&rt, b"(wire 12 (pins 3) (to))\n", Refusal::NotAWiring);
    is_refused(&rt, b"(wire 12 (pins 3) (to 2 0))\n", Refusal::NotAWiring);
    is_refused(&rt, b"(wire 12 (pins 3) (to 2 0 2))\n", Refusal::NotAWiring);
    is_refused(&rt, b"(wire 12 (pins 3) (to 2 0 3))\n", Refusal::NotAWiring);
    is_refused(
        &rt,
        b"(wire 12 (pins 3) (to 258 256 257))\n",
        Refusal::NotAWiring,
    );
    Ok(())
}

#[test]
fn two_hundred_pins(rt: HostRuntime) -> Result<(), Fail> {
    let mut line = [b'0'; 424];
    line[..21].copy_from_slice(b"(wire 12 (pins 3) (to");
    for i in 0..200 {
        line[21 + 2 * i] = b' ';
    }
    line[421..].copy_from_slice(b"))\n");
    is_refused(&rt, &line, Refusal::NotAWiring);
    Ok(())
}
