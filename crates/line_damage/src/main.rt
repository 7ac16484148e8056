//! Hands damaged lines to a shelf. Fails at an answer of no form, and when a line not answered with `(ok)` changes the shelf.
#![tactic(auto)]

mod fixture;
mod lines;

use draws::Random;
use fixture::{Fixture, names_part, refused_with};
use lines::damaged_line;
use programs::ended;
use std::env;
use std::io::{self, ErrorKind};
use std::process::ExitCode;

fn feed(rt: &HostRuntime, seed: u32, count: u32) -> io::Result<()> {
    let mut random = Random(seed);
    let mut fixture = Fixture::new();
    let state = fixture.state(rt.alloc())?;
    let mut refused = 0u32;
    for _ in 0..count {
        let line = damaged_line(rt.alloc(), &mut random)?;
        let mut buffer = [0; 64];
        let answer = fixture.answer(line.as_slice(), &mut buffer);
        let is_refusal = refused_with(answer).is_some();
        let is_known = is_refusal || names_part(answer) == Some(true);
        refused = refused.saturating_add(is_refusal.into());
        if answer == "(ok)\n" {
            fixture = Fixture::new();
        } else if !is_known || fixture.state(rt.alloc())? != state {
            eprintln!(rt; "wrong answer, or changed shelf: {}", line.escape_ascii())?;
            return Err(ErrorKind::InvalidData.into());
        }
    }
    let answered = count.saturating_sub(refused);
    println!(rt; "damaged lines: {answered} answered, {refused} refused")
}

fn run(rt: &HostRuntime) -> io::Result<()> {
    let args: Vec<String> = env::args(rt)?.skip(1).collect(rt.alloc())?;
    if let [seed, count] = args.as_slice()
        && let (Ok(seed), Ok(count)) = (seed.parse(), count.parse())
    {
        return feed(rt, seed, count);
    }
    eprintln!(rt; "usage: line_damage SEED COUNT")?;
    Err(ErrorKind::InvalidInput.into())
}

fn main(rt: HostRuntime) -> ExitCode {
    ended(&rt, run(&rt))
}
