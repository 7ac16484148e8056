//! One card against one part: their sizes, what signatures tell apart, and the first wiring.
#![tactic(auto)]

mod comparison;
mod failure;
mod request;
mod typed;

use comparison::Comparison;
use failure::Failure;
use programs::ended;
use request::{Request, USAGE};
use signatures::STANDARD_PILE;
use std::process::ExitCode;
use std::{env, io};
use tables::Wiring;

fn show_wiring(rt: &HostRuntime, wiring: &Wiring) -> io::Result<()> {
    println!(rt; "the first wiring that agrees in every row:")?;
    for (input, pin) in wiring.pins().iter().enumerate() {
        println!(rt; "card input {input} -> pin {pin}")?;
    }
    Ok(())
}

fn show(rt: &HostRuntime, found: &Comparison) -> io::Result<()> {
    println!(rt; "card: {}", found.card)?;
    println!(rt; "part: {}", found.part)?;
    println!(rt;
        "pairs of input and pin that signatures tell apart: {}; spread: {}",
        found.struck, found.spread
    )?;
    match &found.wiring {
        Some(wiring) => show_wiring(rt, wiring),
        None => println!(rt; "no wiring agrees in every row"),
    }
}

fn run(rt: &HostRuntime) -> Result<(), Failure> {
    let args: Vec<String> = env::args(rt)?.skip(1).collect(rt.alloc())?;
    match Request::of(args.as_slice()) {
        Some(Request::Match { card, part }) => {
            let found = Comparison::of_typed(rt.alloc(), &STANDARD_PILE, card, part)?;
            show(rt, &found)?;
        }
        Some(Request::Help) => println!(rt; "{USAGE}")?,
        None => return Err(Failure::Usage),
    }
    Ok(())
}

fn main(rt: HostRuntime) -> ExitCode {
    ended(&rt, run(&rt))
}
