//! One repair from stock to sheet.
#![tactic(auto)]

mod examples;
mod failure;
mod job;
mod printing;
mod repair;
mod request;
mod sample;
mod sheet;
mod shown;
mod sizing;
mod stocking;
mod trying;
mod typed;

use examples::{repair_of_drives, repair_of_on_off};
use failure::{Failure, Side};
use job::Job;
use printing::show_repair;
use programs::ended;
use request::{Request, USAGE};
use sizing::{sized, stocked};
use std::env;
use std::process::ExitCode;
use typed::Typed;

fn repair_typed(
    rt: &HostRuntime,
    card: &str,
    readings: &str,
    stock: &[String],
) -> Result<(), Failure> {
    let typed = Typed::of(rt.alloc(), card, readings, stock)?;
    let card = sized(Side::Card, typed.card.as_slice())?;
    let stock = stocked(rt.alloc(), typed.parts.as_slice())?;
    let job = Job {
        card,
        stock: stock.as_slice(),
        readings: typed.readings.as_slice(),
        mending: false,
    };
    show_repair(rt, &job)
}

fn run(rt: &HostRuntime) -> Result<(), Failure> {
    let args: Vec<String> = env::args(rt)?.skip(1).collect(rt.alloc())?;
    match Request::of(args.as_slice()) {
        Some(
            Request::Repair {
                card,
                readings,
                stock,
            },
        ) => repair_typed(rt, card, readings, stock)?,
        Some(Request::Examples) => {
            repair_of_on_off(rt)?;
            println!(rt; "")?;
            repair_of_drives(rt)?;
        }
        Some(Request::Help) => println!(rt; "{USAGE}")?,
        None => return Err(Failure::Usage),
    }
    Ok(())
}

fn main(rt: HostRuntime) -> ExitCode {
    ended(&rt, run(&rt))
}
