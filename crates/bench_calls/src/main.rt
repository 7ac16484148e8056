//! Does one kind of call over and over with the tables of a file, for `bench/run` to time, and prints a sum of what came out.
#![tactic(auto)]

mod calls;
mod stock;

use anyhow::{Result, anyhow, bail};
use calls::{sum_of_fits, sum_of_lists, sum_of_wirings};
use programs::{asks_for_help, ended};
use std::env;
use std::process::ExitCode;
use stock::Stock;

const USAGE: &str = "usage: bench_calls WHAT TIMES

Reads part and card lines from standard input, does so many calls with their tables in turn, and prints a sum of what came
out. Drop lines are passed over.

  lists    the lists of a card under the standard pile
  search   the wiring of the first card and the first part, then of the second of each, .., with the standard pile
  bare     the same by the search alone, without signatures
  fit      a card is fitted to a shelf of all parts, 1 to 64
example: bench_calls fit 4 < crates/bench_calls/stdin";

fn measure(rt: &HostRuntime, what: &str, times: &str) -> Result<()> {
    let Ok(times) = times.parse() else {
        bail!("how often is a number; --help says more");
    };
    let stock = Stock::read(rt)?;
    let sum = match what {
        "lists" => sum_of_lists(&stock, times)?,
        "search" => sum_of_wirings(&stock, times, true)?,
        "bare" => sum_of_wirings(&stock, times, false)?,
        "fit" => sum_of_fits(rt.alloc(), &stock, times)?,
        _ => bail!("no call has this name; --help names them"),
    };
    println!(rt; "{what}: {times} times, sum {sum}")?;
    Ok(())
}

fn run(rt: &HostRuntime) -> Result<()> {
    let args: Vec<String> = env::args(rt)?.skip(1).collect(rt.alloc())?;
    match args.as_slice() {
        [what, times] => measure(rt, what.as_str(), times.as_str())?,
        args if asks_for_help(args) => println!(rt; "{USAGE}")?,
        _ => bail!("takes a call and how often; --help says more"),
    }
    Ok(())
}

fn main(rt: HostRuntime) -> ExitCode {
    let outcome = run(&rt).map_err(|error| anyhow!("bench_calls: {error}"));
    ended(&rt, outcome)
}
