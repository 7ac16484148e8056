//! Compares what the library answers with a matcher that tries every wiring: for all pairs of small tables, and for larger
//! tables that are drawn.
#![tactic(auto)]

ghost use Rattle.std.specs.Prelude.{◌≤◌};

mod comparison;
mod drawing;
mod kind;

use comparison::{Comparison, Totals};
use drawing::Style;
use draws::Random;
use every_wiring::Wirings;
use kind::{Kind, Level};
use programs::ended;
use rows::{Drive, Indistinct, OnOff};
use std::io::{ErrorKind, Result};
use std::process::ExitCode;
use std::{env, slice};

// All tables of up to three inputs that are made of the first few rows of their kind, those of three inputs of two, and
// shelves of these tables. Then cards of four to six inputs that are drawn, each with eight parts.
fn compare<R: Kind>(comparison: &mut Comparison, few: usize, rounds: u32) -> Result<()> {
    let rt = comparison.rt;
    let mut tables: Vec<Vec<R>> = Vec::new(rt.alloc());
    for (size, few) in [(1, few), (2, few), (4, few), (8, 2)] {
        for number in 0..few.saturating_pow(size) {
            let digit = |row: u32| number / few.saturating_pow(row).max(1) % few.max(1);
            let rows = (0..size).map(|row| R::row(digit(row)));
            tables.push(rows.collect(rt.alloc())?)?;
        }
    }
    for k in 0..tables.len() {
        let other = comparison.random.below(tables.len());
        tables.swap(k, other);
    }
    for parts in tables.chunks(60) {
        comparison.shelf(parts, tables.as_slice())?;
    }
    for _ in 0..rounds {
        for n in 4..7 {
            compare_drawn::<R>(comparison, Style::Plain, n)?;
            compare_drawn::<R>(comparison, Style::Symmetric, n)?;
            compare_drawn::<R>(comparison, Style::Ring, n)?;
        }
    }
    Ok(())
}

fn compare_drawn<R: Kind>(comparison: &mut Comparison, style: Style, n: usize) -> Result<()>
    requires some { 1 ≤ n }
    requires few { n ≤ 6 }
{
    let (rt, random) = (comparison.rt, &mut comparison.random);
    let mut parts = Vec::new(rt.alloc());
    let card: Vec<R> = style.card(rt, n, random)?;
    for _ in 0..8 {
        let mut part = card.clone()?;
        style.wire(n, card.as_slice(), part.as_mut_slice(), random);
        parts.push(part)?;
    }
    comparison.shelf(parts.as_slice(), slice::from_ref(&card))
}

fn run(rt: &HostRuntime) -> Result<()> {
    let args: Vec<String> = env::args(rt)?.skip(1).collect(rt.alloc())?;
    let rounds = match args.first() {
        Some(word) => word.parse::<u32>().ok().ok_or(ErrorKind::InvalidInput)?,
        None => 100,
    };
    let mut wirings = Vec::new(rt.alloc());
    for inputs in 0..7 {
        wirings.push(Wirings::new(rt.alloc(), inputs)?)?;
    }
    let (wirings, random, totals) = (wirings.as_slice(), Random(1), Totals::default());
    let mut comparison = Comparison {
        rt,
        wirings,
        random,
        totals,
    };
    compare::<OnOff>(&mut comparison, 2, rounds)?;
    compare::<Drive>(&mut comparison, 4, rounds)?;
    compare::<Level>(&mut comparison, 4, rounds)?;
    compare::<Indistinct>(&mut comparison, 2, rounds)?;
    let totals = comparison.totals;
    println!(rt; "{totals:#?}")?;
    if totals.differences > 0 {
        return Err(ErrorKind::InvalidData.into());
    }
    Ok(())
}

fn main(rt: HostRuntime) -> ExitCode {
    ended(&rt, run(&rt))
}
