ghost use Rattle.std.specs.Prelude.{length, IfOk, IfErr};
ghost use Rattle.rebuild.specs.Stocking.{AllStand, NotShown};

use crate::failure::Failure;
use crate::job::{Job, Stocked};
use crate::repair::Repair;
use crate::shown::Show;
use crate::trying::{Bench, Fit};
use signatures::STANDARD_PILE;
use std::io;
use std::io::Write;
use tables::Wiring;
use trial::Fault;

fn show_rows<R: Show>(rt: &HostRuntime, rows: &[R]) -> io::Result<()> {
    for (r, row) in rows.iter().enumerate() {
        if r > 0 {
            print!(rt; ", ")?;
        }
        print!(rt; "{}", row.shown())?;
    }
    println!(rt; "")
}

fn show_stock<R: Show>(rt: &HostRuntime, stock: &[Stocked<'_, R>]) -> io::Result<()> {
    println!(rt; "parts entered: {}", stock.len())?;
    for part in stock {
        print!(rt; "part {}, {} inputs: ", part.number, part.table.inputs)?;
        show_rows(rt, part.table.rows)?;
    }
    Ok(())
}

fn show_wiring(rt: &HostRuntime, wiring: &Wiring) -> io::Result<()> {
    for (input, pin) in wiring.pins().iter().enumerate() {
        println!(rt; "card input {input} -> pin {pin}")?;
    }
    Ok(())
}

fn show_fit(rt: &HostRuntime, fit: &Fit) -> io::Result<()> {
    println!(rt; "part {} fits", fit.number)?;
    println!(rt;
        "pairs of input and pin that signatures tell apart: {}",
        fit.struck
    )?;
    show_wiring(rt, &fit.wiring)
}

// What is wrong with the readings, if anything.
fn show_fault<R: Show>(rt: &HostRuntime, job: &Job<R>, fault: Option<Fault>) -> io::Result<()> {
    match fault {
        None => println!(rt; "each reading is the same as the card's row: the trial passes"),
        Some(Fault::Differs { row }) => {
            match (job.card.rows.get(row), job.readings.get(row)) {
                (Some(card), Some(reading)) => println!(rt;
                    "row {row}: the card has {}, the sample reads {}: the trial fails",
                    card.shown(),
                    reading.shown()
                ),
                _ => Ok(()),
            }
        }
        Some(Fault::Count) => println!(rt; "not as many readings as rows: the trial fails"),
    }
}

fn show_bench<R: Show>(rt: &HostRuntime, job: &Job<R>, bench: &Bench) -> io::Result<()> {
    show_fit(rt, &bench.fit)?;
    print!(rt; "readings of the wired sample: ")?;
    show_rows(rt, job.readings)?;
    show_fault(rt, job, bench.fault)?;
    let Some(printed) = &bench.sheet else {
        return println!(rt; "no sheet: the sample is to be wired anew");
    };
    if bench.fault.is_some() {
        println!(rt; "the sample is wired anew and read once more: the trial passes")?;
    }
    print!(rt; "the sheet: ")?;
    rt.stdout().write_all(printed.text())?;
    println!(rt; "read back: part {}", printed.read.number())?;
    show_wiring(rt, printed.read.wiring())
}

// Which inputs of the card may be exchanged.
fn show_classes(rt: &HostRuntime, classes: &[u8]) -> io::Result<()> {
    let mut alone = true;
    for (input, class) in classes.iter().enumerate() {
        if *class as usize != input {
            println!(rt; "card inputs {class} and {input} may be exchanged")?;
            alone = false;
        }
    }
    if alone {
        println!(rt; "no two inputs of the card may be exchanged")?;
    }
    Ok(())
}

/// One repair from beginning to end.
pub fn show_repair<R: Show>(rt: &HostRuntime, job: &Job<R>) -> Result<(), Failure>
    ensures stand { IfOk result (λ _. AllStand (length job.now.stock.now) job.now.stock.now) }
    ensures failed { IfErr result (NotShown job.now.stock.now) }
{
    let repair = Repair::of(rt.alloc(), &STANDARD_PILE, job)?;
    show_stock(rt, job.stock)?;
    print!(rt; "the burnt card, {} inputs: ", job.card.inputs)?;
    show_rows(rt, job.card.rows)?;
    match &repair.bench {
        Some(bench) => show_bench(rt, job, bench)?,
        None => println!(rt; "no part agrees with the card in every row")?,
    }
    show_classes(rt, &repair.classes[..job.card.inputs])?;
    Ok(())
}
