ghost use Rattle.std.specs.Prelude.{◌≡◌, ◌≢◌, Contains, All, IfOk, IfErr, IfSome, IfNone};
ghost use Rattle.rebuild.specs.Trying.{Serves, OutOfMemory, Benched, Fitted};

use crate::failure::Failure;
use crate::job::{Job, Stocked};
use crate::sample::readings_of;
use crate::sheet::Printed;
use inventory::Proposal;
use rows::RowKind;
use std::alloc::Global;
use tables::Wiring;
use trial::{Fault, Tried, try_wiring};

// The part of this number.
fn part_of<'a, 'b, R>(stock: &'a [Stocked<'b, R>], number: u32) -> Option<&'a Stocked<'b, R>>
    ensures found { IfSome result (λ part. Contains stock.now part.now × (part.now.number ≡ number)) }
    ensures none { IfNone result (All (λ part. part.number ≢ number) stock.now) }
{
    stock.iter().find(|part| part.number == number)
}

// Tries a wiring on a sample that is wired by it: where the part agrees with the card, this passes.
fn try_wired<R: RowKind>(heap: Global, proposal: Proposal, job: &Job<R>) -> Result<Tried, Failure>
    requires { Serves R.RowKind.same job.now.card job.now.stock.now proposal }
    ensures passes { IfOk result (λ tried. (tried.number ≡ proposal.number) × (tried.wiring ≡ proposal.wiring)) }
    ensures failed { IfErr result OutOfMemory }
{
    let Some(part) = part_of(job.stock, proposal.number()) else {
        unreachable!()
    };
    let readings = readings_of(heap, &part.table, proposal.wiring())?;
    let Ok(tried) = try_wiring(proposal, job.card.rows, readings.as_slice()) else {
        unreachable!()
    };
    Ok(tried)
}

/// What fit proposed.
#[derive(Clone, Copy)]
pub struct Fit {
    pub number: u32,
    pub wiring: Wiring,
    pub struck: usize,
}

/// What came of a fit at the bench: what was wrong with the readings, if anything, and the sheet, if a trial passed.
#[derive(Clone, Copy)]
pub struct Bench {
    pub fit: Fit,
    pub fault: Option<Fault>,
    pub sheet: Option<Printed>,
}

fn fit_of(proposal: &Proposal) -> Fit
    ensures { Fitted proposal.now result }
{
    Fit {
        number: proposal.number(),
        wiring: *proposal.wiring(),
        struck: proposal.struck(),
    }
}

/// Tries a proposal by the readings of the job, and where it fails and the sample is to be mended, once more.
pub fn try_fit<R: RowKind>(heap: Global, proposal: Proposal, job: &Job<R>) -> Result<Bench, Failure>
    requires { Serves R.RowKind.same job.now.card job.now.stock.now proposal }
    ensures benched { IfOk result (Benched R.RowKind.same job.now proposal) }
    ensures failed { IfErr result OutOfMemory }
{
    let fit = fit_of(&proposal);
    let failed = match try_wiring(proposal, job.card.rows, job.readings) {
        Ok(tried) => {
            return Ok(Bench {
                fit,
                fault: None,
                sheet: Some(Printed::of(tried)),
            });
        }
        Err(failed) => failed,
    };
    let fault = Some(failed.fault);
    if !job.mending {
        return Ok(Bench {
            fit,
            fault,
            sheet: None,
        });
    }
    let tried = try_wired(heap, failed.proposal, job)?;
    Ok(Bench {
        fit,
        fault,
        sheet: Some(Printed::of(tried)),
    })
}
