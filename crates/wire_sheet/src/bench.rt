ghost use Rattle.wire_sheet.specs.Sheets.{Benched, stop_refusal};
ghost use Rattle.std.specs.Prelude.{◌≡◌};
ghost use Rattle.wire_sheet.specs.declared.bench.Stopped.TheVariants as stopped;

use crate::printing::{TooShort, print_sheet};
use inventory::Proposal;
use refusals::Refusal;
use rows::RowKind;
use trial::{Failed, try_wiring};

/// Why no sheet was printed. What there was to print is handed back.
#[derive(Drop)]
pub enum Stopped {
    Failed(Failed),
    TooShort(TooShort),
}

impl Stopped {
    /// The refusal that stopped it.
    pub fn refusal(&self) -> Refusal
        ensures { result ≡ stop_refusal self.now }
    {
        match self {
            Stopped::Failed(failed) => failed.fault.refusal(),
            Stopped::TooShort(short) => short.refusal(),
        }
    }
}

impl From<Failed> for Stopped {
    ghost from_gives = { λ failed stop. stop ≡ stopped.Failed failed };

    fn from(failed: Failed) -> Stopped {
        Stopped::Failed(failed)
    }
}

impl From<TooShort> for Stopped {
    ghost from_gives = { λ short stop. stop ≡ stopped.TooShort short };

    fn from(short: TooShort) -> Stopped {
        Stopped::TooShort(short)
    }
}

/// Tries a proposal on a wired sample, and prints its sheet if it passes: one trial, and one sheet.
pub fn try_and_print<R: RowKind>(
    proposal: Proposal,
    rows: &[R],
    readings: &[R],
    memory: &mut [u8],
) -> Result<usize, Stopped>
    ensures { Benched R.RowKind.same proposal rows.now readings.now memory.old result memory.new }
{
    let tried = try_wiring(proposal, rows, readings)?;
    let size = print_sheet(tried, memory)?;
    Ok(size)
}
