ghost use Rattle.std.specs.Prelude.{◌≡◌, ◌≤◌};
ghost use Rattle.trial.specs.Trials.{Found, Trial};

use crate::failed::{Failed, Fault};
use crate::tried::Tried;
use inventory::Proposal;
use rows::RowKind;
use tables::Wiring;

impl Tried {
    /// The number of the part.
    pub fn number(&self) -> u32
        ensures { result ≡ self.now.number }
    {
        self.number
    }

    /// From each card input to a pin.
    pub fn wiring(&self) -> &Wiring
        ensures { result.now ≡ self.now.wiring }
    {
        &self.wiring
    }
}

// What is wrong with the readings of a card of so many inputs.
fn fault_of<R: RowKind>(inputs: usize, rows: &[R], readings: &[R]) -> Option<Fault>
    requires { inputs ≤ 10 }
    ensures { Found R.RowKind.same inputs rows.now readings.now result }
{
    let count = 1usize << inputs;
    if rows.len() != count || readings.len() != count {
        return Some(Fault::Count);
    }
    rows.iter()
        .zip(readings)
        .position(|(row, reading)| !row.is_same(reading))
        .map(|row| Fault::Differs { row })
}

/// Tries a wiring on a sample that was wired by it: it passes where the reading of each row is the same as the card's
/// row.
pub fn try_wiring<R: RowKind>(
    proposal: Proposal,
    rows: &[R],
    readings: &[R],
) -> Result<Tried, Failed>
    ensures { Trial R.RowKind.same proposal rows.now readings.now result }
{
    match fault_of(proposal.wiring().inputs(), rows, readings) {
        Some(fault) => Err(Failed { proposal, fault }),
        None => Ok(Tried {
            number: proposal.number(),
            wiring: *proposal.wiring(),
        }),
    }
}
