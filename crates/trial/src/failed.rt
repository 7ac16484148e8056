ghost use Rattle.std.specs.Prelude.{◌≡◌};

use inventory::Proposal;
use refusals::Refusal;

/// What a trial found wrong.
#[derive(Clone, Copy, PartialEq, Eq, Debug)]
pub enum Fault {
    /// Rows or readings are not 2^n in number.
    Count,
    /// This is the first row whose reading is another.
    Differs { row: usize },
}

impl Fault {
    ghost use Rattle.trial.specs.Trials.{refusal_of};

    /// The refusal of a trial that failed so.
    pub fn refusal(self) -> Refusal
        ensures { result ≡ refusal_of self }
    {
        match self {
            Fault::Count => Refusal::WrongTrialCount,
            Fault::Differs { .. } => Refusal::ReadingDiffers,
        }
    }
}

/// A trial that was refused. The proposal is as it was, and may be tried again.
#[derive(Drop)]
pub struct Failed {
    pub proposal: Proposal,
    pub fault: Fault,
}
