use inventory::Proposal;
use refusals::Refusal;

/// What a call that is not refused is answered: entering and dropping are done, fit proposes, and spread is a number.
#[derive(Drop)]
pub enum Grant {
    Done,
    Proposed(Proposal),
    Spread(u32),
}

/// What a call is answered: what it is granted, or why it is refused.
pub type Answer = Result<Grant, Refusal>;
