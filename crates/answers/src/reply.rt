use inventory::Proposal;

/// What a line that is not refused is answered: entering and dropping are done, and fitting a card proposes a part.
#[derive(Drop)]
pub enum Reply {
    Done,
    Fit(Proposal),
}
