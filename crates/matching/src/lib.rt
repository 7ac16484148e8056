//! The search for the first wiring under which a card and a part agree and which uses no struck pair.
#![tactic(auto)]

mod exchanging;
mod search;
mod sharing;
mod strikes;

pub use search::{first_wiring, first_wiring_by_sums};
pub use strikes::Strikes;
