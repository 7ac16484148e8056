//! What a pile of signatures tells apart of a card and a part, and the first wiring found with its strikes.
#![tactic(auto)]

mod pruning;
mod wiring;

pub use pruning::{spread_by, strikes_by, struck_by};
pub use wiring::wiring_by;
