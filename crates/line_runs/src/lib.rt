//! Lists of calls in which lines stand.
#![tactic(auto)]

mod fixed;
mod turn;

pub use fixed::law_fixes_lines;
pub use turn::{Turn, TurnAnswer};
