//! What all programs share: whether one is asked for help, and how it ends.
#![tactic(auto)]

mod ending;
mod words;

pub use ending::ended;
pub use words::{asks_for_help, is_only};
