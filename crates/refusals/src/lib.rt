//! The refusals, each with its number and its text.
#![tactic(auto)]

mod refusal;

pub use refusal::Refusal;
