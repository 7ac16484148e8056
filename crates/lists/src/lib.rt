//! The lists that signatures give to a table's inputs: which pairs they strike, how many, and the spread.
#![tactic(auto)]

mod lists;
mod spreading;
mod striking;

pub use lists::Lists;
pub use spreading::spread;
pub use striking::{strikes, struck_count};
