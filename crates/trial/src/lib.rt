//! A proposal compared with the readings of a wired sample.
#![tactic(auto)]

mod failed;
mod tried;

pub use failed::{Failed, Fault};
pub use tried::{Tried, try_wiring};
