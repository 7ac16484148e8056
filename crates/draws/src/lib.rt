//! A generator of random numbers, rows and wirings that gives the same in each run.
#![tactic(auto)]

mod random;

pub use random::Random;
