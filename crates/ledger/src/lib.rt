//! Which parts should be on a shelf after a list of calls, and what each call is to be answered: the law of runs.
#![tactic(auto)]

mod fixed;

pub use fixed::law_fixes_answers;
