//! The line call: a line is read, does what it asks for and is answered.
#![tactic(auto)]

mod answering;
mod obeying;

pub use answering::answer_line;
