//! The three forms of a shelf's line, read exactly.
#![tactic(auto)]

mod form;
mod one_form;
mod reading;

pub use form::Form;
pub use one_form::lines_say_one_thing;
