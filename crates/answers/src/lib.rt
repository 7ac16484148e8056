//! The text of an answer to a line, to the byte.
#![tactic(auto)]

mod reply;
mod spelling;

pub use reply::Reply;
pub use spelling::answer_text;
