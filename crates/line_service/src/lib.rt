//! A conversation: the lines of a peer are answered until its input ends.
#![tactic(auto)]

mod answering;
mod begun;
mod hearing;
mod in_memory;
mod peer;
mod reading;
mod service_error;
mod serving;
mod streams;
mod transcript;
mod writing;

pub use in_memory::answers_to;
pub use peer::Peer;
pub use service_error::ServiceError;
pub use serving::{long_lines_are_no_form, serve};
pub use streams::Streams;
