//! A matcher that tries every wiring of at most six inputs. It shares no code with the library that it is compared with.
#![tactic(auto)]

mod agreement;
mod wirings;

pub use wirings::Wirings;
