//! A text of at most 64 bytes, put together without allocating.
#![tactic(auto)]

mod text;

pub use text::Text;
