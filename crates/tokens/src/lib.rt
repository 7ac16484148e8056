//! A line's signs, words, numbers and rows, each a part of the line that knows where it starts.
#![tactic(auto)]

mod characters;
mod cursor;
mod numerals;
mod token;

pub use cursor::Cursor;
pub use token::{Sign, Token, Word};
