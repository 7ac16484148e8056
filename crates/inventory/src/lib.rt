//! The shelf: parts that are entered, dropped and fitted to cards, in row memory that the caller keeps.
#![tactic(auto)]

mod label;
mod part_number;
mod proposal;
mod row_store;
mod shelf;

pub use part_number::check_number;
pub use proposal::Proposal;
pub use shelf::Shelf;
