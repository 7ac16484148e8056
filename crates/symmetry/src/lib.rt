//! Which inputs of a table can change places, and the class of each.
#![tactic(auto)]

mod classes;
mod exchange;
mod published;

pub use classes::{classes_of, write_classes};
pub use exchange::are_symmetric;
pub use published::symmetry_is_classical;
