//! Rows of on and off read from digits.
#![tactic(auto)]

mod inputs;
mod reading;
mod rows_error;
mod size;
mod sizing;

pub use reading::{copy_rows, rows_from};
pub use rows_error::RowsError;
pub use size::Size;
pub use sizing::table_of;
