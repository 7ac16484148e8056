//! What a row may hold: the trait of row kinds with its laws, on/off rows, drives, and rows that are all the same.
#![tactic(auto)]

mod drive;
mod indistinct;
mod on_off;
mod row_kind;

pub use drive::{Direction, Drive};
pub use indistinct::Indistinct;
pub use on_off::OnOff;
pub use row_kind::RowKind;
