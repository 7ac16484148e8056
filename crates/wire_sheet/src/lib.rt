//! The sheet of a wiring that passed its trial: printed once, and read back.
#![tactic(auto)]

mod bench;
mod printing;
mod sheet;
mod to_list;
mod wire_line;

pub use bench::{Stopped, try_and_print};
pub use printing::{TooShort, print_sheet};
pub use sheet::Sheet;
