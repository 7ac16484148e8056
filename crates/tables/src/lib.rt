//! Truth tables, wirings, and when a card and a part agree.
#![tactic(auto)]

mod above;
mod partial_wiring;
mod row_check;
mod table;
mod wiring;

pub use above::{shared_weight, sums_above};
pub use partial_wiring::PartialWiring;
pub use row_check::{agrees, total_weight};
pub use table::Table;
pub use wiring::Wiring;
