//! What tells the inputs of a table apart, and never what agrees: the trait, six signatures, and piles of them.
#![tactic(auto)]

mod blank;
mod breakup;
mod cofactor;
mod either;
mod literature;
mod neighbour;
mod per_input;
mod pile;
mod refined;
mod signature;
mod standard;
mod weights;

pub use blank::Blank;
pub use breakup::Breakup;
pub use cofactor::Cofactor;
pub use either::Either;
pub use literature::literature_stands;
pub use neighbour::Neighbour;
pub use pile::Pile;
pub use refined::Refined;
pub use signature::Signature;
pub use standard::{STANDARD_PILE, StandardPile};
