use crate::breakup::Breakup;
use crate::cofactor::Cofactor;
use crate::pile::Pile;
use crate::refined::Refined;

/// The pile that the programs match with: cofactor, then breakup, then cofactor refined.
pub type StandardPile = Pile<Cofactor, Pile<Breakup, Refined<Cofactor>>>;

/// Cofactor, then breakup, then cofactor refined.
pub const STANDARD_PILE: StandardPile = Pile(Cofactor, Pile(Breakup, Refined(Cofactor)));
