ghost use Rattle.fitting.specs.Fits.{Fits};

use crate::pruning::strikes_by;
use matching::first_wiring;
use rows::RowKind;
use signatures::Signature;
use tables::{Table, Wiring};

/// The first wiring under which card and part agree. The pile only spares the search work: whatever it tells apart, no
/// agreeing wiring is lost.
pub fn wiring_by<R: RowKind, P: Signature<R>>(
    pile: &P,
    card: &Table<R>,
    part: &Table<R>,
) -> Option<Wiring>
    ensures { Fits R.RowKind.same card.now part.now result }
{
    first_wiring(card, part, &strikes_by(pile, card, part))
}
