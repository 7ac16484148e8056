ghost use Rattle.std.specs.Prelude.{◌≡◌, ℕ};
ghost use Rattle.lists.specs.Counting.{AtMost};
ghost use Rattle.lists.specs.Pairs.{struck_pairs};
ghost use Rattle.lists.specs.Spread.{spread};
ghost use Rattle.matching.specs.Struck.{struck, Spared};
ghost use Rattle.signatures.specs.Law.{list_of};
ghost use Rattle.tables.specs.Agreement.{Agree};
ghost use Rattle.fitting.specs.Pruning.{all_lists, tells_apart};

use lists::{Lists, spread, strikes, struck_count};
use matching::Strikes;
use rows::RowKind;
use signatures::Signature;
use tables::Table;

/// The pairs of a card input and a pin that a pile tells apart: those with unequal lists. No agreeing wiring uses one.
pub fn strikes_by<R: RowKind, P: Signature<R>>(
    pile: &P,
    card: &Table<R>,
    part: &Table<R>,
) -> Strikes
    ensures exact { (i p : ℕ) → struck result.struck i p ≡ tells_apart card.now.inputs part.now.inputs (list_of (P.Signature.count pile.now) (P.Signature.value pile.now) card.now.inputs card.now.rows.now) (list_of (P.Signature.count pile.now) (P.Signature.value pile.now) part.now.inputs part.now.rows.now) i p }
    ensures spares { (w : ℕ → ℕ) → Agree R.RowKind.same card.now.inputs w card.now.rows.now part.now.rows.now → Spared result.struck card.now.inputs w }
{
    let mut card_lists = Lists::NONE;
    let mut part_lists = Lists::NONE;
    pile.fill(card, &mut card_lists);
    pile.fill(part, &mut part_lists);
    strikes(&card_lists, &part_lists)
}

/// How many pairs a pile tells apart.
pub fn struck_by<R: RowKind, P: Signature<R>>(pile: &P, card: &Table<R>, part: &Table<R>) -> usize
    ensures { result ≡ struck_pairs (all_lists (P.Signature.count pile.now) (P.Signature.value pile.now) card.now.inputs card.now.rows.now) (all_lists (P.Signature.count pile.now) (P.Signature.value pile.now) part.now.inputs part.now.rows.now) }
{
    let mut card_lists = Lists::NONE;
    let mut part_lists = Lists::NONE;
    pile.fill(card, &mut card_lists);
    pile.fill(part, &mut part_lists);
    struck_count(&card_lists, &part_lists)
}

/// In how many ways a pile leaves the pins open: the agreeing wirings number at most so many.
pub fn spread_by<R: RowKind, P: Signature<R>>(pile: &P, card: &Table<R>, part: &Table<R>) -> u32
    ensures formula { result ≡ spread (all_lists (P.Signature.count pile.now) (P.Signature.value pile.now) card.now.inputs card.now.rows.now) (all_lists (P.Signature.count pile.now) (P.Signature.value pile.now) part.now.inputs part.now.rows.now) }
    ensures bound { AtMost (λ w. Agree R.RowKind.same card.now.inputs w card.now.rows.now part.now.rows.now) card.now.inputs result }
{
    let mut card_lists = Lists::NONE;
    let mut part_lists = Lists::NONE;
    pile.fill(card, &mut card_lists);
    pile.fill(part, &mut part_lists);
    spread(&card_lists, &part_lists)
}
