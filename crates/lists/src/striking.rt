ghost use Rattle.std.specs.Prelude.{◌≡◌, ℕ};
ghost use Rattle.tables.specs.Wirings.{Wires};
ghost use Rattle.matching.specs.Struck.{struck, Spared};
ghost use Rattle.lists.specs.Lists.{lists, Keeps};
ghost use Rattle.lists.specs.Pairs.{unequal, struck_pairs};

use crate::lists::Lists;
use matching::Strikes;

/// Strikes each pair of an input and a pin with unequal lists, and no other: the wirings that keep the lists are spared.
pub fn strikes(card: &Lists, part: &Lists) -> Strikes
    ensures exact { (i p : ℕ) → struck result.struck i p ≡ unequal card.now part.now i p }
    ensures spares { (n : ℕ) (w : ℕ → ℕ) → Keeps n card.now part.now w → Spared result.struck n w }
    ensures keeps { (n : ℕ) (w : ℕ → ℕ) → card.now.inputs ≡ n → part.now.inputs ≡ n → Wires n w → Spared result.struck n w → Keeps n card.now part.now w }
{
    let mut strikes = Strikes::none();
    for input in 0..card.inputs {
        for pin in 0..part.inputs {
            if !card.is_equal(input, part, pin) {
                strikes.strike(input, pin);
            }
        }
    }
    strikes
}

/// How many of all pairs of an input and a pin have unequal lists.
pub fn struck_count(card: &Lists, part: &Lists) -> usize
    ensures { result ≡ struck_pairs (lists card.now) (lists part.now) }
{
    (0..card.inputs)
        .map(|input| part.inputs - part.times(card.list(input), 0))
        .sum()
}
