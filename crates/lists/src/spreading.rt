ghost use Rattle.std.specs.Prelude.{◌≡◌, ℕ, ◌≢◌};
ghost use Rattle.tables.specs.Wirings.{Wires};
ghost use Rattle.lists.specs.Lists.{lists, Keeps};
ghost use Rattle.lists.specs.Spread.{spread};
ghost use Rattle.lists.specs.Counting.{AtMost};

use crate::lists::Lists;

/// In how many ways each input can get a pin of its own with an equal list: no more wirings keep the lists.
/// Without inputs on either side that is 1, and where the numbers of inputs differ it is 0.
pub fn spread(card: &Lists, part: &Lists) -> u32
    ensures formula { result ≡ spread (lists card.now) (lists part.now) }
    ensures uneven { (card.now.inputs ≢ part.now.inputs) → result ≡ 0 }
    ensures bound { (n : ℕ) → card.now.inputs ≡ n → part.now.inputs ≡ n → AtMost (λ w. Wires n w × Keeps n card.now part.now w) n result }
{
    if card.inputs != part.inputs {
        return 0;
    }
    let mut product = 1;
    for input in 0..card.inputs {
        let list = card.list(input);
        // To ask this of the inputs' lists is enough: there are as many pins, so none is left over.
        if card.times(list, 0) != part.times(list, 0) {
            return 0;
        }
        // As many pins with this list are still free as this input and the later ones have it.
        let later = card.times(list, input + 1) as u32;
        product *= 1 + later;
    }
    product
}
