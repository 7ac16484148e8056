ghost use Rattle.std.specs.Prelude.{◌≡◌, ℕ, ◌<◌, ◌≤◌, ◌||◌, IsTrue, slice_index};
ghost use Rattle.matching.specs.Struck.{struck, LeftOut};
ghost use Rattle.matching.specs.Sharing.{shared, unlike};

use crate::strikes::Strikes;
use tables::shared_weight;

// What an input shares with each other input, in one number. Each adds the weight that the two share, times a factor from
// 1 to 4,096 that mixes in the other's own weight, so that inputs that share as much in total are mostly told apart.
fn shared_by(inputs: usize, sums: &[u32; 1024], input: usize) -> u64
    requires few { inputs ≤ 10 }
    requires input_in { input < inputs }
    ensures { result ≡ shared sums.now inputs input }
{
    let mut total = 0;
    for other in 0..inputs {
        if other != input {
            let both = shared_weight(sums, input, other) as u64;
            let own = sums[1usize << other] as u64;
            total += both * (1 + (both + own) % 4096);
        }
    }
    total
}

// What each input shares with the others.
fn all_shared(inputs: usize, sums: &[u32; 1024]) -> [u64; 10]
    requires few { inputs ≤ 10 }
    ensures { (i : ℕ) → i < inputs → slice_index result i ≡ shared sums.now inputs i }
{
    let mut all = [0; 10];
    for (input, total) in all[..inputs].iter_mut().enumerate() {
        *total = shared_by(inputs, sums, input);
    }
    all
}

/// The strikes, and with them each pair of an input and a pin that share otherwise with the others.
pub fn with_unlike(
    strikes: &Strikes,
    inputs: usize,
    card_sums: &[u32; 1024],
    part_sums: &[u32; 1024],
) -> Strikes
    requires few { inputs ≤ 10 }
    ensures { (i p : ℕ) → struck result.struck i p ≡ (struck strikes.now.struck i p || unlike card_sums.now part_sums.now inputs i p) }
{
    let card = all_shared(inputs, card_sums);
    let part = all_shared(inputs, part_sums);
    let mut strikes = *strikes;
    for input in 0..inputs {
        for pin in 0..inputs {
            if card[input] != part[pin] {
                strikes.strike(input, pin);
            }
        }
    }
    strikes
}

/// Whether the input of this number is struck with every pin, or the pin of this number with every input.
pub fn is_left_out(strikes: &Strikes, number: usize, inputs: usize) -> bool
    ensures { IsTrue result → LeftOut strikes.now.struck inputs number }
{
    let mut input_left = true;
    let mut pin_left = true;
    for other in 0..inputs {
        input_left = input_left && strikes.is_struck(number, other);
        pin_left = pin_left && strikes.is_struck(other, number);
    }
    input_left || pin_left
}
