ghost use Rattle.std.specs.Prelude.{◌≡◌, ◌<◌, ◌≤◌, IsTrue};
ghost use Rattle.matching.specs.Exchange.{Exchangeable, Lower};

use crate::strikes::Strikes;
use rows::RowKind;
use symmetry::are_symmetric;
use tables::{Table, shared_weight};

// Whether two pins of the part can change places: the part stays the same, and they are struck for the same inputs. What
// they share with the other pins comes first, since that tells most pins apart.
fn can_change_places<R: RowKind>(
    part: &Table<R>,
    sums: &[u32; 1024],
    strikes: &Strikes,
    lower: usize,
    pin: usize,
) -> bool
    requires below { lower < pin }
    requires pin_in { pin < part.now.inputs }
    ensures { IsTrue result → Exchangeable R.RowKind.same part.now strikes.now.struck lower pin }
{
    for k in 0..part.inputs {
        if strikes.is_struck(k, lower) != strikes.is_struck(k, pin) {
            return false;
        }
        if k != lower && k != pin && shared_weight(sums, k, lower) != shared_weight(sums, k, pin) {
            return false;
        }
    }
    are_symmetric(part, pin, lower)
}

// The nearest lower pin that can change places with this one, or itself where there is none.
fn nearest_lower<R: RowKind>(
    part: &Table<R>,
    sums: &[u32; 1024],
    strikes: &Strikes,
    pin: usize,
) -> usize
    requires pin_in { pin < part.now.inputs }
    ensures within { result ≤ pin }
    ensures exchange { result < pin → Exchangeable R.RowKind.same part.now strikes.now.struck result pin }
{
    for lower in (0..pin).rev() {
        if can_change_places(part, sums, strikes, lower, pin) {
            return lower;
        }
    }
    pin
}

/// For each pin the nearest lower one that can change places with it, or itself where there is none.
pub fn lower_pins<R: RowKind>(part: &Table<R>, sums: &[u32; 1024], strikes: &Strikes) -> [u8; 10]
    ensures { Lower R.RowKind.same part.now strikes.now.struck result }
{
    let mut lowers = [0; 10];
    for (pin, lower) in lowers[..part.inputs].iter_mut().enumerate() {
        *lower = nearest_lower(part, sums, strikes, pin) as u8;
    }
    lowers
}
