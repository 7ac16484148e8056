ghost use Rattle.std.specs.Prelude.{◌≡◌, ◌≢◌, ◌<◌, ℕ, MatchOption};
ghost use Rattle.std.specs.Fmt.{decimal};

use crate::characters::digit_of;

/// The number that a run of one to five digits with no leading zero writes.
pub fn number_of(run: &[u8]) -> Option<u32>
    ensures { MatchOption result ((n : ℕ) → n < 100000 → run.now ≢ decimal n) (λ n. (n < 100000) × (run.now ≡ decimal n)) }
{
    if run.is_empty() || run.len() > 5 {
        return None;
    }
    if run[0] == b'0' && run.len() > 1 {
        return None;
    }
    let mut number = 0;
    for byte in run {
        number = number * 10 + digit_of(char::from(*byte))?;
    }
    Some(number)
}
