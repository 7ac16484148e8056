ghost use Rattle.std.specs.Prelude.{ℕ, ◌^◌, ◌<◌, ◌≤◌, IfNone, IfSome};

/// The least number of inputs for so many rows; none where ten are not enough.
pub fn inputs_for(rows: usize) -> Option<usize>
    ensures few { IfSome result (λ n. n ≤ 10) }
    ensures least { IfSome result (λ n. (k : ℕ) → k < n → 2 ^ k < rows) }
    ensures enough { IfSome result (λ n. rows ≤ 2 ^ n) }
    ensures past_ten { IfNone result (2 ^ 10 < rows) }
{
    (0..11).find(|inputs| rows <= 1usize << inputs)
}
