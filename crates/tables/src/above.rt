ghost use Rattle.std.specs.Prelude.{◌≡◌, ℕ, ◌+◌, ◌^◌, ◌<◌, ◌≤◌, ◌≢◌, length, slice_index};
ghost use Rattle.tables.specs.Sums.{weighed};
ghost use Rattle.tables.specs.Above.{sum_above, SumsAbove};

use crate::table::Table;
use rows::RowKind;

// Adds to each sum the one at the same place of the others.
fn add_each(sums: &mut [u32], others: &[u32])
    requires same { length sums.old ≡ length others.now }
    requires fits { (s : ℕ) → s < length sums.old → slice_index sums.old s + slice_index others.now s < 2 ^ 32 }
    ensures len { length sums.new ≡ length sums.old }
    ensures added { (s : ℕ) → s < length sums.old → slice_index sums.new s ≡ slice_index sums.old s + slice_index others.now s }
{
    for s in 0..sums.len() {
        sums[s] += others[s];
    }
}

// In place of the weights of the four rows of two inputs, the sums above them, all at once.
fn sum_up_two(sums: &mut [u32])
    requires whole { length sums.old ≡ 4 }
    requires light { (s : ℕ) → s < 4 → slice_index sums.old s < 256 }
    ensures len { length sums.new ≡ length sums.old }
    ensures sums { (s : ℕ) → s < 4 → slice_index sums.new s ≡ sum_above sums.old 2 s }
{
    let (none, first, second, both) = (sums[0], sums[1], sums[2], sums[3]);
    sums[0] = none + first + second + both;
    sums[1] = first + both;
    sums[2] = second + both;
}

// In place of the weights of the rows of so many inputs, the sums above the rows. First in each half, for one input less;
// then each sum of the upper half is added to the one at its place in the lower half, since above a row without the last
// input lie rows of both.
fn sum_up(inputs: usize, sums: &mut [u32])
    requires few { inputs ≤ 10 }
    requires whole { length sums.old ≡ 2 ^ inputs }
    requires light { (s : ℕ) → s < 2 ^ inputs → slice_index sums.old s < 256 }
    ensures len { length sums.new ≡ length sums.old }
    ensures sums { (s : ℕ) → s < 2 ^ inputs → slice_index sums.new s ≡ sum_above sums.old inputs s }
{
    if inputs == 0 {
        return;
    }
    if inputs == 2 {
        sum_up_two(sums);
        return;
    }
    let last = inputs - 1;
    let (low, high) = sums.split_at_mut(1usize << last);
    sum_up(last, low);
    sum_up(last, high);
    add_each(low, high);
}

/// Writes, for each row of the table, the sum of the weights above it: of the rows in which each input that is on in
/// this row is on. That is the sum of all weights at row 0. What stands past the last row stays.
pub fn sums_above<R: RowKind>(table: &Table<R>, sums: &mut [u32; 1024])
    ensures sums { SumsAbove R.RowKind.weight table.now sums.new }
    ensures total { slice_index sums.new 0 ≡ weighed R.RowKind.weight table.now.rows.now (2 ^ table.now.inputs) }
    ensures rest { (s : ℕ) → 2 ^ table.now.inputs ≤ s → slice_index sums.new s ≡ slice_index sums.old s }
{
    for (r, row) in table.rows.iter().enumerate() {
        sums[r] = row.weight() as u32;
    }
    sum_up(table.inputs, &mut sums[..table.rows.len()]);
}

/// The weight that two inputs share: the sum above both.
pub fn shared_weight(sums: &[u32; 1024], input: usize, other: usize) -> u32
    requires input_in { input < 10 }
    requires other_in { other < 10 }
    requires apart { other ≢ input }
    ensures { result ≡ slice_index sums.now (2 ^ input + 2 ^ other) }
{
    sums[(1usize << input) + (1usize << other)]
}
