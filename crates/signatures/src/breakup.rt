ghost use Rattle.std.specs.Prelude.{◌≡◌, ℕ, ◌+◌, ◌^◌, ◌<◌, ◌≤◌, [], length, slice_index, slice_index_or};
ghost use Rattle.signatures.specs.Values.{adds, breakup};

use crate::signature::Signature;
use crate::weights::is_on;
use rows::RowKind;
use tables::Table;

// Adds the weight of a row to the answers for an input, if it is on in the row: times 1 or 0, and not by a branch.
fn add_to(list: &mut [u32; 64], from: usize, input: usize, row: usize, weight: u32)
    requires from { from ≤ 64 }
    requires input_in { input < 10 }
    requires row_in { row < 1024 }
    requires fits { (p : ℕ) → from ≤ p → slice_index list.old p + weight < 2 ^ 32 }
    ensures added { (p : ℕ) → p < 64 → slice_index list.new p ≡ slice_index list.old p + adds from weight input row p }
    ensures len { length list.new ≡ 64 }
{
    let end = from + row.count_ones() as usize;
    if end > 0 && end <= 64 {
        list[end - 1] += weight * u32::from(is_on(row, input));
    }
}

// Adds the weight of a row to the answers for each input that is on in it.
fn add_row(answers: &mut [[u32; 64]; 10], from: usize, inputs: usize, row: usize, weight: u32)
    requires from { from ≤ 64 }
    requires few { inputs ≤ 10 }
    requires row_in { row < 1024 }
    requires fits { (i p : ℕ) → i < inputs → from ≤ p → slice_index (slice_index_or answers.old i []) p + weight < 2 ^ 32 }
    ensures added { (i p : ℕ) → i < inputs → p < 64 → slice_index (slice_index_or answers.new i []) p ≡ slice_index (slice_index_or answers.old i []) p + adds from weight i row p }
    ensures wide { (i : ℕ) → i < inputs → length (slice_index_or answers.new i []) ≡ 64 }
    ensures whole { length answers.new ≡ 10 }
{
    for input in 0..inputs {
        add_to(&mut answers[input], from, input, row, weight);
    }
}

/// The cofactor breakup: at place p the weight of the rows with the input on and exactly p + 1 inputs on.
#[derive(Clone, Copy)]
pub struct Breakup;

impl<R: RowKind> Signature<R> for Breakup {
    ghost count = { λ _. 10 };

    ghost value = { λ _. breakup R.RowKind.weight };

    fn places(&self) -> usize {
        10
    }

    // One pass for all inputs. A row that weighs nothing adds nothing.
    fn write(&self, table: &Table<R>, from: usize, answers: &mut [[u32; 64]; 10]) {
        for (r, row) in table.rows.iter().enumerate() {
            let weight = row.weight() as u32;
            if weight > 0 {
                add_row(answers, from, table.inputs, r, weight);
            }
        }
    }
}
