ghost use Rattle.std.specs.Prelude.{◌≡◌, ℕ, ◌+◌, ◌^◌, ◌<◌, ◌≤◌, ◌≢◌, slice_index};
ghost use Rattle.signatures.specs.Law.{given};
ghost use Rattle.signatures.specs.Values.{refined, refined_from};

use crate::per_input::{PerInput, write_each};
use crate::signature::Signature;
use rows::RowKind;
use tables::{Table, shared_weight, sums_above};

// One answer, from the weights that the input shares with each other input and from their answers below. A weight is at
// most a quarter of 1,024 rows of 255, so that the sum is at most 9 × 65,280 × 4,096 = 2,406,481,920.
fn refine(
    inputs: usize,
    below: &[[u32; 64]; 10],
    sums: &[u32; 1024],
    input: usize,
    place: usize,
) -> u32
    requires few { inputs ≤ 10 }
    requires input_in { input < inputs }
    requires place_in { place < 64 }
    requires light { (k : ℕ) → k < 10 → k ≢ input → slice_index sums.now (2 ^ input + 2 ^ k) ≤ 65280 }
    ensures { result ≡ refined_from sums.now below.now inputs input place }
{
    let mut sum = 0;
    for (k, answers) in below[..inputs].iter().enumerate() {
        if k != input {
            sum += shared_weight(sums, input, k) * (1 + answers[place] % 4096);
        }
    }
    sum
}

// What the signature below answers, and the sums of the table: both are asked for once for a table.
#[derive(Clone, Copy)]
struct Below<'a> {
    places: usize,
    answers: &'a [[u32; 64]; 10],
    sums: &'a [u32; 1024],
    ghost short: { places ≤ 64 },
    ghost light: { (i k : ℕ) → i < 10 → k < 10 → k ≢ i → slice_index sums.now (2 ^ i + 2 ^ k) ≤ 65280 },
}

impl<R: RowKind> PerInput<R> for Below<'_> {
    ghost says = { λ s. given s.places (λ n _ i p. refined_from s.sums.now s.answers.now n i p) };

    fn put(&self, table: &Table<R>, input: usize, room: &mut [u32]) {
        let places = self.places.min(room.len());
        for (place, answer) in room[..places].iter_mut().enumerate() {
            *answer = refine(table.inputs, self.answers, self.sums, input, place);
        }
    }
}

/// Refines the signature below it: an input is told by what the signature says of the inputs that it shares weight with.
#[derive(Clone, Copy)]
pub struct Refined<S>(pub S);

impl<R: RowKind, S: Signature<R>> Signature<R> for Refined<S> {
    ghost count = { λ s. S.Signature.count s.0 };

    ghost value = { λ s. refined R.RowKind.weight (S.Signature.value s.0) };

    fn places(&self) -> usize {
        self.0.places()
    }

    fn write(&self, table: &Table<R>, from: usize, answers: &mut [[u32; 64]; 10]) {
        let mut sums = [0; 1024];
        sums_above(table, &mut sums);
        let mut below = [[0; 64]; 10];
        self.0.write(table, 0, &mut below);
        let below = Below {
            places: self.0.places(),
            answers: &below,
            sums: &sums,
        };
        write_each(&below, table, from, answers);
    }
}
