ghost use Rattle.signatures.specs.Law.{given};
ghost use Rattle.signatures.specs.Values.{neighbour};
ghost use Rattle.signatures.specs.Counted.{Counted};

use crate::per_input::{PerInput, add_at, write_each};
use crate::signature::Signature;
use crate::weights::is_on;
use rows::RowKind;
use std::cmp::Ordering;
use tables::Table;

// At which place a pair of neighbours counts. Rows that differ and weigh alike count at none.
fn place_of<R: RowKind>(off: &R, on: &R) -> Option<usize>
    ensures { Counted R.RowKind.same R.RowKind.weight off.now on.now result }
{
    if off.is_same(on) {
        return Some(0);
    }
    match off.weight().cmp(&on.weight()) {
        Ordering::Less => Some(1),
        Ordering::Greater => Some(2),
        Ordering::Equal => None,
    }
}

/// Three places, over the pairs of rows that differ only in the input: how many are the same, in how many the row with
/// the input on weighs more, and in how many it weighs less.
#[derive(Clone, Copy)]
pub struct Neighbour;

impl<R: RowKind> PerInput<R> for Neighbour {
    ghost says = { λ _. given 3 (neighbour R.RowKind.same R.RowKind.weight) };

    fn put(&self, table: &Table<R>, input: usize, room: &mut [u32]) {
        let bit = 1usize << input;
        for (r, on) in table.rows.iter().enumerate() {
            if is_on(r, input) {
                if let Some(place) = place_of(&table.rows[r - bit], on) {
                    add_at(room, place, 1);
                }
            }
        }
    }
}

impl<R: RowKind> Signature<R> for Neighbour {
    ghost count = { λ _. 3 };

    ghost value = { λ _. neighbour R.RowKind.same R.RowKind.weight };

    fn places(&self) -> usize {
        3
    }

    fn write(&self, table: &Table<R>, from: usize, answers: &mut [[u32; 64]; 10]) {
        write_each(self, table, from, answers);
    }
}
