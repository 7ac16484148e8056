ghost use Rattle.signatures.specs.Law.{given};
ghost use Rattle.signatures.specs.Values.{cofactor};

use crate::per_input::{PerInput, write_each};
use crate::signature::Signature;
use crate::weights::{is_on, weight_where};
use rows::RowKind;
use tables::Table;

/// The cofactor satisfy count, for rows of any kind: at its one place the weight of the rows with the input on.
#[derive(Clone, Copy)]
pub struct Cofactor;

impl<R: RowKind> PerInput<R> for Cofactor {
    ghost says = { λ _. given 1 (cofactor R.RowKind.weight) };

    fn put(&self, table: &Table<R>, input: usize, room: &mut [u32]) {
        if !room.is_empty() {
            room[0] = weight_where(table, |r| is_on(r, input));
        }
    }
}

impl<R: RowKind> Signature<R> for Cofactor {
    ghost count = { λ _. 1 };

    ghost value = { λ _. cofactor R.RowKind.weight };

    fn places(&self) -> usize {
        1
    }

    fn write(&self, table: &Table<R>, from: usize, answers: &mut [[u32; 64]; 10]) {
        write_each(self, table, from, answers);
    }
}
