ghost use Rattle.signatures.specs.Eithers.{either_count, either_value};

use crate::signature::Signature;
use rows::RowKind;
use tables::Table;

/// One of two signatures, so that one type can stand for different piles.
#[derive(Clone, Copy)]
pub enum Either<A, B> {
    First(A),
    Second(B),
}

impl<R: RowKind, A: Signature<R>, B: Signature<R>> Signature<R> for Either<A, B> {
    ghost count = { either_count A.Signature.count B.Signature.count };

    ghost value = { either_value A.Signature.value B.Signature.value };

    fn places(&self) -> usize {
        match self {
            Either::First(a) => a.places(),
            Either::Second(b) => b.places(),
        }
    }

    fn write(&self, table: &Table<R>, from: usize, answers: &mut [[u32; 64]; 10]) {
        match self {
            Either::First(a) => a.write(table, from, answers),
            Either::Second(b) => b.write(table, from, answers),
        }
    }
}
