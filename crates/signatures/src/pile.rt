ghost use Rattle.signatures.specs.Values.{piled, piled_count};

use crate::signature::Signature;
use rows::RowKind;
use tables::Table;

/// A pile of two: the places of the first and then those of the second, cut off after 64.
#[derive(Clone, Copy)]
pub struct Pile<A, B>(pub A, pub B);

impl<R: RowKind, A: Signature<R>, B: Signature<R>> Signature<R> for Pile<A, B> {
    ghost count = { λ s. piled_count (A.Signature.count s.0) (B.Signature.count s.1) };

    ghost value = { λ s. piled (A.Signature.count s.0) (A.Signature.value s.0) (B.Signature.value s.1) };

    fn places(&self) -> usize {
        let both = self.0.places() + self.1.places();
        both.min(64)
    }

    fn write(&self, table: &Table<R>, from: usize, answers: &mut [[u32; 64]; 10]) {
        self.0.write(table, from, answers);
        let second = (from + self.0.places()).min(64);
        self.1.write(table, second, answers);
    }
}
