use crate::signature::Signature;
use rows::RowKind;
use tables::Table;

/// Has no places, and so tells no inputs apart.
#[derive(Clone, Copy)]
pub struct Blank;

impl<R: RowKind> Signature<R> for Blank {
    ghost count = { λ _. 0 };

    ghost value = { λ _ _ _ _ _. 0 };

    fn places(&self) -> usize {
        0
    }

    fn write(&self, _table: &Table<R>, _from: usize, _answers: &mut [[u32; 64]; 10]) {}
}
