use arrayvec::ArrayVec;
use std::marker::Model;

mod copying;
mod writing;

/// A text of at most 64 bytes that is put together without allocating.
#[derive(Drop)]
pub struct Text {
    bytes: ArrayVec<u8, 64>,
}

// Clauses see the bytes that were put.
impl Model for Text {
    ghost use Rattle.std.specs.Prelude.{ℕ, List};

    ghost Value = { List ℕ };

    ghost view = { λ text. text.bytes.items };
}
