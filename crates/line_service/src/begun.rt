use arrayvec::ArrayVec;
use std::marker::Model;

mod growing;

// One byte more than a line may have: enough to tell that a line is too long.
const KEPT: usize = 1101;

/// The front of the line that is being read. What is past it is not kept, however long the line.
#[derive(Drop)]
pub struct Begun {
    bytes: ArrayVec<u8, KEPT>,
}

// Clauses see the bytes that are kept.
impl Model for Begun {
    ghost use Rattle.std.specs.Prelude.{ℕ, List};

    ghost Value = { List ℕ };

    ghost view = { λ begun. begun.bytes.items };
}
