ghost use Rattle.std.specs.Prelude.{◌≡◌, ℕ, ◌≤◌, true, length, None, slice_index_or};
ghost use Rattle.inventory.specs.Slots.{share};

use crate::label::Label;

mod opening;
mod selecting;
mod slots;
mod spreading;
mod stocking;

/// A shelf of 1 to 64 slots. Each slot is free or has a part, and no number stands twice. The rows of the parts lie in
/// memory that is lent to each call, 1,024 rows a slot.
#[derive(Drop)]
pub struct Shelf {
    count: usize,
    slots: [Option<Label>; 64],
    ghost some: { 1 ≤ count },
    ghost few: { count ≤ 64 },
    ghost whole: { length slots ≡ 64 },
    ghost past: { (k : ℕ) → count ≤ k → slice_index_or slots k None ≡ None },
    ghost once: { (j k : ℕ) → share (slice_index_or slots j None) (slice_index_or slots k None) ≡ true → j ≡ k },
}
