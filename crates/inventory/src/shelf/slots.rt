ghost use Rattle.std.specs.Prelude.{◌≡◌, ◌<◌, true, false, not, is_some, None, position, slice_index_or};
ghost use Rattle.refusals.specs.Due.{Outcome, first, none};
ghost use Rattle.inventory.specs.Slots.{has, labelled, full};

use crate::label::Label;
use crate::shelf::Shelf;
use refusals::Refusal;

fn find(slots: &[Option<Label>], number: u32) -> Option<usize>
    ensures { result ≡ position (has number) slots.now }
{
    slots
        .iter()
        .position(|slot| slot.is_some_and(|label| label.number == number))
}

fn find_free(slots: &[Option<Label>]) -> Option<usize>
    ensures { result ≡ position (λ slot. not (is_some slot)) slots.now }
{
    slots.iter().position(Option::is_none)
}

impl Shelf {
    // The slot of the part of this number.
    pub(crate) fn slot_of(&self, number: u32) -> Result<usize, Refusal>
        ensures { Outcome (first (not (labelled number self.now.slots)) 9 none) (λ k. (k < self.now.count) × (has number (slice_index_or self.now.slots k None) ≡ true)) result }
    {
        find(&self.slots[..self.count], number).ok_or(Refusal::NumberDoesNotStand)
    }

    // A free slot for a part of this number: the first one.
    pub(crate) fn room_for(&self, number: u32) -> Result<usize, Refusal>
        ensures { Outcome (first (labelled number self.now.slots) 7 (first (full self.now.count self.now.slots) 8 none)) (λ k. (k < self.now.count) × (slice_index_or self.now.slots k None ≡ None) × (labelled number self.now.slots ≡ false)) result }
    {
        if find(&self.slots[..self.count], number).is_some() {
            return Err(Refusal::NumberStands);
        }
        find_free(&self.slots[..self.count]).ok_or(Refusal::ShelfFull)
    }
}
