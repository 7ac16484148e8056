ghost use Rattle.std.specs.Prelude.{◌≡◌, ◌*◌, length};
ghost use Rattle.refusals.specs.Due.{Outcome};
ghost use Rattle.inventory.specs.Slots.{memory_due};
ghost use Rattle.inventory.specs.Stocking.{open_due, IsEmpty};

use crate::shelf::Shelf;
use refusals::Refusal;

impl Shelf {
    /// An empty shelf of 1 to 64 slots.
    pub fn open(slots: usize) -> Result<Shelf, Refusal>
        ensures { Outcome (open_due slots) (IsEmpty slots) result }
    {
        if !(1..=64).contains(&slots) {
            return Err(Refusal::WrongShelfSize);
        }
        Ok(Shelf {
            count: slots,
            slots: [None; 64],
        })
    }

    /// How many slots it has, free or not.
    pub fn slots(&self) -> usize
        ensures { result ≡ self.now.count }
    {
        self.count
    }

    /// Whether this is row memory for the shelf: 1,024 rows a slot.
    pub fn check_memory<R>(&self, memory: &[R]) -> Result<(), Refusal>
        ensures { Outcome (memory_due self.now.count (length memory.now)) (λ _. length memory.now ≡ self.now.count * 1024) result }
    {
        if memory.len() != self.count * 1024 {
            return Err(Refusal::WrongShelfSize);
        }
        Ok(())
    }
}
