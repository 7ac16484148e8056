ghost use Rattle.std.specs.Prelude.{length};
ghost use Rattle.ledger.specs.Refused.{enter_due, drop_due};
ghost use Rattle.inventory.specs.Slots.{labelled, full, memory_due};
ghost use Rattle.inventory.specs.Stocking.{Entered, Dropped};

use crate::label::Label;
use crate::part_number::check_number;
use crate::row_store::store;
use crate::shelf::Shelf;
use refusals::Refusal;
use rows::RowKind;
use tables::Table;

impl Shelf {
    /// Enters a part: its rows go into the front of the stretch of a free slot.
    pub fn enter<R: RowKind>(
        &mut self,
        memory: &mut [R],
        number: u32,
        inputs: usize,
        rows: &[R],
    ) -> Result<(), Refusal>
        ensures { Entered (enter_due (memory_due self.old.count (length memory.old)) (labelled number self.old.slots) (full self.old.count self.old.slots) number inputs (length rows.now)) number inputs rows.now self.old memory.old result self.new memory.new }
    {
        check_number(number)?;
        Table::check(inputs, rows)?;
        self.check_memory(memory)?;
        let slot = self.room_for(number)?;
        store(memory, slot, rows);
        self.slots[slot] = Some(Label { number, inputs });
        Ok(())
    }

    /// Drops a part: its slot is free again, and its rows are left as they are.
    pub fn drop_part<R: RowKind>(&mut self, memory: &[R], number: u32) -> Result<(), Refusal>
        ensures { Dropped (drop_due (memory_due self.old.count (length memory.now)) (labelled number self.old.slots) number) number self.old result self.new }
    {
        check_number(number)?;
        self.check_memory(memory)?;
        let slot = self.slot_of(number)?;
        self.slots[slot] = None;
        Ok(())
    }
}
