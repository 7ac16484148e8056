ghost use Rattle.std.specs.Prelude.{length};
ghost use Rattle.refusals.specs.Due.{Outcome};
ghost use Rattle.ledger.specs.Questions.{list_by, Spreads};
ghost use Rattle.ledger.specs.Refused.{spread_due};
ghost use Rattle.inventory.specs.Slots.{Held, labelled, memory_due};

use crate::part_number::check_number;
use crate::row_store::stored;
use crate::shelf::Shelf;
use fitting::spread_by;
use refusals::Refusal;
use rows::RowKind;
use signatures::Signature;
use tables::Table;

impl Shelf {
    /// In how many ways a pile leaves the pins of a part open to a card: the agreeing wirings number at most so many.
    pub fn spread<R: RowKind, P: Signature<R>>(
        &self,
        memory: &[R],
        number: u32,
        inputs: usize,
        card: &[R],
        pile: &P,
    ) -> Result<u32, Refusal>
        ensures { Outcome (spread_due (memory_due self.now.count (length memory.now)) (labelled number self.now.slots) number inputs (length card.now)) (Spreads R.RowKind.same (list_by P.Signature.count P.Signature.value) (Held self.now.slots memory.now) inputs card.now pile.now number) result }
    {
        check_number(number)?;
        let card = Table::new(inputs, card)?;
        self.check_memory(memory)?;
        let slot = self.slot_of(number)?;
        let Some(label) = self.slots[slot] else {
            unreachable()
        };
        let part = stored(memory, slot, label.inputs);
        Ok(spread_by(pile, &card, &part))
    }
}
