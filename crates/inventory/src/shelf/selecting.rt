ghost use Rattle.std.specs.Prelude.{◌≡◌, ◌*◌, length};
ghost use Rattle.ledger.specs.Questions.{list_by};
ghost use Rattle.ledger.specs.Refused.{fit_due};
ghost use Rattle.tables.specs.Above.{SumsAbove};
ghost use Rattle.inventory.specs.Slots.{Held, memory_due};
ghost use Rattle.inventory.specs.Fitting.{Best, Fitted, Worth};

use crate::label::Label;
use crate::proposal::Proposal;
use crate::row_store::stored;
use crate::shelf::Shelf;
use lists::{Lists, struck_count};
use matching::{Strikes, first_wiring_by_sums};
use refusals::Refusal;
use rows::RowKind;
use signatures::Signature;
use tables::{Table, sums_above, total_weight};

// The slot's label, if its part could be proposed in place of the best so far: the right number of inputs, and a lower
// number.
fn worth(slot: Option<Label>, inputs: usize, best: &Option<Proposal>) -> Option<Label>
    ensures { Worth slot inputs best.now result }
{
    let label = slot?;
    if label.inputs != inputs {
        return None;
    }
    match best {
        Some(proposal) if proposal.number <= label.number => None,
        _ => Some(label),
    }
}

// What one part has to propose. The sums of the card are worked out before, once for all parts. A part of another weight
// cannot agree, and its sums are not worked out. Only where there is a wiring is the pile asked how many pairs it strikes: a
// part that agrees has the card's lists in another order, so those of the card tell.
fn propose<R: RowKind, P: Signature<R>>(
    pile: &P,
    card: &Table<R>,
    sums: &[u32; 1024],
    label: Label,
    part: &Table<R>,
) -> Option<Proposal>
    requires sums { SumsAbove R.RowKind.weight card.now sums.now }
    requires size { part.now.inputs ≡ card.now.inputs }
    ensures { Best R.RowKind.same (list_by P.Signature.count P.Signature.value) (λ x. x ≡ record { number = label.number; inputs = part.now.inputs; rows = part.now.rows.now }) card.now.inputs card.now.rows.now pile.now result }
{
    if total_weight(part) != sums[0] {
        return None;
    }
    let mut part_sums = [0; 1024];
    sums_above(part, &mut part_sums);
    let wiring = first_wiring_by_sums(card, part, sums, &part_sums, &Strikes::none())?;
    let mut lists = Lists::NONE;
    pile.fill(card, &mut lists);
    let struck = struck_count(&lists, &lists);
    Some(Proposal {
        number: label.number,
        wiring,
        struck,
    })
}

impl Shelf {
    // The lowest part that agrees with the card, and its first wiring.
    fn best_fit<R: RowKind, P: Signature<R>>(
        &self,
        memory: &[R],
        card: &Table<R>,
        pile: &P,
    ) -> Option<Proposal>
        requires { length memory.now ≡ self.now.count * 1024 }
        ensures { Best R.RowKind.same (list_by P.Signature.count P.Signature.value) (Held self.now.slots memory.now) card.now.inputs card.now.rows.now pile.now result }
    {
        let mut sums = [0; 1024];
        sums_above(card, &mut sums);
        let mut best = None;
        for (k, slot) in self.slots.iter().enumerate() {
            if let Some(label) = worth(*slot, card.inputs, &best) {
                let part = stored(memory, k, label.inputs);
                best = propose(pile, card, &sums, label, &part).or(best);
            }
        }
        best
    }

    /// Which part can stand in for a card, and how its pins are wired: the lowest number with an agreeing wiring, and the
    /// first of its agreeing wirings in dictionary order. The pile says only how many pairs it strikes.
    pub fn fit<R: RowKind, P: Signature<R>>(
        &self,
        memory: &[R],
        inputs: usize,
        card: &[R],
        pile: &P,
    ) -> Result<Proposal, Refusal>
        ensures { Fitted R.RowKind.same (list_by P.Signature.count P.Signature.value) (Held self.now.slots memory.now) inputs card.now pile.now (fit_due (memory_due self.now.count (length memory.now)) inputs (length card.now)) result }
    {
        let card = Table::new(inputs, card)?;
        self.check_memory(memory)?;
        self.best_fit(memory, &card, pile)
            .ok_or(Refusal::NoPartAgrees)
    }
}
