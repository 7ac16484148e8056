ghost use Rattle.std.specs.Prelude.{IfOk, IfErr};
ghost use Rattle.ledger.specs.Questions.{list_by};
ghost use Rattle.rebuild.specs.Stocking.{NotStocked};
ghost use Rattle.rebuild.specs.Repairs.{Repairs};

use crate::failure::Failure;
use crate::job::Job;
use crate::stocking::proposed;
use crate::trying::{Bench, try_fit};
use rows::RowKind;
use signatures::Signature;
use std::alloc::Global;
use symmetry::classes_of;

/// What came of a repair: what the bench made of the fit, if a part agrees, and the classes of the card's inputs.
#[derive(Clone, Copy)]
pub struct Repair {
    pub bench: Option<Bench>,
    pub classes: [u8; 10],
}

impl Repair {
    /// Does the repair: fits the card to the stock, tries the wiring, prints the sheet and reads it back.
    pub fn of<R: RowKind, P: Signature<R>>(
        heap: Global,
        pile: &P,
        job: &Job<R>,
    ) -> Result<Repair, Failure>
        ensures repaired { IfOk result (Repairs R.RowKind.same (list_by P.Signature.count P.Signature.value) pile.now job.now) }
        ensures failed { IfErr result (NotStocked job.now.stock.now) }
    {
        let classes = classes_of(&job.card);
        let Some(proposal) = proposed(heap, pile, &job.card, job.stock)? else {
            return Ok(Repair {
                bench: None,
                classes,
            });
        };
        let bench = Some(try_fit(heap, proposal, job)?);
        Ok(Repair { bench, classes })
    }
}
