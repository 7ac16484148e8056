ghost use Rattle.std.specs.Prelude.{◌≡◌, ◌*◌, length, IfOk, IfErr};
ghost use Rattle.lists.specs.Counting.{Mem};
ghost use Rattle.ledger.specs.Questions.{list_by};
ghost use Rattle.inventory.specs.Fitting.{Best};
ghost use Rattle.runs.specs.Holding.{Holds};
ghost use Rattle.rebuild.specs.Stocking.{stood, AllStand, NotStocked};

use crate::failure::{Failure, Side};
use crate::job::Stocked;
use inventory::{Proposal, Shelf};
use rows::RowKind;
use signatures::Signature;
use std::alloc::Global;
use tables::Table;

// Enters the parts of the stock on a shelf just opened, with a slot for each.
fn shelve<R: RowKind>(memory: &mut [R], stock: &[Stocked<'_, R>]) -> Result<Shelf, Failure>
    requires { length memory.old ≡ length stock.now * 1024 }
    ensures slots { IfOk result (λ shelf. shelf.count ≡ length stock.now) }
    ensures held { IfOk result (λ shelf. Holds shelf.slots memory.new (stood stock.now)) }
    ensures stand { IfOk result (λ _. AllStand (length stock.now) stock.now) }
    ensures memory { length memory.new ≡ length memory.old }
    ensures failed { IfErr result (NotStocked stock.now) }
{
    let mut shelf = Shelf::open(stock.len()).map_err(|_| Failure::StockSize)?;
    for part in stock {
        let entered = shelf.enter(memory, part.number, part.table.inputs, part.table.rows);
        if let Err(refusal) = entered {
            return Err(Failure::Refused(Side::Part(part.number), refusal));
        }
    }
    Ok(shelf)
}

// What fit proposes for a card where the stock stands, or none where no part agrees.
fn fit_stock<R: RowKind, P: Signature<R>>(
    memory: &mut [R],
    pile: &P,
    card: &Table<R>,
    stock: &[Stocked<'_, R>],
) -> Result<Option<Proposal>, Failure>
    requires { length memory.old ≡ length stock.now * 1024 }
    ensures proposed { IfOk result (Best R.RowKind.same (list_by P.Signature.count P.Signature.value) (λ part. Mem part (stood stock.now)) card.now.inputs card.now.rows.now pile.now) }
    ensures stand { IfOk result (λ _. AllStand (length stock.now) stock.now) }
    ensures failed { IfErr result (NotStocked stock.now) }
{
    let shelf = shelve(memory, stock)?;
    Ok(shelf.fit(memory, card.inputs, card.rows, pile).ok())
}

/// The same, with the shelf's memory of its own.
pub fn proposed<R: RowKind, P: Signature<R>>(
    heap: Global,
    pile: &P,
    card: &Table<R>,
    stock: &[Stocked<'_, R>],
) -> Result<Option<Proposal>, Failure>
    ensures proposed { IfOk result (Best R.RowKind.same (list_by P.Signature.count P.Signature.value) (λ part. Mem part (stood stock.now)) card.now.inputs card.now.rows.now pile.now) }
    ensures stand { IfOk result (λ _. AllStand (length stock.now) stock.now) }
    ensures failed { IfErr result (NotStocked stock.now) }
{
    if stock.len() > 64 {
        return Err(Failure::StockSize);
    }
    let mut memory = vec![in heap; card.rows[0]; stock.len() * 1024]?;
    fit_stock(memory.as_mut_slice(), pile, card, stock)
}
