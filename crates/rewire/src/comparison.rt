ghost use Rattle.std.specs.Prelude.{IfErr, IfOk};
ghost use Rattle.fitting.specs.Pruning.{all_lists};
ghost use Rattle.rewire.specs.Comparing.{IsSize, Compares, ComparesTyped, CompareError};

use crate::failure::{Failure, Side};
use crate::typed::{sized, typed};
use fitting::{spread_by, struck_by, wiring_by};
use rows::OnOff;
use signatures::Signature;
use std::alloc::Global;
use tables::{Table, Wiring};
use typed_rows::Size;

/// What there is to say of a card and a part: how large they are, how many pairs of input and pin signatures tell apart,
/// the spread, and the first wiring under which they agree.
#[derive(Clone, Copy)]
pub struct Comparison {
    pub card: Size,
    pub part: Size,
    pub struck: usize,
    pub spread: u32,
    pub wiring: Option<Wiring>,
}

fn size_of(table: &Table<OnOff>) -> Size
    ensures { IsSize table.now result }
{
    Size {
        inputs: table.inputs,
        rows: table.rows.len(),
    }
}

impl Comparison {
    fn of<P: Signature<OnOff>>(pile: &P, card: &Table<OnOff>, part: &Table<OnOff>) -> Comparison
        ensures { Compares (all_lists (P.Signature.count pile.now) (P.Signature.value pile.now)) card.now part.now result }
    {
        Comparison {
            card: size_of(card),
            part: size_of(part),
            struck: struck_by(pile, card, part),
            spread: spread_by(pile, card, part),
            wiring: wiring_by(pile, card, part),
        }
    }

    /// Of a card and a part as they were typed.
    pub fn of_typed<P: Signature<OnOff>>(
        heap: Global,
        pile: &P,
        card: &str,
        part: &str,
    ) -> Result<Comparison, Failure>
        ensures compared { IfOk result (ComparesTyped (all_lists (P.Signature.count pile.now) (P.Signature.value pile.now)) card.now part.now) }
        ensures failed { IfErr result (CompareError card.now part.now) }
    {
        let card_rows = typed(heap, Side::Card, card)?;
        let part_rows = typed(heap, Side::Part, part)?;
        let card = sized(Side::Card, card_rows.as_slice())?;
        let part = sized(Side::Part, part_rows.as_slice())?;
        Ok(Comparison::of(pile, &card, &part))
    }
}
