use crate::stock::Stock;
use anyhow::Result;
use fitting::wiring_by;
use inventory::Shelf;
use lists::Lists;
use matching::{Strikes, first_wiring};
use refusals::Refusal;
use rows::OnOff;
use signatures::{STANDARD_PILE, Signature};
use std::alloc::Global;
use tables::Wiring;

fn summed(sum: u64, said: u64) -> u64 {
    sum.wrapping_mul(31).wrapping_add(said)
}

fn summed_pins(sum: u64, wiring: &Wiring) -> u64 {
    let pins = wiring.pins().iter();
    pins.fold(sum, |sum, &pin| summed(sum, u64::from(pin)))
}

/// Of each table one answer counts, at another place each time.
pub fn sum_of_lists(stock: &Stock, times: usize) -> Result<u64, Refusal> {
    let mut sum = 0;
    for (t, card) in stock.cards.iter().cycle().take(times).enumerate() {
        let card = card.table()?;
        let mut lists = Lists::NONE;
        STANDARD_PILE.fill(&card, &mut lists);
        let answer = lists.answers[t % card.inputs.max(1)][t % 12];
        sum = summed(sum, u64::from(answer));
    }
    Ok(sum)
}

/// What the wirings of the cards and the parts come to, each card with the part of its place.
pub fn sum_of_wirings(stock: &Stock, times: usize, signatures: bool) -> Result<u64, Refusal> {
    let cards = stock.cards.iter().cycle();
    let mut sum = 0;
    for (card, part) in cards.zip(stock.parts.iter().cycle()).take(times) {
        let (card, part) = (card.table()?, part.table()?);
        let wiring = if signatures {
            wiring_by(&STANDARD_PILE, &card, &part)
        } else {
            first_wiring(&card, &part, &Strikes::none())
        };
        sum = match wiring {
            Some(wiring) => summed_pins(sum, &wiring),
            None => summed(sum, 10),
        };
    }
    Ok(sum)
}

/// What fitting the cards in turn to a shelf of all parts comes to.
pub fn sum_of_fits(heap: Global, stock: &Stock, times: usize) -> Result<u64> {
    let mut shelf = Shelf::open(stock.parts.len())?;
    let mut memory = vec![in heap; OnOff::Off; shelf.slots() * 1024]?;
    let memory = memory.as_mut_slice();
    for (number, part) in stock.numbers.iter().zip(&stock.parts) {
        shelf.enter(memory, *number, part.inputs, part.rows.as_slice())?;
    }
    let mut sum = 0;
    for card in stock.cards.iter().cycle().take(times) {
        sum = match shelf.fit(memory, card.inputs, card.rows.as_slice(), &STANDARD_PILE) {
            Ok(fit) => {
                let sum = summed_pins(sum, fit.wiring());
                summed(summed(sum, u64::from(fit.number())), fit.struck() as u64)
            }
            Err(refusal) => summed(sum, u64::from(refusal.number())),
        };
    }
    Ok(sum)
}
