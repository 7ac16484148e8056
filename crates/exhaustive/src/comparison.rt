use crate::kind::Kind;
use draws::Random;
use every_wiring::Wirings;
use fitting::{spread_by, wiring_by};
use inventory::Shelf;
use matching::{Strikes, first_wiring};
use refusals::Refusal;
use signatures::{Breakup, Cofactor, Neighbour, Refined, STANDARD_PILE, Signature};
use std::io::{ErrorKind, Result};
use std::result;
use symmetry::classes_of;
use tables::{Table, Wiring, agrees};
use typed_rows::table_of;

/// How much was compared.
#[derive(Clone, Copy, Debug, Default)]
pub struct Totals {
    pairs: u64,
    pairs_that_agree: u64,
    others_left_open: u64,
    row_checks_passed: u64,
    searches_with_strikes: u64,
    of_these_found: u64,
    fits: u64,
    of_these_refused: u64,
    tables_classed: u64,
    pub differences: u64,
}

/// What is compared, and what came of it so far.
#[derive(Drop)]
pub struct Comparison<'a> {
    pub rt: &'a HostRuntime,
    /// The wirings of none to six inputs.
    pub wirings: &'a [Wirings],
    pub random: Random,
    pub totals: Totals,
}

// A card and a part, and the wirings under which they agree.
#[derive(Clone, Copy)]
struct Pair<'t, R>(&'t Table<'t, R>, &'t Table<'t, R>, &'t [&'t [u8]]);

fn add(total: &mut u64, count: usize) {
    *total = total.saturating_add(count as u64);
}

// What was asked for. A refusal of what is lawful ends the program.
fn granted<T: Drop>(asked: result::Result<T, Refusal>) -> Result<T> {
    asked.map_err(|_| ErrorKind::InvalidInput.into())
}

fn is_wiring(found: Option<Wiring>, due: Option<&&[u8]>) -> bool {
    match &found {
        Some(wiring) => due == Some(&wiring.pins()),
        None => due.is_none(),
    }
}

fn uses_struck(pins: &[u8], strikes: &Strikes) -> bool {
    let mut pairs = pins.iter().enumerate();
    pairs.any(|(input, &pin)| strikes.is_struck(input, usize::from(pin)))
}

fn is_among(pins: &[u8], wirings: &[&[u8]]) -> bool {
    wirings.iter().any(|other| *other == pins)
}

// The number of a part on a shelf. It does not rise with the slots.
fn number_of(k: usize) -> u32 {
    9999 - (k % 64 * 37 % 64 * 150) as u32
}

impl<'a> Comparison<'a> {
    // What the rows do.
    fn codes<R: Kind>(&self, rows: &[R]) -> Result<Vec<u16>> {
        Ok(rows.iter().map(|row| row.code()).collect(self.rt.alloc())?)
    }

    // The wirings under which rows of so many inputs agree.
    fn agreeing<R: Kind>(&self, n: usize, card: &[R], part: &[R]) -> Result<Vec<&'a [u8]>> {
        let (card, part, all) = (self.codes(card)?, self.codes(part)?, self.wirings.get(n));
        let wirings = all.ok_or(ErrorKind::InvalidInput)?;
        Ok(wirings.agreeing(self.rt.alloc(), card.as_slice(), part.as_slice())?)
    }

    // Counts a difference where something does not hold, and prints it with what the rows do.
    fn check<R: Kind>(&mut self, card: &[R], part: &[R], name: &str, holds: bool) -> Result<()> {
        if holds {
            return Ok(());
        }
        let (card, part) = (self.codes(card)?, self.codes(part)?);
        add(&mut self.totals.differences, 1);
        println!(self.rt; "{name} differs: card {card:?}, part {part:?}")
    }

    // Compares the search helped by a pile, and the spread of the pile.
    fn by<R: Kind, P: Signature<R>>(&mut self, pair: Pair<R>, name: &str, pile: &P) -> Result<()> {
        let Pair(card, part, agreeing) = pair;
        let finds = is_wiring(wiring_by(pile, card, part), agreeing.first());
        let bounds = spread_by(pile, card, part) as usize >= agreeing.len();
        self.check(card.rows, part.rows, name, finds && bounds)
    }

    // Compares the search with no pair struck and with some, which are drawn.
    fn search<R: Kind>(&mut self, pair: Pair<R>) -> Result<()> {
        let Pair(card, part, agreeing) = pair;
        let mut strikes = Strikes::none();
        let holds = is_wiring(first_wiring(card, part, &strikes), agreeing.first());
        self.check(card.rows, part.rows, "the search", holds)?;
        for _ in 0..self.random.below(card.inputs + 2) {
            let input = self.random.below(card.inputs + 1);
            strikes.strike(input, self.random.below(card.inputs + 1));
        }
        let mut wirings = agreeing.iter();
        let due = wirings.find(|pins| !uses_struck(pins, &strikes));
        add(&mut self.totals.searches_with_strikes, 1);
        add(&mut self.totals.of_these_found, usize::from(due.is_some()));
        let holds = is_wiring(first_wiring(card, part, &strikes), due);
        self.check(card.rows, part.rows, "the search with strikes", holds)
    }

    // Compares all that is asked of a card and a part; the row check at the first agreeing wiring or at one that is drawn.
    fn pair<R: Kind>(&mut self, pair: Pair<R>) -> Result<()> {
        let Pair(card, part, agreeing) = pair;
        let agree = !agreeing.is_empty();
        let open = !agree && spread_by(&STANDARD_PILE, card, part) > 0;
        add(&mut self.totals.pairs, 1);
        add(&mut self.totals.pairs_that_agree, usize::from(agree));
        add(&mut self.totals.others_left_open, usize::from(open));
        self.search(pair)?;
        self.by(pair, "cofactor", &Cofactor)?;
        self.by(pair, "breakup", &Breakup)?;
        self.by(pair, "neighbour", &Neighbour)?;
        self.by(pair, "refined cofactor", &Refined(Cofactor))?;
        self.by(pair, "the standard pile", &STANDARD_PILE)?;
        let wiring = match agreeing.first() {
            Some(pins) if self.random.below(2) == 0 => granted(Wiring::new(card.inputs, pins))?,
            _ => self.random.wiring(card.inputs),
        };
        let passes = agrees(card, part, &wiring);
        add(&mut self.totals.row_checks_passed, usize::from(passes));
        let holds = passes == is_among(wiring.pins(), agreeing);
        self.check(card.rows, part.rows, "the row check", holds)
    }

    // Compares the classes of a table's inputs: two are of one class when the table agrees with itself under the wiring
    // that exchanges them.
    fn classes<R: Kind>(&mut self, table: &Table<R>) -> Result<()> {
        let agreeing = self.agreeing(table.inputs, table.rows, table.rows)?;
        add(&mut self.totals.tables_classed, 1);
        for (input, &class) in classes_of(table)[..table.inputs].iter().enumerate() {
            let mut due = input;
            for lower in (0..input).rev() {
                let mut pins = [0, 1, 2, 3, 4, 5, 6, 7, 8, 9];
                pins.swap(lower, input);
                if is_among(&pins[..table.inputs], agreeing.as_slice()) {
                    due = lower;
                }
            }
            self.check(table.rows, table.rows, "a class", usize::from(class) == due)?;
        }
        Ok(())
    }

    /// Compares each card with each of at most 60 parts, and what a shelf of these parts answers. Each part is entered
    /// under the lowest number as well, and dropped.
    pub fn shelf<R: Kind>(&mut self, parts: &[Vec<R>], cards: &[Vec<R>]) -> Result<()> {
        let mut memory = vec![in self.rt.alloc(); R::row(0); 65536]?;
        let mut shelf = granted(Shelf::open(64))?;
        let mut tables = Vec::new(self.rt.alloc());
        for (k, rows) in parts.iter().enumerate() {
            let (rows, memory, number) = (rows.as_slice(), memory.as_mut_slice(), number_of(k));
            let part = granted(table_of(rows))?;
            self.classes(&part)?;
            granted(shelf.enter(memory, 1, part.inputs, rows))?;
            granted(shelf.enter(memory, number, part.inputs, rows))?;
            granted(shelf.drop_part(memory, 1))?;
            tables.push(part)?;
        }
        let (memory, pile) = (memory.as_slice(), &STANDARD_PILE);
        for rows in cards {
            let (card, rows) = (&granted(table_of(rows.as_slice()))?, rows.as_slice());
            let (n, mut lowest, mut first) = (card.inputs, None, None);
            for (k, part) in tables.iter().enumerate() {
                let (wirings, number) = (self.agreeing(n, rows, part.rows)?, number_of(k));
                let agreeing = wirings.as_slice();
                self.pair(Pair(card, part, agreeing))?;
                let spread = granted(shelf.spread(memory, number, n, rows, pile))? as usize;
                let holds = spread >= agreeing.len();
                self.check(rows, part.rows, "the shelf's spread", holds)?;
                if !agreeing.is_empty() && lowest.is_none_or(|lowest| number < lowest) {
                    (lowest, first) = (Some(number), agreeing.first().copied());
                }
            }
            let fit = shelf.fit(memory, n, rows, pile);
            let holds = match (&fit, first) {
                (Ok(fit), Some(pins)) => Some(fit.number()) == lowest
                    && fit.wiring().pins() == pins,
                (Err(refusal), None) => *refusal == Refusal::NoPartAgrees,
                _ => false,
            };
            add(&mut self.totals.fits, 1);
            add(&mut self.totals.of_these_refused, usize::from(fit.is_err()));
            for part in tables.iter() {
                self.check(rows, part.rows, "a fit to such parts", holds)?;
            }
        }
        Ok(())
    }
}
