ghost use Rattle.std.specs.Prelude.{◌≡◌, ℕ, ◌+◌, ◌^◌, ◌<◌, IsTrue, length, slice_index};
ghost use Rattle.tables.specs.Above.{SumsAbove};
ghost use Rattle.matching.specs.Exchange.{Covered};
ghost use Rattle.matching.specs.Search.{Found};
ghost use Rattle.matching.specs.Fitting.{Fits};

use crate::exchanging::lower_pins;
use crate::sharing::{is_left_out, with_unlike};
use crate::strikes::Strikes;
use rows::RowKind;
use tables::{PartialWiring, Table, Wiring, sums_above, total_weight};

// Whether a card row may be carried to a part row: they are the same, and so are the sums above them. The sums come first,
// since they tell much of what is not yet decided.
fn fits<R: RowKind>(
    card: &Table<R>,
    part: &Table<R>,
    card_sums: &[u32; 1024],
    part_sums: &[u32; 1024],
    row: usize,
    there: usize,
) -> bool
    requires row_in { row < length card.now.rows.now }
    requires there_in { there < length part.now.rows.now }
    ensures { Fits R.RowKind.same card.now part.now card_sums.now part_sums.now row there result }
{
    card_sums[row] == part_sums[there] && card.rows[row].is_same(&part.rows[there])
}

// A search for a wiring of a card to a part, with the sums of their weights above each row, and for each pin the nearest
// lower one that can change places with it. Once the first k inputs have their pins, `carried` holds the part row that
// each of the card rows 0 to 2^k - 1 is carried to.
#[derive(Drop)]
struct Search<'a, R> {
    card: &'a Table<'a, R>,
    part: &'a Table<'a, R>,
    card_sums: &'a [u32; 1024],
    part_sums: &'a [u32; 1024],
    strikes: &'a Strikes,
    lowers: &'a [u8; 10],
    carried: [u16; 1024],
    ghost same_inputs: { card.now.inputs ≡ part.now.inputs },
}

impl<'a, R: RowKind> Search<'a, R> {
    ghost use Rattle.matching.specs.Begun.{Begun, Deciding, Placing, SameSearch, Within};

    // Once an input has its pin, the card rows from 2^input to 2^(input+1) - 1 are decided: each is carried 2^pin
    // further than the row without that bit. Whether each may be carried there.
    fn settle(&mut self, input: usize, pin: usize) -> bool
        requires input_in { input < self.old.card.now.inputs }
        requires pin_in { pin < self.old.card.now.inputs }
        requires targets { (r : ℕ) → r < 2 ^ input → slice_index self.old.carried r + 2 ^ pin < length self.old.part.now.rows.now }
        ensures answer { Deciding R.RowKind.same self.old (2 ^ input) (2 ^ pin) result self.new.carried }
        ensures same { SameSearch (2 ^ input) self.old self.new }
    {
        let half = 1usize << input;
        let worth = 1u16 << pin;
        for r in 0..half {
            let q = self.carried[r] + worth;
            self.carried[half + r] = q;
            if !fits(
                self.card,
                self.part,
                self.card_sums,
                self.part_sums,
                half + r,
                q as usize,
            ) {
                return false;
            }
        }
        true
    }

    // Gives the next input a pin, if it can have it, the pair is not struck and no row or sum that this decides differs.
    // The rows are looked at before the longer wiring is made, since most pins end there.
    fn place(&mut self, begun: &PartialWiring, pin: u8) -> Option<PartialWiring>
        requires open { begun.now.len < begun.now.inputs }
        requires begun { Begun R.RowKind.same R.RowKind.weight self.old begun.now }
        ensures answer { Placing R.RowKind.same R.RowKind.weight self.old begun.now pin result self.new }
        ensures same { SameSearch (2 ^ begun.now.len) self.old self.new }
    {
        let input = begun.len();
        let at = pin as usize;
        if self.strikes.is_struck(input, at) || !begun.takes(pin) || !self.settle(input, at) {
            return None;
        }
        begun.with(pin)
    }

    // Whether a lower pin that can change places with this one is still free. It was tried before, and gave no wiring: so
    // this one gives none.
    fn is_covered(&self, begun: &PartialWiring, pin: u8) -> bool
        requires begun { Begun R.RowKind.same R.RowKind.weight self.now begun.now }
        requires pin_in { pin < begun.now.inputs }
        ensures { IsTrue result → Covered R.RowKind.same self.now.part.now self.now.strikes.now.struck begun.now pin }
    {
        let lower = self.lowers[pin as usize];
        lower < pin && begun.takes(lower)
    }

    // The first usable wiring among those that begin so, pins rising.
    fn extend(&mut self, begun: &PartialWiring) -> Option<Wiring>
        requires { Begun R.RowKind.same R.RowKind.weight self.old begun.now }
        ensures answer { Within R.RowKind.same self.old begun.now result }
        ensures same { SameSearch (2 ^ begun.now.len) self.old self.new }
    {
        if let Some(wiring) = begun.finish() {
            return Some(wiring);
        }
        for pin in 0..begun.inputs() as u8 {
            if self.is_covered(begun, pin) {
                continue;
            }
            if let Some(longer) = self.place(begun, pin)
                && let Some(wiring) = self.extend(&longer)
            {
                return Some(wiring);
            }
        }
        None
    }
}

/// As `first_wiring`, where the sums above the rows of both tables are at hand.
pub fn first_wiring_by_sums<R: RowKind>(
    card: &Table<R>,
    part: &Table<R>,
    card_sums: &[u32; 1024],
    part_sums: &[u32; 1024],
    strikes: &Strikes,
) -> Option<Wiring>
    requires card_sums { SumsAbove R.RowKind.weight card.now card_sums.now }
    requires part_sums { SumsAbove R.RowKind.weight part.now part_sums.now }
    ensures { Found R.RowKind.same card.now part.now strikes.now.struck result }
{
    if card.inputs != part.inputs {
        return None;
    }
    if !fits(card, part, card_sums, part_sums, 0, 0) {
        return None;
    }
    let strikes = with_unlike(strikes, card.inputs, card_sums, part_sums);
    for number in 0..card.inputs {
        if is_left_out(&strikes, number, card.inputs) {
            return None;
        }
    }
    let lowers = lower_pins(part, part_sums, &strikes);
    let Ok(begun) = PartialWiring::empty(card.inputs) else {
        unreachable()
    };
    let mut search = Search {
        card,
        part,
        card_sums,
        part_sums,
        strikes: &strikes,
        lowers: &lowers,
        carried: [0; 1024],
    };
    search.extend(&begun)
}

/// The first wiring in dictionary order under which card and part agree and which uses no struck pair.
pub fn first_wiring<R: RowKind>(
    card: &Table<R>,
    part: &Table<R>,
    strikes: &Strikes,
) -> Option<Wiring>
    ensures { Found R.RowKind.same card.now part.now strikes.now.struck result }
{
    // Both are far quicker than the sums above every row.
    if card.inputs != part.inputs {
        return None;
    }
    if total_weight(card) != total_weight(part) {
        return None;
    }
    let mut card_sums = [0; 1024];
    let mut part_sums = [0; 1024];
    sums_above(card, &mut card_sums);
    sums_above(part, &mut part_sums);
    first_wiring_by_sums(card, part, &card_sums, &part_sums, strikes)
}
