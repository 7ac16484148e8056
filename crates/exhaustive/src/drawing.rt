ghost use Rattle.std.specs.Prelude.{◌≤◌};

use crate::kind::Kind;
use draws::Random;
use std::io::Result;

/// Which rows of a card that is drawn do the same.
#[derive(Clone, Copy)]
pub enum Style {
    /// Each row is drawn by itself.
    Plain,
    /// Rows with as many of the first four inputs on, and the others alike.
    Symmetric,
    /// A row and its turns: each input takes the value of the one before it.
    Ring,
}

impl Style {
    // The lowest row that does the same as this one.
    fn lowest(self, n: usize, row: usize) -> usize
        requires { n ≤ 6 }
    {
        let (mut lowest, mut turn) = (row, row);
        match self {
            Style::Plain => (),
            Style::Symmetric => lowest = row & 48 | ((1usize << ((row & 15).count_ones() % 8)) - 1),
            Style::Ring => {
                for _ in 0..n {
                    turn = (turn << 1 | turn >> (n - 1)) & ((1usize << n) - 1);
                    lowest = lowest.min(turn);
                }
            }
        }
        lowest
    }

    /// A card of this style with n inputs.
    pub fn card<R: Kind>(self, rt: &HostRuntime, n: usize, random: &mut Random) -> Result<Vec<R>>
        requires { n ≤ 6 }
    {
        let mut rows: Vec<R> = Vec::new(rt.alloc());
        for row in 0..1usize << n {
            let before = rows.get(self.lowest(n, row)).copied();
            rows.push(before.unwrap_or(R::row(random.below(4))))?;
        }
        Ok(rows)
    }

    /// Makes the rows of a card those of a part that agrees with it or nearly does, carried by a wiring that is drawn.
    pub fn wire<R: Kind>(self, n: usize, card: &[R], part: &mut [R], random: &mut Random)
        requires some { 1 ≤ n }
        requires few { n ≤ 6 }
    {
        let (a, b, miss) = (random.below(1 << n), random.below(1 << n), random.below(5));
        let (i, k) = (1usize << random.below(n), 1usize << random.below(n));
        let wiring = random.wiring(n);
        for row in 0..1usize << n {
            let drawn = R::row(random.below(4));
            let from = match miss {
                // Two rows are exchanged, and then with them all rows that do the same in this style.
                0 if row == a => b,
                0 if row == b => a,
                1 if self.lowest(n, row) == self.lowest(n, a) => b,
                1 if self.lowest(n, row) == self.lowest(n, b) => a,
                // Of the four rows that two inputs tell apart, each does what the one with one input turned over did.
                2 if (row ^ a) & (i | k) == row ^ a => row ^ i,
                _ => row,
            };
            if let (Some(value), Some(there)) = (card.get(from), part.get_mut(wiring.carry(row))) {
                // Two rows are drawn anew; the others may do the same by another row.
                let anew = miss == 3 && (row == a || row == b);
                *there = if anew || drawn.code() == value.code() {
                    drawn
                } else {
                    *value
                };
            }
        }
    }
}
