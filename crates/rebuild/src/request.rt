ghost use Rattle.std.specs.Prelude.{map, string_bytes};
ghost use Rattle.rebuild.specs.Requests.{Asks};

use programs::asks_for_help;

/// What `--help` prints.
pub const USAGE: &str = "usage: rebuild [CARD READINGS N=ROWS..]

Rebuilds a burnt card from stock: enters the parts, fits the card, tries the wiring by the readings of a wired
sample, prints the wiring sheet and reads it back, and says which inputs of the card may be exchanged.

CARD is the rows of a truth table, as digits 0 and 1, row 0 first, and READINGS what the sample reads in these
rows. Each N=ROWS, of which there are 1 to 64, is a part: its number, from 1 to 9999, and its rows.
In row r, input i has the value of bit i of r, so a table of n inputs has 2^n rows; n is at most 10.
With no arguments two repairs are shown, one with rows of on and off and one with drives.

example: rebuild 00110101 00110101 7=0110 12=00011011";

/// What the program is asked.
#[derive(Clone, Copy)]
pub enum Request<'a> {
    Help,
    Examples,
    Repair {
        card: &'a str,
        readings: &'a str,
        stock: &'a [String],
    },
}

impl<'a> Request<'a> {
    /// The request that the arguments make, if they make one.
    pub fn of(args: &'a [String]) -> Option<Request<'a>>
        ensures { Asks (map string_bytes args.now) result }
    {
        match args {
            [] => Some(Request::Examples),
            [card, readings, stock @ ..] if !stock.is_empty() => Some(Request::Repair {
                card: card.as_str(),
                readings: readings.as_str(),
                stock,
            }),
            _ if asks_for_help(args) => Some(Request::Help),
            _ => None,
        }
    }
}
