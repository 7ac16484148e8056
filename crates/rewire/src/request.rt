ghost use Rattle.std.specs.Prelude.{map, string_bytes};
ghost use Rattle.rewire.specs.Requests.{Asks};

use programs::asks_for_help;

/// What `--help` prints.
pub const USAGE: &str = "usage: rewire CARD PART

Finds which pin of a part each input of a card goes to.

CARD and PART are the rows of two truth tables, as digits 0 and 1, row 0 first.
In row r, input i has the value of bit i of r, so a table of n inputs has 2^n rows; n is at most 10.

example: rewire 00110101 00011011";

/// What the program is asked.
#[derive(Clone, Copy)]
pub enum Request<'a> {
    Help,
    Match { card: &'a str, part: &'a str },
}

impl<'a> Request<'a> {
    /// The request that the arguments make, if they make one.
    pub fn of(args: &'a [String]) -> Option<Request<'a>>
        ensures { Asks (map string_bytes args.now) result }
    {
        match args {
            [card, part] => Some(Request::Match {
                card: card.as_str(),
                part: part.as_str(),
            }),
            _ if asks_for_help(args) => Some(Request::Help),
            _ => None,
        }
    }
}
