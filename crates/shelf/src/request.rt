ghost use Rattle.std.specs.Prelude.{map, string_bytes};
ghost use Rattle.shelf.specs.Requests.{Asks};

use programs::asks_for_help;

/// What `--help` prints.
pub const USAGE: &str = "usage: shelf

Keeps a shelf of 16 parts with on/off rows. Reads lines from standard input and answers each on standard output.

  (part N (pins n) (rows b))   enters part N, from 1 to 9999: n inputs, n at most 10, and its 2^n rows b, digits 0
                               and 1, row 0 first; in row r, input i has the value of bit i of r
  (drop N)                     drops part N
  (card (pins n) (rows b))     asks which part can stand in for this card

  (ok)                                     entered or dropped
  (fit N (to w(0) w(1) ..) (struck k))     part N stands in for the card: input 0 goes to pin w(0), and so on;
                                           signatures tell k pairs of input and pin apart
  (no R)                                   refused:
      1 no line of these forms   2 not a part's number   3 too many inputs   4 not 2^n rows
      7 the number stands        8 the shelf is full     9 the number does not stand
     10 no part can stand in for the card

example: printf '(part 30 (pins 1) (rows 01))\\n(card (pins 1) (rows 01))\\n' | shelf";

/// What the program is asked.
#[derive(Clone, Copy)]
pub enum Request {
    Help,
    Serve,
}

impl Request {
    /// The request that the arguments make, if they make one.
    pub fn of(args: &[String]) -> Option<Request>
        ensures { Asks (map string_bytes args.now) result }
    {
        match args {
            [] => Some(Request::Serve),
            _ if asks_for_help(args) => Some(Request::Help),
            _ => None,
        }
    }
}
