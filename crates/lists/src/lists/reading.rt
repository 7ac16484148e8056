ghost use Rattle.std.specs.Prelude.{◌≡◌, ◌≤◌, drop, Decides};
ghost use Rattle.lists.specs.Lists.{list, lists, equal};
ghost use Rattle.lists.specs.Spread.{times};

use crate::lists::Lists;

impl Lists {
    /// The list of an input. Past the last input it is empty.
    pub fn list(&self, input: usize) -> &[u32]
        ensures { result.now ≡ list self.now input }
    {
        if input < self.inputs {
            &self.answers[input][..self.places]
        } else {
            &[]
        }
    }

    /// Whether the list of an input equals the list of another table's pin. Lists of different lengths are unequal.
    pub fn is_equal(&self, input: usize, other: &Lists, pin: usize) -> bool
        ensures value { result ≡ equal (list self.now input) (list other.now pin) }
        ensures decides { Decides result (list self.now input ≡ list other.now pin) }
    {
        self.list(input) == other.list(pin)
    }

    // How often a list occurs among the inputs from `from` on.
    pub(crate) fn times(&self, sought: &[u32], from: usize) -> usize
        ensures count { result ≡ times sought.now (drop from (lists self.now)) }
        ensures few { result ≤ self.now.inputs }
    {
        (from..self.inputs)
            .filter(|&input| sought == self.list(input))
            .count()
    }
}
