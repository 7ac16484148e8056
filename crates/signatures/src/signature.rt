ghost use Rattle.std.specs.Prelude.{◌≡◌, ℕ, ◌≤◌, List, length};
ghost use Rattle.signatures.specs.Law.{Lawful, given, asked, GivesLists};
ghost use Rattle.signatures.specs.Writing.{AllFree, Written};

use lists::Lists;
use rows::RowKind;
use tables::Table;

/// What tells the inputs of a table apart: at each of its places it answers a number for an input. No signature may tell
/// apart what agrees: the law stands in what `places` promises, so that code over any signature can use it;
/// `fill` hands it on.
pub trait Signature<R: RowKind> {
    ghost count: { Self → ℕ };

    ghost value: { Self → ℕ → List R → ℕ → ℕ → ℕ };

    /// How many places it has.
    fn places(&self) -> usize
        ensures count { result ≡ count self.now }
        ensures few { result ≤ 64 }
        ensures lawful { Lawful (count self.now) (value self.now) R.RowKind.same };

    /// Writes the answers of each input into its list, from a place on and as far as there is room.
    fn write(&self, table: &Table<R>, from: usize, answers: &mut [[u32; 64]; 10])
        requires from { from ≤ 64 }
        requires free { AllFree table.now.inputs from answers.old }
        ensures written { Written table.now.inputs from (given (count self.now) (value self.now) table.now.inputs table.now.rows.now) answers.old answers.new }
        ensures whole { length answers.new ≡ 10 };

    /// Makes these the lists of all inputs, whatever they were. They are lent, since they are long: nothing is copied.
    fn fill(&self, table: &Table<R>, lists: &mut Lists)
        ensures gives { GivesLists (count self.now) (value self.now) table.now.inputs table.now.rows.now lists.new }
        ensures lawful { Lawful (count self.now) (value self.now) R.RowKind.same }
    {
        *lists = Lists::NONE;
        self.write(table, 0, &mut lists.answers);
        lists.inputs = table.inputs;
        lists.places = self.places();
    }

    /// One answer, and 0 where the rows are no table of so many inputs, or there is no such input or place.
    fn answer(&self, inputs: usize, rows: &[R], input: usize, place: usize) -> u32
        ensures { result ≡ asked (count self.now) (value self.now) inputs rows.now input place }
    {
        let Ok(table) = Table::new(inputs, rows) else {
            return 0;
        };
        if input >= inputs || place >= self.places() {
            return 0;
        }
        let mut lists = Lists::NONE;
        self.fill(&table, &mut lists);
        lists.answers[input][place]
    }
}
