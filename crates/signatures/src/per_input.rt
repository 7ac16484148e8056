ghost use Rattle.std.specs.Prelude.{◌≡◌, ℕ, ◌+◌, ◌^◌, ◌<◌, ◌≤◌, List, length, slice_index, slice_set};
ghost use Rattle.signatures.specs.Writing.{AllFree, Written, Appended};

use rows::RowKind;
use tables::Table;

// What is answered for one input at a time.
pub(crate) trait PerInput<R: RowKind> {
    // For a table of so many inputs with these rows, the answer for an input at a place.
    ghost says: { Self → ℕ → List R → ℕ → ℕ → ℕ };

    // Writes the answers for an input into the room that its list has, as far as it goes.
    fn put(&self, table: &Table<R>, input: usize, room: &mut [u32])
        requires input_in { input < table.now.inputs }
        requires free { (p : ℕ) → slice_index room.old p ≡ 0 }
        ensures says { (p : ℕ) → p < length room.old → slice_index room.new p ≡ says self.now table.now.inputs table.now.rows.now input p }
        ensures len { length room.new ≡ length room.old };
}

// Adds at a place, where the room goes so far.
pub(crate) fn add_at(room: &mut [u32], place: usize, amount: u32)
    requires { slice_index room.old place + amount < 2 ^ 32 }
    ensures { room.new ≡ slice_set room.old place (slice_index room.old place + amount) }
{
    if place < room.len() {
        room[place] += amount;
    }
}

// Writes the answers for an input behind the places of its list that stand.
fn append<R: RowKind, S: PerInput<R>>(
    signature: &S,
    table: &Table<R>,
    input: usize,
    from: usize,
    list: &mut [u32; 64],
)
    requires input_in { input < table.now.inputs }
    requires from { from ≤ 64 }
    requires free { (p : ℕ) → from ≤ p → slice_index list.old p ≡ 0 }
    ensures { Appended from (S.PerInput.says signature.now table.now.inputs table.now.rows.now input) list.old list.new }
{
    signature.put(table, input, &mut list[from..]);
}

// Writes the answers of each input into its list, from a place on.
pub(crate) fn write_each<R: RowKind, S: PerInput<R>>(
    signature: &S,
    table: &Table<R>,
    from: usize,
    answers: &mut [[u32; 64]; 10],
)
    requires from { from ≤ 64 }
    requires free { AllFree table.now.inputs from answers.old }
    ensures written { Written table.now.inputs from (S.PerInput.says signature.now table.now.inputs table.now.rows.now) answers.old answers.new }
    ensures whole { length answers.new ≡ 10 }
{
    for (input, list) in answers[..table.inputs].iter_mut().enumerate() {
        append(signature, table, input, from, list);
    }
}
