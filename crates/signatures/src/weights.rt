ghost use Rattle.std.specs.Prelude.{◌≡◌, ℕ, ◌^◌, ◌<◌, Bool, if◌then◌else◌, ◌==◌};
ghost use Rattle.tables.specs.Agreement.{bit};
ghost use Rattle.tables.specs.Sums.{sum_to};
ghost use Rattle.signatures.specs.Values.{weight_at};

use rows::RowKind;
use tables::Table;

// Whether an input is on in a row, by the row's number.
pub(crate) fn is_on(row: usize, input: usize) -> bool
    requires { input < 64 }
    ensures { result ≡ (bit input row == 1) }
{
    (row >> input) % 2 == 1
}

// The sum of the weights over the rows that are picked by their number. Each weight is read, so that the loop has no branch.
pub(crate) fn weight_where<R: RowKind, F: Fn(usize) -> bool>(table: &Table<R>, is_picked: F) -> u32
    requires { (r : ℕ) → r < 2 ^ table.now.inputs → F.pre is_picked r }
    ensures { (picked : ℕ → Bool) → ((r : ℕ) (b : Bool) → r < 2 ^ table.now.inputs → F.post is_picked r b → b ≡ picked r) → result ≡ sum_to (2 ^ table.now.inputs) (λ r. if picked r then weight_at R.RowKind.weight table.now.rows.now r else 0) }
{
    let mut sum = 0;
    for (r, row) in table.rows.iter().enumerate() {
        let weight = row.weight() as u32;
        sum += weight * u32::from(is_picked(r));
    }
    sum
}
