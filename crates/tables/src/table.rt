ghost use Rattle.std.specs.Prelude.{◌≡◌, ◌^◌, ◌≤◌, length};

mod making;

/// A truth table over lent rows: n inputs, at most ten, and 2^n rows. In row r, input i has the value of bit i of r.
/// `Table::new` makes it and refuses what is none; a literal makes it wherever the two facts are known.
#[derive(Drop)]
pub struct Table<'a, R> {
    pub inputs: usize,
    pub rows: &'a [R],
    ghost few: { inputs ≤ 10 },
    ghost whole: { length rows.now ≡ 2 ^ inputs },
}
