ghost use Rattle.std.specs.Prelude.{Some};

use std::fmt;

/// How many inputs and rows a table has.
#[derive(Clone, Copy, PartialEq, Eq, Debug)]
pub struct Size {
    pub inputs: usize,
    pub rows: usize,
}

impl fmt::Display for Size {
    ghost use Rattle.typed_rows.specs.Sizes.{size_text};

    ghost output = { λ size. Some (size_text size) };

    fn fmt<W: fmt::Write>(&self, f: &mut fmt::Formatter<W>) -> fmt::Result {
        let inputs = self.inputs;
        let rows = self.rows;
        write!(f, "{inputs} inputs, {rows} rows")
    }
}
