ghost use Rattle.std.specs.Prelude.{◌≤◌, length};

mod going;
mod phrases;

/// A line, and a place in it: what comes before the place was gone past, what comes after it is left.
#[derive(Clone, Copy, Debug)]
pub struct Cursor<'a> {
    pub line: &'a [u8],
    pub at: usize,
    ghost within: { at ≤ length line.now },
}
