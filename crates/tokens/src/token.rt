/// The single characters of a line that stand for themselves.
#[derive(Clone, Copy, PartialEq, Eq, Debug)]
pub enum Sign {
    Open,
    Close,
    Space,
    Newline,
}

/// The words of the forms.
#[derive(Clone, Copy, PartialEq, Eq, Debug)]
pub enum Word {
    Part,
    Drop,
    Card,
    Pins,
    Rows,
    Wire,
    To,
}

/// A part of a line, and the place in the line where it starts. Whether digits are a number or rows depends on where they
/// stand, so a cursor is asked for the one or the other.
#[derive(Clone, Copy, Debug)]
pub enum Token<'a> {
    Sign {
        sign: Sign,
        at: usize,
    },
    Word {
        word: Word,
        at: usize,
    },
    Number {
        value: u32,
        run: &'a [u8],
        at: usize,
    },
    Rows {
        run: &'a [u8],
        at: usize,
    },
}
