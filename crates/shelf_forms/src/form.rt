/// What a line asks of a shelf. The rows are the digits 0 and 1 of the line, row 0 first.
#[derive(Clone, Copy, Debug)]
pub enum Form<'a> {
    Part {
        number: u32,
        inputs: usize,
        rows: &'a [u8],
    },
    Drop {
        number: u32,
    },
    Card {
        inputs: usize,
        rows: &'a [u8],
    },
}
