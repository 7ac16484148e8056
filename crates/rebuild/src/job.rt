use tables::Table;

/// A part of the stock, under its number.
#[derive(Drop)]
pub struct Stocked<'a, R> {
    pub number: u32,
    pub table: Table<'a, R>,
}

/// What there is to rebuild: a burnt card, the stock, and what a sample wired by the fit reads.
#[derive(Drop)]
pub struct Job<'a, 'b, R> {
    pub card: Table<'a, R>,
    pub stock: &'b [Stocked<'a, R>],
    pub readings: &'a [R],
    /// Whether a sample that fails is wired anew, and read once more.
    pub mending: bool,
}
