ghost use Rattle.std.specs.Prelude.{◌≡◌, Bool, ℕ};
ghost use Rattle.rows.specs.Laws.{RowKindLaws};

/// What a row of a table may hold. A kind of row answers two questions, and every kind owes the laws: whatever is built
/// over rows rests on these alone.
pub trait RowKind: Copy {
    ghost same: { Self → Self → Bool };

    ghost weight: { Self → ℕ };

    /// Whether two rows are the same.
    fn is_same(&self, other: &Self) -> bool
        ensures { result ≡ same self.now other.now };

    /// What the row weighs.
    fn weight(&self) -> u8
        ensures { result ≡ weight self.now };

    ghost laws: { RowKindLaws same weight };
}
