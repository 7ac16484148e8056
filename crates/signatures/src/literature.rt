ghost use Rattle.signatures.specs.Literature.{CofactorCounts, BreakupCounts, BreakupSums};

use rows::RowKind;

/// At on/off rows cofactor is the cofactor satisfy count and breakup the cofactor breakup, and for every kind of row the
/// answers of breakup sum to that of cofactor.
pub fn literature_stands<R: RowKind>()
    ensures cofactor { CofactorCounts }
    ensures breakup { BreakupCounts }
    ensures sums { BreakupSums R.RowKind.weight }
{}
