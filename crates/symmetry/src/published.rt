ghost use Rattle.symmetry.specs.Published.{ExchangedByBits, Invariant, CofactorsSame, AgreesWithItself, Equivalence, ClassesTell};

use rows::RowKind;

/// Inputs are symmetric exactly when exchanging the two variables leaves the function the same, as it is published, and
/// that is exactly when the two mixed cofactors are the same. It is an equivalence, so inputs have one class exactly when
/// they are symmetric.
pub fn symmetry_is_classical<R: RowKind>()
    ensures bits { ExchangedByBits }
    ensures invariant { Invariant R.RowKind.same }
    ensures cofactors { CofactorsSame R.RowKind.same }
    ensures agreement { AgreesWithItself R.RowKind.same }
    ensures equivalence { Equivalence R.RowKind.same }
    ensures classes { ClassesTell R.RowKind.same }
{}
