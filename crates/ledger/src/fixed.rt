ghost use Rattle.ledger.specs.Questions.{list_by, questions_by};
ghost use Rattle.ledger.specs.Fixed.{StandOnce, AskingKeeps, OneAnswer, OneTranscript, TenExactly};

use rows::RowKind;
use signatures::Signature;

/// The law of runs leaves nothing open: for a ledger and a call there is one answer, and for a list of calls on a shelf
/// just opened one list of answers; 10 is answered exactly when no standing part serves; each number stands once, and a
/// question changes nothing.
pub fn law_fixes_answers<R: RowKind, P: Signature<R>>()
    ensures once { StandOnce (questions_by R.RowKind.same P.Signature.count P.Signature.value) }
    ensures keeps { AskingKeeps (questions_by R.RowKind.same P.Signature.count P.Signature.value) }
    ensures answer { OneAnswer (questions_by R.RowKind.same P.Signature.count P.Signature.value) }
    ensures transcript { OneTranscript (questions_by R.RowKind.same P.Signature.count P.Signature.value) }
    ensures ten { TenExactly R.RowKind.same (list_by P.Signature.count P.Signature.value) }
{}
