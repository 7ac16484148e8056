ghost use Rattle.rows.specs.Kinds.{on_off_same};
ghost use Rattle.ledger.specs.Questions.{questions_by};
ghost use Rattle.runs.specs.Entries.{OneCall, OneWriting, bytes_kind, words_kind};
ghost use Rattle.line_runs.specs.Turns.{turn_kind};

use rows::OnOff;
use signatures::Signature;

/// The law of runs leaves nothing open where lines stand among the calls: a line is one call, and on a shelf just opened
/// there is one list of answers and one way to write them.
pub fn law_fixes_lines<P: Signature<OnOff>>()
    ensures call { OneCall (turn_kind P) }
    ensures writing { OneWriting (questions_by on_off_same P.Signature.count P.Signature.value) (turn_kind P) (bytes_kind (turn_kind P)) }
    ensures words { OneWriting (questions_by on_off_same P.Signature.count P.Signature.value) (turn_kind P) (words_kind (turn_kind P)) }
{}
