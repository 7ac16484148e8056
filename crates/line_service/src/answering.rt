ghost use Rattle.std.specs.Prelude.{◌≡◌, ℕ, ◌*◌, ◌≤◌, [], ◌∷◌, length, take, Ok, IfErr, OnOk, OnErr};
ghost use Rattle.rows.specs.Kinds.{on_off_same};
ghost use Rattle.ledger.specs.Questions.{questions_by};
ghost use Rattle.line_runs.specs.declared.turn.TurnAnswer.TheVariants.{Line};
ghost use Rattle.line_service.specs.Peers.{BreaksWriting};
ghost use Rattle.line_service.specs.Service.{AnswersLine, Says, SaysInPart};

use crate::peer::Peer;
use crate::service_error::ServiceError;
use crate::writing::write_on;
use inventory::Shelf;
use line_runs::{Turn, TurnAnswer};
use rows::OnOff;
use runs::Entry;
use signatures::Signature;

// Every answer has room in so many bytes.
const ROOM: usize = 64;

// How much was written for a line.
fn written(answer: TurnAnswer) -> usize
    requires { (size : ℕ) × (answer ≡ Line (Ok size)) }
    ensures { answer ≡ Line (Ok result) }
{
    match answer {
        TurnAnswer::Line(Ok(size)) => size,
        _ => unreachable!(),
    }
}

// Plays a line, and answers how much was written.
fn play_line<P: Signature<OnOff>>(
    shelf: &mut Shelf,
    memory: &mut [OnOff],
    pile: &P,
    line: &[u8],
    bytes: &mut [u8; ROOM],
) -> usize
    requires { length memory.old ≡ shelf.old.count * 1024 }
    ensures { (result ≤ 64) × AnswersLine (questions_by on_off_same P.Signature.count P.Signature.value) pile.now line.now shelf.old memory.old (take result bytes.new) shelf.new memory.new }
{
    let turn = Turn::Line {
        text: line,
        pile,
        room: ROOM,
    };
    written(turn.play(shelf, memory, bytes, &mut []))
}

/// Writes the text that answers a line.
pub fn say<P: Signature<OnOff>, C: Peer>(
    shelf: &mut Shelf,
    memory: &mut [OnOff],
    pile: &P,
    line: &[u8],
    peer: &mut C,
) -> Result<(), ServiceError>
    requires { length memory.old ≡ shelf.old.count * 1024 }
    ensures said { OnOk result (Says (questions_by on_off_same P.Signature.count P.Signature.value) pile.now C.passes (line.now ∷ []) shelf.old memory.old peer.old shelf.new memory.new peer.new) }
    ensures cut { OnErr result (SaysInPart (questions_by on_off_same P.Signature.count P.Signature.value) pile.now C.passes (line.now ∷ []) shelf.old memory.old peer.old shelf.new memory.new peer.new) }
    ensures end { C.is_at_end peer.old → C.is_at_end peer.new }
    ensures failed { IfErr result (BreaksWriting C.write_fails peer.new) }
{
    let mut bytes = [0; ROOM];
    let size = play_line(shelf, memory, pile, line, &mut bytes);
    write_on(peer, &bytes[..size])
}
