ghost use Rattle.std.specs.Prelude.{◌≡◌, ◌*◌, length, IfErr, OnOk, OnErr};
ghost use Rattle.rows.specs.Kinds.{on_off_same};
ghost use Rattle.ledger.specs.Questions.{questions_by};
ghost use Rattle.line_service.specs.Lines.{last};
ghost use Rattle.line_service.specs.Peers.{BreaksWriting};
ghost use Rattle.line_service.specs.Service.{Says, SaysInPart, Serves, ServesNot, LongLinesAreNoForm};

use crate::answering::say;
use crate::begun::Begun;
use crate::hearing::hear;
use crate::peer::Peer;
use crate::reading::read_on;
use crate::service_error::ServiceError;
use crate::writing::flush_on;
use inventory::Shelf;
use rows::OnOff;
use signatures::Signature;

// A line that the end breaks off is answered too.
fn say_last<P: Signature<OnOff>, C: Peer>(
    shelf: &mut Shelf,
    memory: &mut [OnOff],
    pile: &P,
    begun: &Begun,
    peer: &mut C,
) -> Result<(), ServiceError>
    requires { length memory.old ≡ shelf.old.count * 1024 }
    ensures said { OnOk result (Says (questions_by on_off_same P.Signature.count P.Signature.value) pile.now C.passes (last begun.now) shelf.old memory.old peer.old shelf.new memory.new peer.new) }
    ensures cut { OnErr result (SaysInPart (questions_by on_off_same P.Signature.count P.Signature.value) pile.now C.passes (last begun.now) shelf.old memory.old peer.old shelf.new memory.new peer.new) }
    ensures end { C.is_at_end peer.old → C.is_at_end peer.new }
    ensures failed { IfErr result (BreaksWriting C.write_fails peer.new) }
{
    let line = begun.as_bytes();
    if line.is_empty() {
        return Ok(());
    }
    say(shelf, memory, pile, line, peer)
}

/// Opens a shelf and is talked to in lines: does what each line asks, and writes its answer. What has been answered is out
/// before more is read, so that a person at a terminal sees each answer as the line comes.
pub fn serve<P: Signature<OnOff>, C: Peer>(
    slots: usize,
    memory: &mut [OnOff],
    pile: &P,
    peer: &mut C,
) -> Result<(), ServiceError>
    ensures served { OnOk result (Serves (questions_by on_off_same P.Signature.count P.Signature.value) pile.now C.passes C.is_at_end C.is_flushed C.read_fails C.write_fails slots memory.old peer.old memory.new peer.new) }
    ensures refused { IfErr result (ServesNot (questions_by on_off_same P.Signature.count P.Signature.value) pile.now C.passes C.is_at_end C.is_flushed C.read_fails C.write_fails slots memory.old peer.old memory.new peer.new) }
{
    let mut shelf = Shelf::open(slots)?;
    shelf.check_memory(memory)?;
    let mut begun = Begun::empty();
    let mut chunk = [0; 4096];
    for _ in 0..u64::MAX {
        flush_on(peer)?;
        let count = read_on(peer, &mut chunk)?;
        if count == 0 {
            say_last(&mut shelf, memory, pile, &begun, peer)?;
            return flush_on(peer);
        }
        hear(&mut shelf, memory, pile, &mut begun, &chunk[..count], peer)?;
    }
    Err(ServiceError::TooLong)
}

/// A line of which 1,101 bytes are kept is read as the whole line is.
pub fn long_lines_are_no_form<P>()
    ensures { LongLinesAreNoForm P }
{}
