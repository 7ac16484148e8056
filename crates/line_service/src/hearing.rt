ghost use Rattle.std.specs.Prelude.{◌≡◌, ◌*◌, [], ◌∷◌, length, IfErr, OnOk, OnErr};
ghost use Rattle.rows.specs.Kinds.{on_off_same};
ghost use Rattle.ledger.specs.Questions.{questions_by};
ghost use Rattle.line_service.specs.Peers.{BreaksWriting};
ghost use Rattle.line_service.specs.Service.{Hears, HearsInPart};

use crate::answering::say;
use crate::begun::Begun;
use crate::peer::Peer;
use crate::service_error::ServiceError;
use inventory::Shelf;
use rows::OnOff;
use signatures::Signature;

// Goes on with a byte. Where it ends a line, the line is answered.
fn hear_byte<P: Signature<OnOff>, C: Peer>(
    shelf: &mut Shelf,
    memory: &mut [OnOff],
    pile: &P,
    begun: &mut Begun,
    byte: u8,
    peer: &mut C,
) -> Result<(), ServiceError>
    requires { length memory.old ≡ shelf.old.count * 1024 }
    ensures heard { OnOk result (Hears (questions_by on_off_same P.Signature.count P.Signature.value) pile.now C.passes begun.old (byte ∷ []) shelf.old memory.old peer.old begun.new shelf.new memory.new peer.new) }
    ensures cut { OnErr result (HearsInPart (questions_by on_off_same P.Signature.count P.Signature.value) pile.now C.passes begun.old (byte ∷ []) shelf.old memory.old peer.old shelf.new memory.new peer.new) }
    ensures failed { IfErr result (BreaksWriting C.write_fails peer.new) }
{
    begun.add(byte);
    if byte == b'\n' {
        say(shelf, memory, pile, begun.as_bytes(), peer)?;
        begun.clear();
    }
    Ok(())
}

/// Goes on with some bytes.
pub fn hear<P: Signature<OnOff>, C: Peer>(
    shelf: &mut Shelf,
    memory: &mut [OnOff],
    pile: &P,
    begun: &mut Begun,
    bytes: &[u8],
    peer: &mut C,
) -> Result<(), ServiceError>
    requires { length memory.old ≡ shelf.old.count * 1024 }
    ensures heard { OnOk result (Hears (questions_by on_off_same P.Signature.count P.Signature.value) pile.now C.passes begun.old bytes.now shelf.old memory.old peer.old begun.new shelf.new memory.new peer.new) }
    ensures cut { OnErr result (HearsInPart (questions_by on_off_same P.Signature.count P.Signature.value) pile.now C.passes begun.old bytes.now shelf.old memory.old peer.old shelf.new memory.new peer.new) }
    ensures failed { IfErr result (BreaksWriting C.write_fails peer.new) }
{
    for byte in bytes {
        hear_byte(shelf, memory, pile, begun, *byte, peer)?;
    }
    Ok(())
}
