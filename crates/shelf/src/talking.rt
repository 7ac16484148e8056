ghost use Rattle.std.specs.Prelude.{IfErr, OnOk};
ghost use Rattle.line_service.specs.Service.{Serves, ServesNot};
ghost use Rattle.shelf.specs.Standard.{standard_questions};

use line_service::{Peer, ServiceError, serve};
use rows::OnOff;
use signatures::STANDARD_PILE;

/// How many parts the shelf can hold.
pub const SLOTS: usize = 16;

/// Holds a conversation in lines: on a shelf of 16 slots, with the standard pile.
pub fn talk<C: Peer>(memory: &mut [OnOff; SLOTS * 1024], peer: &mut C) -> Result<(), ServiceError>
    ensures served { OnOk result (Serves standard_questions STANDARD_PILE C.passes C.is_at_end C.is_flushed C.read_fails C.write_fails 16 memory.old peer.old memory.new peer.new) }
    ensures refused { IfErr result (ServesNot standard_questions STANDARD_PILE C.passes C.is_at_end C.is_flushed C.read_fails C.write_fails 16 memory.old peer.old memory.new peer.new) }
{
    serve(SLOTS, memory, &STANDARD_PILE, peer)
}
