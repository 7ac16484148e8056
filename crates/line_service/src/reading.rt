ghost use Rattle.std.specs.Prelude.{◌≡◌, ◌<◌, [], length, Ok, IfErr};
ghost use Rattle.std.specs.Io.{ReadsAtMost};
ghost use Rattle.line_service.specs.Peers.{passed, BreaksReading};

use crate::peer::Peer;
use crate::service_error::ServiceError;
use std::io::ErrorKind;

/// Reads, and reads again where a signal interrupts it.
pub fn read_on<C: Peer>(peer: &mut C, chunk: &mut [u8]) -> Result<usize, ServiceError>
    requires { C.is_flushed peer.old }
    ensures bound { ReadsAtMost result chunk.new }
    ensures bytes { C.passes peer.old (passed result chunk.new) [] peer.new }
    ensures end { result ≡ Ok 0 → 0 < length chunk.old → C.is_at_end peer.new }
    ensures flushed { C.is_flushed peer.new }
    ensures failed { IfErr result (BreaksReading C.read_fails peer.new) }
{
    for _ in 0..u64::MAX {
        match peer.read(chunk) {
            Ok(count) => return Ok(count),
            Err(error) if error.kind() == ErrorKind::Interrupted => {}
            Err(error) => return Err(ServiceError::Reading(error)),
        }
    }
    Err(ServiceError::Reading(ErrorKind::TimedOut.into()))
}
