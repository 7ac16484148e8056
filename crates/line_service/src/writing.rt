ghost use Rattle.std.specs.Prelude.{◌≡◌, ◌<◌, ◌≤◌, ℕ, [], length, take, IfOk, IfErr, OnOk, OnErr};
ghost use Rattle.std.specs.Io.{WritesAtMost};
ghost use Rattle.line_service.specs.Peers.{passed, BreaksWriting};

use crate::peer::Peer;
use crate::service_error::ServiceError;
use std::io::ErrorKind;

// Writes, and writes again where a signal interrupts it.
fn write_some<C: Peer>(peer: &mut C, bytes: &[u8]) -> Result<usize, ServiceError>
    ensures bound { WritesAtMost result bytes.now }
    ensures some { IfOk result (λ count. 0 < length bytes.now → 0 < count) }
    ensures bytes { C.passes peer.old [] (passed result bytes.now) peer.new }
    ensures end { C.is_at_end peer.old → C.is_at_end peer.new }
    ensures failed { IfErr result (BreaksWriting C.write_fails peer.new) }
{
    for _ in 0..u64::MAX {
        match peer.write(bytes) {
            Ok(count) => return Ok(count),
            Err(error) if error.kind() == ErrorKind::Interrupted => {}
            Err(error) => return Err(ServiceError::Writing(error)),
        }
    }
    Err(ServiceError::Writing(ErrorKind::TimedOut.into()))
}

/// Writes all of the bytes, or a front of them where a write fails.
pub fn write_on<C: Peer>(peer: &mut C, bytes: &[u8]) -> Result<(), ServiceError>
    ensures end { C.is_at_end peer.old → C.is_at_end peer.new }
    ensures whole { OnOk result (C.passes peer.old [] bytes.now peer.new) }
    ensures part { OnErr result ((count : ℕ) × (count ≤ length bytes.now) × C.passes peer.old [] (take count bytes.now) peer.new) }
    ensures failed { IfErr result (BreaksWriting C.write_fails peer.new) }
{
    let mut written = 0;
    while written < bytes.len() {
        written += write_some(peer, &bytes[written..])?;
    }
    Ok(())
}

/// Flushes, and flushes again where a signal interrupts it.
pub fn flush_on<C: Peer>(peer: &mut C) -> Result<(), ServiceError>
    ensures bytes { C.passes peer.old [] [] peer.new }
    ensures end { C.is_at_end peer.old → C.is_at_end peer.new }
    ensures flushed { OnOk result (C.is_flushed peer.new) }
    ensures failed { IfErr result (BreaksWriting C.write_fails peer.new) }
{
    for _ in 0..u64::MAX {
        match peer.flush() {
            Ok(()) => return Ok(()),
            Err(error) if error.kind() == ErrorKind::Interrupted => {}
            Err(error) => return Err(ServiceError::Writing(error)),
        }
    }
    Err(ServiceError::Writing(ErrorKind::TimedOut.into()))
}
