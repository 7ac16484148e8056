ghost use Rattle.std.specs.Prelude.{◌≡◌, ℕ, ◌<◌, List, [], length, Ok, IfOk, IfErr, OnOk};
ghost use Rattle.std.specs.Io.{ReadsAtMost, WritesAtMost};
ghost use Rattle.std.specs.declared.io.Error.{Error};
ghost use Rattle.line_service.specs.Peers.{passed, PassesNothing, PassesInOrder};

use std::io;

/// The other end of a conversation: it is read from and written to, and is read only once all that was written to it is out.
pub trait Peer {
    // Calls that began in the first state read and wrote these bytes, and left the second.
    ghost passes: { Self → List ℕ → List ℕ → Self → Type 0 };

    // A read found the end.
    ghost is_at_end: { Self → Type 0 };

    // Nothing that was written is held back.
    ghost is_flushed: { Self → Type 0 };

    // A read in the first state may fail with this error and leave the second.
    ghost read_fails: { Self → Error → Self → Type 0 };

    // The same of writing and flushing.
    ghost write_fails: { Self → Error → Self → Type 0 };

    /// Reads some bytes into the front of the chunk: none where it has found the end.
    fn read(&mut self, chunk: &mut [u8]) -> io::Result<usize>
        requires { is_flushed self.old }
        ensures bound { ReadsAtMost result chunk.new }
        ensures bytes { passes self.old (passed result chunk.new) [] self.new }
        ensures end { result ≡ Ok 0 → 0 < length chunk.old → is_at_end self.new }
        ensures flushed { is_flushed self.new }
        ensures failed { IfErr result (λ error. read_fails self.old error self.new) };

    /// Writes a front of the bytes: at least one byte, if there is one.
    fn write(&mut self, bytes: &[u8]) -> io::Result<usize>
        ensures bound { WritesAtMost result bytes.now }
        ensures some { IfOk result (λ count. 0 < length bytes.now → 0 < count) }
        ensures bytes { passes self.old [] (passed result bytes.now) self.new }
        ensures end { is_at_end self.old → is_at_end self.new }
        ensures failed { IfErr result (λ error. write_fails self.old error self.new) };

    /// Sees to it that nothing that was written is held back.
    fn flush(&mut self) -> io::Result<()>
        ensures bytes { passes self.old [] [] self.new }
        ensures end { is_at_end self.old → is_at_end self.new }
        ensures flushed { OnOk result (is_flushed self.new) }
        ensures failed { IfErr result (λ error. write_fails self.old error self.new) };

    // Where nothing is called, nothing is read and nothing written.
    ghost passes_nothing: { PassesNothing passes };

    // What a call reads or writes comes after what the calls before it did.
    ghost passes_in_order: { PassesInOrder passes };
}
