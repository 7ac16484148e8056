ghost use Rattle.std.specs.Prelude.{◌≡◌, ℕ, List, [], ◌++◌, length, take, ⊤};
ghost use Rattle.std.specs.Io.{ReadsAtMost};
ghost use Rattle.std.specs.IoError.{error_kind};
ghost use Rattle.std.specs.declared.io.ErrorKind.TheVariants.{OutOfMemory};
ghost use Rattle.line_service.specs.Transcripts.{transcript_passes};
ghost use Rattle.line_service.specs.Known.{reads_nothing, reads_in_order, writes_nothing, writes_in_order};

use crate::peer::Peer;
use std::alloc::Allocator;
use std::io::{self, Read, Write};

/// Bytes in memory that are read, and what is written after them. Reading them never fails, and writing only where there
/// is no memory.
#[derive(Drop)]
pub struct Transcript<'a, A: Allocator> {
    pub input: &'a [u8],
    pub output: Vec<u8, A>,
}

impl<A: Allocator> Peer for Transcript<'_, A> {
    ghost passes = { transcript_passes };

    ghost is_at_end = { λ script. script.input.now ≡ [] };

    ghost is_flushed = { λ _. ⊤ };

    ghost read_fails = { λ _ _ _. ⊥ };

    ghost write_fails = { λ _ error _. error_kind error ≡ OutOfMemory };

    ghost passes_nothing = { λ script. (reads_nothing script.input.now, writes_nothing script.output.items) };

    ghost passes_in_order = { λ a b c xs ys us vs first then. (
      reads_in_order a.input.now b.input.now c.input.now xs ys first.0 then.0,
      writes_in_order a.output.items b.output.items c.output.items us vs first.1 then.1,
    ) };

    fn read(&mut self, chunk: &mut [u8]) -> io::Result<usize> {
        self.input.read(chunk)
    }

    fn write(&mut self, bytes: &[u8]) -> io::Result<usize> {
        self.output.write(bytes)
    }

    fn flush(&mut self) -> io::Result<()> {
        Ok(())
    }
}
