ghost use Rattle.std.specs.Prelude.{◌≡◌, ℕ, [], length, take, Ok, IfOk, IfErr, ⊤};
ghost use Rattle.std.specs.Io.{ReadsAtMost};
ghost use Rattle.std.specs.IoError.{error_kind};
ghost use Rattle.std.specs.declared.io.ErrorKind.TheVariants.{OutOfMemory};
ghost use Rattle.std.specs.Io.Buffered.{writer_contents, writer_buffer, writer_inner};
ghost use Rattle.std.specs.Io.KnownBytes.{Consumes, Appends, IsAtEnd};
ghost use Rattle.line_service.specs.Known.{consumes_nothing, consumes_append, appends_nothing, appends_append};

use crate::peer::Peer;
use std::alloc::{Allocator, Global};
use std::io::{self, BufWriter, ErrorKind, Read, Write};

/// A reader and a writer as a peer. What is written may be held back until it is flushed.
#[derive(Drop)]
pub struct Streams<R, W: Write + Drop, A: Allocator = Global> {
    input: R,
    output: BufWriter<W, A>,
}

impl<R: Read + Drop, W: Write + Drop, A: Allocator> Streams<R, W, A> {
    /// A peer to which nothing has been written yet. It needs memory for what is held back.
    pub fn new(alloc: A, input: R, output: W) -> io::Result<Streams<R, W, A>>
        ensures input { IfOk result (λ streams. streams.input ≡ input) }
        ensures output { IfOk result (λ streams. writer_inner streams.output ≡ output) }
        ensures empty { IfOk result (λ streams. writer_buffer streams.output ≡ []) }
        ensures failed { IfErr result (λ error. error_kind error ≡ OutOfMemory) }
    {
        let output = BufWriter::new(alloc, output)?;
        Ok(Streams { input, output })
    }

    /// The reader, the writer, and what is still held back for it.
    pub fn into_parts(self) -> (R, W, Vec<u8, A>)
        ensures input { result.0 ≡ self.input }
        ensures output { result.1 ≡ writer_inner self.output }
        ensures held { result.2.items ≡ writer_buffer self.output }
    {
        let (output, held) = self.output.into_parts();
        (self.input, output, held)
    }
}

impl<R: Read, W: Write + Drop, A: Allocator> Peer for Streams<R, W, A> {
    ghost passes = { λ a xs us b.
        Consumes (R.remaining a.input) (R.remaining b.input) xs
        × Appends (writer_contents W.contents a.output) (writer_contents W.contents b.output) us };

    ghost is_at_end = { λ streams. IsAtEnd (R.remaining streams.input) };

    ghost is_flushed = { λ streams. writer_buffer streams.output ≡ [] };

    ghost read_fails = { λ _ _ _. ⊤ };

    ghost write_fails = { λ _ _ _. ⊤ };

    ghost passes_nothing = { λ streams. (consumes_nothing (R.remaining streams.input), appends_nothing (writer_contents W.contents streams.output)) };

    ghost passes_in_order = { λ a b c xs ys us vs first then. (
      consumes_append (R.remaining a.input) (R.remaining b.input) (R.remaining c.input) xs ys first.0 then.0,
      appends_append (writer_contents W.contents a.output) (writer_contents W.contents b.output) (writer_contents W.contents c.output) us vs first.1 then.1,
    ) };

    fn read(&mut self, chunk: &mut [u8]) -> io::Result<usize> {
        self.input.read(chunk)
    }

    fn write(&mut self, bytes: &[u8]) -> io::Result<usize> {
        let count = self.output.write(bytes)?;
        if count == 0 && !bytes.is_empty() {
            return Err(ErrorKind::WriteZero.into());
        }
        Ok(count)
    }

    fn flush(&mut self) -> io::Result<()> {
        self.output.flush()
    }
}
