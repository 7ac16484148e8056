ghost use Rattle.std.specs.Prelude.{◌≡◌, true, ⊤};

use line_service::{Peer, ServiceError, answers_to, serve};
use refusals::Refusal;
use rows::OnOff;
use signatures::STANDARD_PILE;
use std::io::{self, ErrorKind, Read};
use std::process::Abort;
use std::test::Fail;

const CALLS: &[u8] = b"(part 30 (pins 1) (rows 01))\n(card (pins 1) (rows 01))\n";

// What a read of a fake peer gives: a stretch of bytes, or a failure.
#[derive(Clone, Copy)]
enum Reading<'a> {
    Gives(&'a [u8]),
    Fails(ErrorKind),
}

// A fake peer. It keeps a log in which a read is '<' and a flush '!', and what is written stands as it is. It takes at
// most so many bytes a write, and fails once no more is left.
#[derive(Drop)]
struct Fake<'a> {
    script: &'a [Reading<'a>],
    log: Vec<u8>,
    stretch: usize,
    left: usize,
    is_out: bool,
}

impl Peer for Fake<'_> {
    ghost passes = { λ _ _ _ _. ⊤ };

    ghost is_at_end = { λ _. ⊤ };

    ghost is_flushed = { λ fake. fake.is_out ≡ true };

    ghost read_fails = { λ _ _ _. ⊤ };

    ghost write_fails = { λ _ _ _. ⊤ };

    ghost passes_nothing = { λ _. tt };

    ghost passes_in_order = { λ _ _ _ _ _ _ _ _ _. tt };

    fn read(&mut self, chunk: &mut [u8]) -> io::Result<usize> {
        self.log.push(b'<')?;
        let [first, rest @ ..] = self.script else {
            return Ok(0);
        };
        self.script = rest;
        match *first {
            Reading::Gives(mut bytes) => bytes.read(chunk),
            Reading::Fails(kind) => Err(kind.into()),
        }
    }

    fn write(&mut self, bytes: &[u8]) -> io::Result<usize> {
        self.is_out = false;
        if self.left == 0 || self.stretch == 0 {
            return Err(ErrorKind::StorageFull.into());
        }
        let count = bytes.len().min(self.stretch).min(self.left);
        self.log.extend_from_slice(&bytes[..count])?;
        self.left -= count;
        Ok(count)
    }

    fn flush(&mut self) -> io::Result<()> {
        self.log.push(b'!')?;
        self.is_out = true;
        Ok(())
    }
}

// How a conversation with a fake peer ends, and its log.
fn talked(
    rt: &HostRuntime,
    script: &[Reading<'_>],
    stretch: usize,
    left: usize,
) -> (Result<(), ServiceError>, Vec<u8>) {
    let mut fake = Fake {
        script,
        log: Vec::new(rt.alloc()),
        stretch,
        left,
        is_out: false,
    };
    let mut memory = [OnOff::Off; 1024];
    let ended = serve(1, &mut memory, &STANDARD_PILE, &mut fake);
    (ended, fake.log)
}

#[test]
fn answers_are_out_before_more_is_read(rt: HostRuntime) -> Result<(), Fail> {
    let script = [
        Reading::Gives(b"(part 30 (pins 1) (rows 01))\n(card (pi"),
        Reading::Gives(b"ns 1) (rows 01))\n"),
        Reading::Gives(b"(drop 30)"),
    ];
    let (ended, log) = talked(&rt, &script, 5, 1000);
    assert!(rt; ended.is_ok());
    assert_eq!(rt;
        log.as_slice(),
        b"!<(ok)\n!<(fit 30 (to 0) (struck 0))\n!<!<(no 1)\n!".as_slice()
    );
    Ok(())
}

#[test]
fn failed_read_in_mid_stream_is_told(rt: HostRuntime) -> Result<(), Fail> {
    let script = [
        Reading::Gives(b"(drop 30)\n(dr"),
        Reading::Fails(ErrorKind::Interrupted),
        Reading::Gives(b"op 31)\n(drop"),
        Reading::Fails(ErrorKind::ConnectionReset),
        Reading::Gives(b" 32)\n"),
    ];
    let (ended, log) = talked(&rt, &script, 64, 1000);
    assert!(rt;
        matches!(&ended, Err(ServiceError::Reading(error)) if error.kind() == ErrorKind::ConnectionReset)
    );
    assert_eq!(rt; log.as_slice(), b"!<(no 9)\n!<<(no 9)\n!<".as_slice());
    Ok(())
}

#[test]
fn failed_write_in_mid_stream_is_told(rt: HostRuntime) -> Result<(), Fail> {
    let script = [Reading::Gives(b"(drop 30)\n(drop 31)\n(drop 32)\n")];
    let (ended, log) = talked(&rt, &script, 4, 10);
    assert!(rt;
        matches!(&ended, Err(ServiceError::Writing(error)) if error.kind() == ErrorKind::StorageFull)
    );
    assert_eq!(rt; log.as_slice(), b"!<(no 9)\n(no".as_slice());
    Ok(())
}

#[test]
fn input_in_memory_is_answered(rt: HostRuntime) -> Result<(), Fail> {
    let mut memory = [OnOff::Off; 1024];
    let text = answers_to(rt.alloc(), 1, &mut memory, &STANDARD_PILE, CALLS).expect(
        &rt, "one slot",
    );
    assert_eq!(rt;
        text.as_slice(),
        b"(ok)\n(fit 30 (to 0) (struck 0))\n".as_slice()
    );
    let refused = answers_to(rt.alloc(), 2, &mut memory, &STANDARD_PILE, CALLS);
    assert!(rt;
        matches!(
            &refused,
            Err(ServiceError::Refused(Refusal::WrongShelfSize))
        )
    );
    Ok(())
}
