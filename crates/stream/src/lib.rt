#![tactic(auto)]
// Streams, read to their end and written whole. What was interrupted, or would wait, is tried again; whatever else fails is told.
ghost use Rattle.std.specs.Prelude.{◌≡◌, length, IsOk, OnOk, OnErr};
ghost use Rattle.std.specs.Io.KnownBytes.{Appends, ReadConsumes, WriteAppends};
ghost use Rattle.stream.specs.Stream.{Within, ReadFull, AppendsFront, Tried};

use std::io::{ErrorKind, Read, Write};
use std::{io, thread};

// how often in a row a stream may have nothing to give or to take before it has failed: some seconds
const TRIES: usize = 4_000_000;

// whether an error passes by itself
fn passes(error: &io::Error) -> bool {
    matches!(error.kind(), ErrorKind::Interrupted | ErrorKind::WouldBlock)
}

// one step, tried again while its error passes by itself; others run meanwhile
fn patiently<F: FnMut() -> io::Result<usize>>(step: &mut F) -> io::Result<usize>
    requires { F.IsAlwaysCallable step.old }
    ensures { Tried 4000000 F.step step.old result step.new }
{
    for _tries in 0..TRIES {
        match step() {
            Err(e) if passes(&e) => thread::yield_now(),
            result => return result,
        }
    }
    step()
}

// one read
fn read_some<R: Read>(stream: &mut R, part: &mut [u8]) -> io::Result<usize>
    ensures within { Within (length part.old) result }
    ensures bytes { ReadConsumes (R.remaining stream.old) (R.remaining stream.new) result part.new }
{
    patiently(&mut || stream.read(part))
}

// one write
fn write_some<W: Write>(stream: &mut W, part: &[u8]) -> io::Result<usize>
    ensures within { Within (length part.now) result }
    ensures bytes { WriteAppends (W.contents stream.old) (W.contents stream.new) result part.now }
{
    patiently(&mut || stream.write(part))
}

// reads until the stream ends or the buffer is full; answers how many bytes came
#[tactic(auto, using(crate::proofs::Moving::read_more))]
pub fn read<R: Read>(stream: &mut R, buffer: &mut [u8]) -> io::Result<usize>
    ensures within { Within (length buffer.old) result }
    ensures bytes { ReadFull (R.remaining stream.old) (R.remaining stream.new) result buffer.new }
{
    let mut at = 0;
    // no index is counted: each turn goes on by as many bytes as came
    while at < buffer.len() {
        let n = read_some(stream, &mut buffer[at..])?;
        if n == 0 {
            break;
        }
        at += n;
    }
    Ok(at)
}

// writes all bytes
#[tactic(auto, using(crate::proofs::Moving::written_more))]
pub fn write<W: Write>(stream: &mut W, bytes: &[u8]) -> io::Result<()>
    ensures empty { length bytes.now ≡ 0 → IsOk result }
    ensures whole { OnOk result (Appends (W.contents stream.old) (W.contents stream.new) bytes.now) }
    ensures begun { OnErr result (AppendsFront (W.contents stream.old) (W.contents stream.new) bytes.now) }
{
    let mut rest = bytes;
    // here too, by as many as went
    while !rest.is_empty() {
        let n = write_some(stream, rest)?;
        if n == 0 {
            return Err(io::Error::from(ErrorKind::WriteZero));
        }
        rest = &rest[n..];
    }
    Ok(())
}

#[cfg(test)]
mod tests {
    use super::*;

    // Three bytes, one at a time, and before each an error that passes by itself; or an error that stays, at one of them.
    #[derive(Drop)]
    struct Halting {
        bytes: [u8; 3],
        at: usize,
        halted: bool,
        fails_at: usize,
    }

    impl Halting {
        fn new(fails_at: usize) -> Halting {
            Halting {
                bytes: [0; 3],
                at: 0,
                halted: false,
                fails_at,
            }
        }

        fn halt(&mut self) -> io::Result<()> {
            self.halted = !self.halted;
            if self.halted {
                let passing = if self.at == 1 {
                    ErrorKind::Interrupted
                } else {
                    ErrorKind::WouldBlock
                };
                return Err(io::Error::from(passing));
            }
            if self.at == self.fails_at {
                return Err(io::Error::from(ErrorKind::StorageFull));
            }
            Ok(())
        }
    }

    impl Read for Halting {
        fn read(&mut self, buf: &mut [u8]) -> io::Result<usize> {
            self.halt()?;
            if self.at < 3 && !buf.is_empty() {
                buf[0] = self.bytes[self.at];
                self.at += 1;
                return Ok(1);
            }
            Ok(0)
        }
    }

    impl Write for Halting {
        fn write(&mut self, buf: &[u8]) -> io::Result<usize> {
            self.halt()?;
            if self.at < 3 && !buf.is_empty() {
                self.bytes[self.at] = buf[0];
                self.at += 1;
                return Ok(1);
            }
            Ok(0)
        }

        fn flush(&mut self) -> io::Result<()> {
            Ok(())
        }
    }

    // of what kind the error is, if it is one
    fn error<T: Drop>(answer: io::Result<T>) -> Option<ErrorKind> {
        answer.err().map(|e| e.kind())
    }

    #[test]
    fn passing_errors_are_tried_again(rt: HostRuntime) {
        let mut stream = Halting::new(9);
        assert!(rt; write(&mut stream, b"abc").is_ok());
        assert_eq!(rt; stream.bytes, *b"abc");
        stream.at = 0;
        let mut buffer = [0u8; 8];
        assert_eq!(rt; read(&mut stream, &mut buffer).ok(), Some(3));
        assert_eq!(rt; buffer, *b"abc\0\0\0\0\0");
    }

    #[test]
    fn other_errors_are_told(rt: HostRuntime) {
        let mut stream = Halting::new(2);
        assert_eq!(rt;
            error(write(&mut stream, b"abc")),
            Some(ErrorKind::StorageFull)
        );
        assert_eq!(rt; stream.bytes, *b"ab\0");
        stream.at = 0;
        stream.halted = false;
        assert_eq!(rt;
            error(read(&mut stream, &mut [0u8; 8])),
            Some(ErrorKind::StorageFull)
        );
    }

    // never has anything, and counts how often it is asked
    #[derive(Drop)]
    struct Waiting {
        asked: u64,
    }

    impl Read for Waiting {
        fn read(&mut self, _buf: &mut [u8]) -> io::Result<usize> {
            self.asked = self.asked.wrapping_add(1);
            Err(io::Error::from(ErrorKind::WouldBlock))
        }
    }

    #[test]
    fn tries_are_bounded(rt: HostRuntime) {
        let mut stream = Waiting { asked: 0 };
        assert_eq!(rt;
            error(read(&mut stream, &mut [0u8; 8])),
            Some(ErrorKind::WouldBlock)
        );
        assert_eq!(rt; stream.asked, 4000001);
    }
}
