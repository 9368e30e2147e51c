//! A sink over a stream of the system.

ghost use Rattle.std.specs.Prelude.{◌≡◌};
ghost use Rattle.mp_outside.specs.Sink.{told};

use crate::failed::Failed;
use crate::sink::Sink;
use std::io::Write;

/// A sink that writes to a stream, and flushes it after each piece. It tells the bytes that the stream tells.
/// Each error of the stream is a fault, and so is a write that takes none of a piece. (After `u64::MAX` faults,
/// which no run comes to, it could count no more: it then takes what it is given, and tells nothing.)
#[derive(Drop)]
pub struct StreamSink<W> {
    stream: W,
    faults: u64,
}

impl<W: Write> StreamSink<W> {
    /// A sink over this stream.
    pub fn new(stream: W) -> StreamSink<W>
        ensures stream { result.stream ≡ stream }
        ensures faults { result.faults ≡ 0 }
    {
        StreamSink { stream, faults: 0 }
    }
}

impl<W: Write> Sink for StreamSink<W> {
    ghost written = { λ s. told s.faults (W.contents s.stream) };

    ghost faults = { λ s. s.faults };

    fn write(&mut self, piece: &[u8]) -> Result<usize, Failed> {
        if self.faults == u64::MAX {
            return Ok(piece.len());
        }
        let Ok(taken) = self.stream.write(piece) else {
            self.faults += 1;
            return Err(Failed);
        };
        let is_flushed = self.stream.flush().is_ok();
        if !is_flushed || taken == 0 && !piece.is_empty() {
            self.faults += 1;
            return Err(Failed);
        }
        Ok(taken)
    }
}

#[cfg(test)]
mod tests {
    use super::*;
    use crate::{put, put_all};
    use std::test::Fail;

    #[test]
    fn writes_to_its_stream(rt: HostRuntime) -> Result<(), Fail> {
        let mut sink = StreamSink::new(Vec::new(rt.alloc()));
        put_all(&mut sink, &[b"cost 1\n", b"length 1\n"])?;
        assert_eq!(rt; sink.stream.as_slice(), b"cost 1\nlength 1\n".as_slice());
        assert_eq!(rt; sink.faults, 0);
        Ok(())
    }

    #[test]
    fn counts_a_full_stream(rt: HostRuntime) -> Result<(), Fail> {
        let mut room = [0; 4];
        let mut sink = StreamSink::new(room.as_mut_slice());
        assert!(rt; put(&mut sink, b"cost 1\n").is_err());
        assert_eq!(rt; sink.faults, 1);
        Ok(())
    }
}
