// The readers and writers of std as devices.

ghost use Rattle.std.specs.Prelude.{◌≡◌};

use crate::device::{ByteSink, ByteSource, Failed};
use std::io::{ErrorKind, Read, Write};

/// A source over a reader of std, as a file or the standard input.
#[derive(Drop)]
pub struct Reading<R> {
    inner: R,
    failures: u64,
}

impl<R: Read> Reading<R> {
    /// The reader, none of whose reads has failed yet.
    pub fn new(inner: R) -> Reading<R>
        ensures inner { result.inner ≡ inner }
        ensures failures { result.failures ≡ 0 }
    {
        Reading { inner, failures: 0 }
    }
}

impl<R: Read> ByteSource for Reading<R> {
    ghost rest = { λ s. R.remaining s.inner };

    ghost failures = { λ s. s.failures };

    // A read that was interrupted is tried again.
    fn read(&mut self, buffer: &mut [u8]) -> Result<usize, Failed> {
        for _ in 0..u64::MAX {
            match self.inner.read(buffer) {
                Ok(count) => return Ok(count),
                Err(e) => {
                    if e.kind() != ErrorKind::Interrupted {
                        break;
                    }
                }
            }
        }
        self.failures += 1;
        Err(Failed)
    }
}

/// A sink over a writer of std, as a file or the standard output.
#[derive(Drop)]
pub struct Writing<W> {
    inner: W,
    failures: u64,
}

impl<W: Write> Writing<W> {
    /// The writer, none of whose writes has failed yet.
    pub fn new(inner: W) -> Writing<W>
        ensures inner { result.inner ≡ inner }
        ensures failures { result.failures ≡ 0 }
    {
        Writing { inner, failures: 0 }
    }
}

impl<W: Write> ByteSink for Writing<W> {
    ghost written = { λ s. W.contents s.inner };

    ghost failures = { λ s. s.failures };

    // A write that takes nothing has failed, and one that was interrupted is tried again.
    fn write(&mut self, bytes: &[u8]) -> Result<usize, Failed> {
        if bytes.is_empty() {
            return Ok(0);
        }
        for _ in 0..u64::MAX {
            match self.inner.write(bytes) {
                Ok(0) => break,
                Ok(count) => return Ok(count),
                Err(e) => {
                    if e.kind() != ErrorKind::Interrupted {
                        break;
                    }
                }
            }
        }
        self.failures += 1;
        Err(Failed)
    }

    fn flush(&mut self) -> Result<(), Failed> {
        match self.inner.flush() {
            Ok(()) => Ok(()),
            Err(_) => {
                self.failures += 1;
                Err(Failed)
            }
        }
    }
}
