// Devices over memory.

ghost use Rattle.std.specs.Prelude.{◌≡◌, Some, []};

use crate::device::{ByteSink, ByteSource, Failed};
use std::alloc::Global;

/// A source over bytes in memory. It can be made to fail at one of its reads.
#[derive(Drop)]
pub struct MemorySource<'a> {
    rest: &'a [u8],
    fails_in: u64,
    failures: u64,
}

impl<'a> MemorySource<'a> {
    /// These bytes; the read number `fails_in`, counted from 0, fails.
    pub fn failing_in(bytes: &'a [u8], fails_in: u64) -> MemorySource<'a>
        ensures rest { result.rest.now ≡ bytes.now }
        ensures failures { result.failures ≡ 0 }
    {
        MemorySource {
            rest: bytes,
            fails_in,
            failures: 0,
        }
    }

    /// These bytes.
    pub fn new(bytes: &'a [u8]) -> MemorySource<'a>
        ensures rest { result.rest.now ≡ bytes.now }
        ensures failures { result.failures ≡ 0 }
    {
        MemorySource::failing_in(bytes, u64::MAX)
    }

    /// How many reads have failed.
    pub fn failures(&self) -> u64
        ensures { result ≡ self.now.failures }
    {
        self.failures
    }
}

impl<'a> ByteSource for MemorySource<'a> {
    ghost rest = { λ s. Some s.rest.now };

    ghost failures = { λ s. s.failures };

    fn read(&mut self, buffer: &mut [u8]) -> Result<usize, Failed> {
        let fails = self.fails_in == 0;
        self.fails_in = self.fails_in.wrapping_sub(1);
        if fails {
            self.failures += 1;
            return Err(Failed);
        }
        let count = buffer.len().min(self.rest.len());
        let (first, rest) = self.rest.split_at(count);
        buffer[..count].copy_from_slice(first);
        self.rest = rest;
        Ok(count)
    }
}

/// A sink into memory. It can be made to take a few bytes at a time, and to fail at one of its writes and flushes. It also fails
/// where memory is refused.
#[derive(Drop)]
pub struct MemorySink {
    written: Vec<u8>,
    takes: usize,
    fails_in: u64,
    failures: u64,
}

impl MemorySink {
    /// A sink whose writes take at most `takes` bytes, at least one; the write or flush number `fails_in`, counted from 0, fails.
    pub fn failing_in(alloc: Global, takes: usize, fails_in: u64) -> MemorySink
        ensures written { result.written.items ≡ [] }
        ensures failures { result.failures ≡ 0 }
    {
        MemorySink {
            written: Vec::new(alloc),
            takes,
            fails_in,
            failures: 0,
        }
    }

    /// A sink that takes whatever comes.
    pub fn new(alloc: Global) -> MemorySink
        ensures written { result.written.items ≡ [] }
        ensures failures { result.failures ≡ 0 }
    {
        MemorySink::failing_in(alloc, usize::MAX, u64::MAX)
    }

    /// How many writes and flushes have failed.
    pub fn failures(&self) -> u64
        ensures { result ≡ self.now.failures }
    {
        self.failures
    }

    /// What was written.
    pub fn written(&self) -> &[u8]
        ensures { result.now ≡ self.now.written.items }
    {
        self.written.as_slice()
    }

    // Whether this write or flush fails.
    fn fails(&mut self) -> bool
        ensures written { self.new.written ≡ self.old.written }
        ensures failures { self.new.failures ≡ self.old.failures }
    {
        let fails = self.fails_in == 0;
        self.fails_in = self.fails_in.wrapping_sub(1);
        fails
    }
}

impl ByteSink for MemorySink {
    ghost written = { λ s. Some s.written.items };

    ghost failures = { λ s. s.failures };

    fn write(&mut self, bytes: &[u8]) -> Result<usize, Failed> {
        let fails = self.fails();
        let count = bytes.len().min(self.takes.max(1));
        if fails || self.written.extend_from_slice(&bytes[..count]).is_err() {
            self.failures += 1;
            return Err(Failed);
        }
        Ok(count)
    }

    fn flush(&mut self) -> Result<(), Failed> {
        if self.fails() {
            self.failures += 1;
            return Err(Failed);
        }
        Ok(())
    }
}
