// Devices that fail at each of their calls in turn.

use hx_device::{MemorySink, MemorySource, ReadError, Reading, Writing, read_all, write_all};
use std::alloc::Global;
use std::io;
use std::io::{Error, ErrorKind, Read, Write};
use std::process::Abort;
use std::test::Fail;

fn read_fails_in(rt: &impl Abort, alloc: Global, bytes: &[u8], fails_in: u64) {
    let mut source = MemorySource::failing_in(bytes, fails_in);
    let read = read_all(alloc, &mut source, 2000);
    assert!(rt; matches!(read, Err(ReadError::Failed)));
    assert_eq!(rt; source.failures(), 1);
}

#[test]
fn reads_to_the_end_or_the_limit(rt: HostRuntime) -> Result<(), Fail> {
    let bytes = vec![in rt.alloc(); 7u8; 1300]?;
    for limit in [0usize, 1, 1299, 1300, 1301] {
        let mut source = MemorySource::new(bytes.as_slice());
        match read_all(rt.alloc(), &mut source, limit) {
            Ok(read) => assert_eq!(&rt; read.len(), limit.min(1300)),
            Err(_) => assert!(&rt; false),
        }
        assert_eq!(&rt; source.failures(), 0);
    }
    Ok(())
}

#[test]
fn tells_of_a_failed_read(rt: HostRuntime) -> Result<(), Fail> {
    let bytes = vec![in rt.alloc(); 7u8; 1300]?;
    for fails_in in 0..4 {
        read_fails_in(&rt, rt.alloc(), bytes.as_slice(), fails_in);
    }
    Ok(())
}

fn write_fails_in(rt: &impl Abort, alloc: Global, takes: usize, fails_in: u64, wanted: &[u8]) {
    let mut sink = MemorySink::failing_in(alloc, takes, fails_in);
    let answer = write_all(&mut sink, b"hello");
    assert!(rt; answer.is_err());
    assert_eq!(rt; sink.written(), wanted);
    assert_eq!(rt; sink.failures(), 1);
}

#[test]
fn tells_of_a_failed_write(rt: HostRuntime) {
    write_fails_in(&rt, rt.alloc(), 2, 0, b"");
    write_fails_in(&rt, rt.alloc(), 2, 1, b"he");
    write_fails_in(&rt, rt.alloc(), 2, 2, b"hell");
    write_fails_in(&rt, rt.alloc(), 2, 3, b"hello");
}

#[test]
fn writes_a_few_bytes_at_a_time(rt: HostRuntime) {
    for takes in 0..7 {
        let mut sink = MemorySink::failing_in(rt.alloc(), takes, 9);
        let answer = write_all(&mut sink, b"hello");
        assert!(&rt; answer.is_ok());
        assert_eq!(&rt; sink.written(), b"hello".as_slice());
        assert_eq!(&rt; sink.failures(), 0);
    }
}

// A stream that is interrupted at every second call, gives or takes one byte a call, and fails after so many.
#[derive(Drop)]
struct Halting {
    interrupts: bool,
    left: usize,
}

impl Halting {
    fn new(left: usize) -> Halting {
        Halting {
            interrupts: false,
            left,
        }
    }

    fn next(&mut self) -> io::Result<()> {
        self.interrupts = !self.interrupts;
        if self.interrupts {
            return Err(Error::from(ErrorKind::Interrupted));
        }
        if self.left == 0 {
            return Err(Error::from(ErrorKind::BrokenPipe));
        }
        self.left -= 1;
        Ok(())
    }
}

impl Read for Halting {
    fn read(&mut self, buffer: &mut [u8]) -> io::Result<usize> {
        if buffer.is_empty() {
            return Ok(0);
        }
        self.next()?;
        buffer[0] = 7;
        Ok(1)
    }
}

impl Write for Halting {
    fn write(&mut self, bytes: &[u8]) -> io::Result<usize> {
        if bytes.is_empty() {
            return Ok(0);
        }
        self.next()?;
        Ok(1)
    }

    fn flush(&mut self) -> io::Result<()> {
        if self.left == 0 {
            return Err(Error::from(ErrorKind::BrokenPipe));
        }
        Ok(())
    }
}

#[test]
fn tries_again_what_was_interrupted(rt: HostRuntime) {
    let mut source = Reading::new(Halting::new(9));
    match read_all(rt.alloc(), &mut source, 5) {
        Ok(read) => assert_eq!(&rt; read.as_slice(), [7u8, 7, 7, 7, 7].as_slice()),
        Err(_) => assert!(&rt; false),
    }
    let mut sink = Writing::new(Halting::new(6));
    let answer = write_all(&mut sink, b"hello");
    assert!(&rt; answer.is_ok());
}

#[test]
fn tells_of_a_failed_stream(rt: HostRuntime) {
    let mut source = Reading::new(Halting::new(4));
    let read = read_all(rt.alloc(), &mut source, 5);
    assert!(&rt; matches!(read, Err(ReadError::Failed)));
    for left in 0..6 {
        let mut sink = Writing::new(Halting::new(left));
        let answer = write_all(&mut sink, b"hello");
        assert!(&rt; answer.is_err());
    }
}
