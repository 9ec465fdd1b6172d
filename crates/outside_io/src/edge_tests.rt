//! Readers that give little at a time, writers that take little at a time, and both failing in between.

use crate::reading::read_up_to;
use crate::writing::write_whole;
use crate::{ShelfFault, Sink, SinkFailed, StdSink};
use std::cell::RefCell;
use std::fmt::Display;
use std::io::{self, ErrorKind, Read, Write};
use std::test::Fail;

/// Gives two bytes at most at a time, and fails at the read of a number, counted from 0.
#[derive(Drop)]
struct SlowReader<'a> {
    rest: &'a [u8],
    reads: u32,
    failing: u32,
}

impl Read for SlowReader<'_> {
    fn read(&mut self, buf: &mut [u8]) -> io::Result<usize> {
        let now = self.reads;
        self.reads = now.saturating_add(1);
        if now == self.failing {
            return Err(ErrorKind::Other.into());
        }
        let count = self.rest.len().min(buf.len()).min(2);
        buf[..count].copy_from_slice(&self.rest[..count]);
        self.rest = &self.rest[count..];
        Ok(count)
    }
}

/// Takes two bytes at most at a time. It fails at the write of one number, and takes nothing at that of another.
#[derive(Drop)]
struct SlowWriter {
    taken: Vec<u8>,
    writes: u32,
    failing: u32,
    idle: u32,
}

impl Write for SlowWriter {
    fn write(&mut self, buf: &[u8]) -> io::Result<usize> {
        let now = self.writes;
        self.writes = now.saturating_add(1);
        if now == self.failing {
            return Err(ErrorKind::Other.into());
        }
        let count = if now == self.idle {
            0
        } else {
            buf.len().min(2)
        };
        match self.taken.extend_from_slice(&buf[..count]) {
            Ok(()) => Ok(count),
            Err(_) => Err(ErrorKind::OutOfMemory.into()),
        }
    }

    fn flush(&mut self) -> io::Result<()> {
        Ok(())
    }
}

#[test]
fn short_reads_are_put_together_and_a_read_that_fails_is_no_end(rt: HostRuntime) {
    let failed = Err(ShelfFault::Failed);
    for (limit, failing, expected, text) in [
        (0, 99, Ok(()), "a"),
        (1, 99, Ok(()), "ab"),
        (3, 99, Ok(()), "abcd"),
        (4, 99, Ok(()), "abcde"),
        (9, 99, Ok(()), "abcde"),
        (9, 0, failed, ""),
        (9, 1, failed, "ab"),
        (9, 3, failed, "abcde"),
    ] {
        let mut out = Vec::new(rt.alloc());
        let mut faults = 7;
        let mut file = SlowReader {
            rest: b"abcde",
            reads: 0,
            failing,
        };
        let read = read_up_to(&mut file, limit, &mut out, &mut faults);
        let counted = faults == if read.is_ok() { 7 } else { 8 };
        let right = read == expected && out.as_slice() == text.as_bytes() && counted;
        assert!(rt; right, "up to {limit}, failing at {failing}");
    }
}

#[test]
fn a_reader_that_tells_its_bytes(rt: HostRuntime) -> Result<(), Fail> {
    let mut out = Vec::new(rt.alloc());
    let mut faults = 0;
    let mut file: &[u8] = b"abcdef";
    read_up_to(&mut file, 2, &mut out, &mut faults)?;
    assert!(rt; out.as_slice() == b"abc".as_slice() && file == b"def".as_slice());
    Ok(())
}

#[test]
fn short_writes_are_gone_on_with(rt: HostRuntime) {
    for (failing, idle, written, taken) in [
        (99, 99, Ok(()), "abcde"),
        (1, 99, Err(SinkFailed), "ab"),
        (0, 99, Err(SinkFailed), ""),
        (99, 2, Err(SinkFailed), "abcd"),
    ] {
        let mut writer = SlowWriter {
            taken: Vec::new(rt.alloc()),
            writes: 0,
            failing,
            idle,
        };
        let mut faults = u64::MAX - 1;
        let right = write_whole(&mut writer, b"abcde", &mut faults) == written
            && writer.taken.as_slice() == taken.as_bytes()
            && (faults == u64::MAX) == written.is_err();
        assert!(rt; right, "{failing}, {idle}");
    }
}

/// A standard output that keeps what it shows. It takes a hundred bytes at most at a time.
#[derive(Drop)]
struct KeptOutput {
    shown: RefCell<Vec<u8>>,
}

impl Print for KeptOutput {
    fn print<D: Display + Drop>(&self, _value: D) -> io::Result<()> {
        Err(ErrorKind::Unsupported.into())
    }

    fn println<D: Display + Drop>(&self, _value: D) -> io::Result<()> {
        Err(ErrorKind::Unsupported.into())
    }

    fn write_all(&self, _bytes: &[u8]) -> io::Result<()> {
        Err(ErrorKind::Unsupported.into())
    }

    fn write_some(&self, bytes: &[u8]) -> io::Result<usize> {
        let count = bytes.len().min(100);
        let Ok(mut shown) = self.shown.try_borrow_mut() else {
            return Err(ErrorKind::Other.into());
        };
        match shown.extend_from_slice(&bytes[..count]) {
            Ok(()) => Ok(count),
            Err(_) => Err(ErrorKind::OutOfMemory.into()),
        }
    }
}

#[test]
fn the_standard_output_shows_long_pieces_whole(rt: HostRuntime) -> Result<(), Fail> {
    let output = KeptOutput {
        shown: RefCell::new(Vec::new(rt.alloc())),
    };
    let mut sink = StdSink::new(&output);
    let mut expected = Vec::new(rt.alloc());
    for (byte, length) in [(b'a', 256), (b'b', 257), (b'c', 300), (b'd', 70_000)] {
        let mut piece = Vec::new(rt.alloc());
        piece.resize(length, byte)?;
        sink.put(&piece)?;
        expected.extend_from_slice(&piece)?;
    }
    let shown = output.shown.try_borrow()?;
    assert!(rt; shown.as_slice() == expected.as_slice());
    Ok(())
}
