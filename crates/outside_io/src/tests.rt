//! Fetches and puts in a row, over shelves and sinks in memory and over those of the system.
ghost use Rattle.std.specs.Prelude.{◌≡◌, [], IsTrue, IfErr};
ghost use Rattle.outside_io.specs.MemoryShelf.{listed_calls, was_added, SameFaults};
ghost use Rattle.outside_io.specs.declared.shelf.ShelfFault.TheVariants.{Memory};

use crate::{DiskShelf, MemoryShelf, MemorySink, Shelf, ShelfFault, Sink, StdSink};
use std::alloc::{AllocError, Global};
use std::fs;
use std::test::Fail;

/// Fetches each name up to its limit, and appends what it gave and a dot, or a bang if the fetch failed.
fn fetch_all<S: Shelf>(
    shelf: &mut S,
    fetches: &[(&str, u64)],
    out: &mut Vec<u8>,
) -> Result<(), AllocError> {
    for (name, limit) in fetches {
        match shelf.fetch(name, *limit, out) {
            Ok(()) => out.push(b'.')?,
            Err(ShelfFault::Failed) => out.push(b'!')?,
            Err(ShelfFault::Memory) => return Err(AllocError),
        }
    }
    Ok(())
}

#[test]
fn a_shelf_in_memory_fails_where_it_is_told_to(rt: HostRuntime) -> Result<(), Fail> {
    let mut shelf = MemoryShelf::new(rt.alloc());
    shelf.add("rules", b"xyz")?;
    shelf.add("deal", b"")?;
    shelf.add("rules", b"later")?;
    shelf.fail_at(5)?;
    let mut out = Vec::new(rt.alloc());
    let fetches = [
        ("rules", 0),
        ("rules", 1),
        ("rules", 2),
        ("rules", u64::MAX),
        ("deal", 0),
        ("rules", 9),
        ("line", 9),
        ("rules", 9),
    ];
    fetch_all(&mut shelf, &fetches, &mut out)?;
    assert!(rt; out.as_slice() == b"x.xy.xyz.xyz..!!xyz.".as_slice());
    Ok(())
}

#[test]
fn reads_a_file_of_the_disk(rt: HostRuntime) -> Result<(), Fail> {
    fs::write(&rt, "shelved.txt", "a file")?;
    let mut shelf = DiskShelf::new(&rt);
    let mut out = Vec::new(rt.alloc());
    let fetches = [
        ("shelved.txt", 0),
        ("shelved.txt", 4),
        ("shelved.txt", 100),
        ("not-there.txt", 9),
        (".", 9),
    ];
    fetch_all(&mut shelf, &fetches, &mut out)?;
    assert!(rt; out.as_slice() == b"a.a fil.a file.!!".as_slice());
    Ok(())
}

/// So many bytes. None of the first 9,000 is that which stands 4,096 places before it.
fn numbered(alloc: Global, count: u32) -> Result<Vec<u8>, AllocError> {
    let mut bytes = Vec::new(alloc);
    for place in 0..count {
        bytes.push((place % 251) as u8)?;
    }
    Ok(bytes)
}

#[test]
fn a_file_of_many_blocks_is_fetched_whole_or_up_to_the_limit(rt: HostRuntime) -> Result<(), Fail> {
    let bytes = numbered(rt.alloc(), 9_000)?;
    fs::write(&rt, "long.txt", bytes.as_slice())?;
    let mut shelf = DiskShelf::new(&rt);
    for (limit, length) in [
        (8_997, 8_998),
        (8_999, 9_000),
        (9_000, 9_000),
        (100_000, 9_000),
    ] {
        let mut out = Vec::new(rt.alloc());
        shelf.fetch("long.txt", limit, &mut out)?;
        let front = bytes.get(..length).ok_or("a front")?;
        assert!(rt; out.as_slice() == front, "up to {limit}");
    }
    Ok(())
}

/// Puts each piece, and gives a dot for each that was written whole and a bang for each other.
fn put_all<S: Sink>(sink: &mut S, pieces: &[&str], marks: &mut Vec<u8>) -> Result<(), AllocError> {
    for piece in pieces {
        let mark = match sink.put(piece.as_bytes()) {
            Ok(()) => b'.',
            Err(_) => b'!',
        };
        marks.push(mark)?;
    }
    Ok(())
}

#[test]
fn fails_at_listed_puts_and_long_pieces(rt: HostRuntime) -> Result<(), Fail> {
    let mut sink = MemorySink::new(rt.alloc(), 8)?;
    sink.fail_at(1, 2)?;
    sink.fail_at(1, 0)?;
    sink.fail_at(4, 9)?;
    let mut marks = Vec::new(rt.alloc());
    // The second is listed, the third too long, and the fifth both.
    let pieces = ["ab", "cde", "12345", "1", "23456", ""];
    put_all(&mut sink, &pieces, &mut marks)?;
    assert!(rt; marks.as_slice() == b".!!.!.".as_slice());
    assert!(rt; sink.bytes() == b"abcd1234".as_slice());
    Ok(())
}

#[test]
fn writes_to_the_standard_output(rt: HostRuntime) -> Result<(), Fail> {
    let mut marks = Vec::new(rt.alloc());
    put_all(&mut StdSink::new(&rt), &["a line\n", ""], &mut marks)?;
    assert!(rt; marks.as_slice() == b"..".as_slice());
    Ok(())
}

// Where no call is listed, a fetch of an added name fails for want of memory alone.
fn fetch_added(shelf: &mut MemoryShelf, name: &str, out: &mut Vec<u8>) -> Result<(), ShelfFault>
    requires none_listed { listed_calls shelf.old ≡ [] }
    requires added { IsTrue (was_added shelf.old name.now) }
    ensures memory { IfErr result (λ fault. fault ≡ ShelfFault.Memory) }
    ensures no_fault { SameFaults shelf.old shelf.new }
{
    shelf.fetch(name, 9, out)
}

#[test]
fn no_added_file_fails_unlisted(rt: HostRuntime) -> Result<(), Fail> {
    let mut shelf = MemoryShelf::new(rt.alloc());
    shelf.add("rules", b"x")?;
    let mut out = Vec::new(rt.alloc());
    fetch_added(&mut shelf, "rules", &mut out)?;
    assert!(rt; out.as_slice() == b"x".as_slice());
    Ok(())
}
