//! Texts of moves, line files and verdicts, as they stand in the formats.
use crate::{LineFault, Verdict, read_line, write_line, write_verdict};
use game_rules::{Move, Place};
use legal_moves::Line;
use std::alloc::Global;
use std::test::Fail;

fn carry(from: Place, to: Place, count: u8) -> Move {
    Move::Carry { from, to, count }
}

/// The fault of a file, or none where it is read.
fn fault_of(alloc: Global, bytes: &[u8]) -> Option<LineFault> {
    match read_line(alloc, bytes) {
        Ok(_) => None,
        Err(fault) => Some(fault),
    }
}

const EACH_FORM: &str =
    "t0 t1 1\nt10 t255 0\nt3 t2 13\nt0 f0\nt0 f0 2\nt0 f0 0\nt0 h\nc0 t9\nt7 c15\nr51 f3\nw f1\nw w 255\nh w\ns1 s0\ndeal\nredeal\n";

#[test]
fn each_move_has_one_text(rt: HostRuntime) -> Result<(), Fail> {
    let alloc = rt.alloc();
    let moves = [
        carry(Place::Tableau(0), Place::Tableau(1), 1),
        carry(Place::Tableau(10), Place::Tableau(255), 0),
        carry(Place::Tableau(3), Place::Tableau(2), 13),
        carry(Place::Tableau(0), Place::Foundation(0), 1),
        carry(Place::Tableau(0), Place::Foundation(0), 2),
        carry(Place::Tableau(0), Place::Foundation(0), 0),
        carry(Place::Tableau(0), Place::Hole, 1),
        carry(Place::Cell(0), Place::Tableau(9), 1),
        carry(Place::Tableau(7), Place::Cell(15), 1),
        carry(Place::Reserve(51), Place::Foundation(3), 1),
        carry(Place::Waste, Place::Foundation(1), 1),
        carry(Place::Waste, Place::Waste, 255),
        carry(Place::Hole, Place::Waste, 1),
        carry(Place::Slot(1), Place::Slot(0), 1),
        Move::Deal,
        Move::Redeal,
    ];
    let written = write_line(alloc, moves.as_slice())?;
    assert!(rt; written.as_slice() == EACH_FORM.as_bytes());
    let read = read_line(alloc, EACH_FORM.as_bytes())?;
    assert!(rt; read.items() == moves.as_slice());
    Ok(())
}

// Between bars, texts that are no moves.
const NO_MOVES: &str =
    "| |t0 f0 1|t0 t1|t00 h|t0 t1 01|t0 t1 1 | t0 h|t0  h|t0 h |t256 h|t0 t1 256|t h|t+1 h|\
    t-1 h|w0 h|h0 w|T0 h|t0,h|t0 h 1|t0 t1 1 1|Deal|deal |deals|redeal 1|x0 h|t0|t0 h\r";

#[test]
fn other_spellings_are_no_move_texts(rt: HostRuntime) -> Result<(), Fail> {
    let alloc = rt.alloc();
    for text in NO_MOVES.split('|') {
        let file = format!(in alloc; "{text}\n")?;
        let fault = fault_of(alloc, file.as_bytes());
        assert!(rt; fault == Some(LineFault::BadMove { line: 1 }), "{text}");
    }
    Ok(())
}

const STORED_RUN: &str =
    "winnable\nnodes 7\nnarrow 0\nmoves 7\nt0 h\nt0 h\nt1 h\nt1 h\nt2 h\nt2 h\nt3 h\n";

fn stored_moves() -> [Move; 7] {
    let piles = [0, 0, 1, 1, 2, 2, 3];
    piles.map(|i| carry(Place::Tableau(i), Place::Hole, 1))
}

#[test]
fn a_verdict_has_its_text(rt: HostRuntime) -> Result<(), Fail> {
    let alloc = rt.alloc();
    let moves = stored_moves();
    let winnable = Verdict::Winnable {
        line: Line::from_vec(Vec::from_slice(alloc, moves.as_slice())?),
        nodes: 7,
        narrow_nodes: 0,
    };
    let unwinnable = Verdict::Unwinnable {
        nodes: 2,
        narrow_nodes: 10,
    };
    let undecided = Verdict::Undecided {
        nodes: 18_446_744_073_709_551_615,
        narrow_nodes: 0,
    };
    let text = write_verdict(alloc, &winnable)?;
    assert!(rt; text.as_slice() == STORED_RUN.as_bytes());
    let text = write_verdict(alloc, &unwinnable)?;
    assert!(rt; text.as_slice() == b"unwinnable\nnodes 2\nnarrow 10\n".as_slice());
    let text = write_verdict(alloc, &undecided)?;
    assert!(rt; text.as_slice() == b"undecided\nnodes 18446744073709551615\nnarrow 0\n".as_slice());
    Ok(())
}

#[test]
fn the_stored_run_reads_as_its_moves(rt: HostRuntime) -> Result<(), Fail> {
    let alloc = rt.alloc();
    let line = read_line(alloc, STORED_RUN.as_bytes())?;
    assert!(rt; line.items() == stored_moves().as_slice());
    let line = read_line(alloc, b"")?;
    assert!(rt; line.items().is_empty());
    let line = read_line(alloc, b"winnable\nno\nmove\n\ndeal\n")?;
    assert!(rt; line.items() == [Move::Deal].as_slice());
    Ok(())
}

#[test]
fn the_first_bad_line_is_named(rt: HostRuntime) {
    let alloc = rt.alloc();
    let rows: [(&[u8], u64); 9] = [
        (b"t0 h\n\nt0 h\n", 2),
        (b"winnable\nnodes 7\n", 3),
        (b"winnable", 1),
        (b"winnable\na\nb\nc", 4),
        (b"winnable\na\nb\nc\nd\n", 5),
        (b"winnable\na\nb\nc\ndeal\ndeal", 6),
        (b"deal\nwinnable\n", 2),
        (b"winnable \na\nb\nc\n", 1),
        (b"deal", 1),
    ];
    for (bytes, line) in rows {
        assert!(rt;
            fault_of(alloc, bytes) == Some(LineFault::BadMove { line }),
            "{bytes:?}"
        );
    }
}

#[test]
fn faults_are_printed(rt: HostRuntime) -> Result<(), Fail> {
    let alloc = rt.alloc();
    assert_eq!(rt; LineFault::TooLong.to_string(alloc)?.as_str(), "too-long");
    assert_eq!(rt;
        LineFault::BadMove { line: 2 }.to_string(alloc)?.as_str(),
        "bad-move 2"
    );
    assert_eq!(rt; LineFault::Memory.to_string(alloc)?.as_str(), "memory");
    Ok(())
}

#[test]
fn a_file_of_many_lines_is_read(rt: HostRuntime) -> Result<(), Fail> {
    let alloc = rt.alloc();
    let m = carry(Place::Tableau(12), Place::Tableau(7), 10);
    let moves = vec![in alloc; m; 400_000]?;
    let file = write_line(alloc, moves.as_slice())?;
    assert!(rt; file.len() == 4_000_000);
    let line = read_line(alloc, file.as_slice())?;
    assert!(rt; line.items() == moves.as_slice());
    Ok(())
}

#[test]
fn a_file_above_the_limit_is_too_long(rt: HostRuntime) -> Result<(), Fail> {
    let alloc = rt.alloc();
    let file = vec![in alloc; b'\n'; 67_108_865]?;
    assert!(rt; fault_of(alloc, file.as_slice()) == Some(LineFault::TooLong));
    assert!(rt; fault_of(alloc, &file[1..]) == Some(LineFault::BadMove { line: 1 }));
    Ok(())
}
