//! Files and sinks that fail, bytes that are no rules, and a line that is longer than the cache: one table, with each
//! memo.
use crate::status::Status;
use crate::tests::{DEAL, RULES, WON, filled, run, shelf_of};
use outside_io::MemorySink;
use std::alloc::{AllocError, Global};
use std::test::Fail;

/// The number of a call that is never made.
const NEVER: u64 = 1000;

/// Clubs alone in the stock, with the king at the bottom: each card is dealt and goes home.
const LONG_RULES: &str = r#"{"max rank":13,"stock":{"size":13}}"#;

const LONG_DEAL: &str =
    r#"{"stock":["KC","QC","JC","TC","9C","8C","7C","6C","5C","4C","3C","2C","AC"],"foundations":[0,13,13,13]}"#;

const LONG_WIN: &str = "winnable
nodes 13
narrow 0
moves 26
deal
w f0
deal
w f0
deal
w f0
deal
w f0
deal
w f0
deal
w f0
deal
w f0
deal
w f0
deal
w f0
deal
w f0
deal
w f0
deal
w f0
deal
w f0
";

/// What is tried, and what must come of it. The put that fails takes the first `kept` bytes of its line.
#[derive(Clone, Copy)]
struct Case<'a> {
    name: &'a str,
    words: &'a str,
    rules: &'a [u8],
    deal: &'a [u8],
    failing_fetch: u64,
    failing_put: u64,
    kept: u64,
    room: u64,
    status: Status,
    text: &'a [u8],
}

/// A deal that is solved, and nothing fails.
fn solved<'a>() -> Case<'a> {
    Case {
        name: "nothing fails",
        words: "solve rules deal",
        rules: RULES.as_bytes(),
        deal: DEAL.as_bytes(),
        failing_fetch: NEVER,
        failing_put: NEVER,
        kept: 0,
        room: 1000,
        status: Status::Done,
        text: WON.as_bytes(),
    }
}

/// A rules file that is refused so.
fn refused<'a>(name: &'a str, rules: &'a [u8], text: &'a str) -> Case<'a> {
    Case {
        name,
        rules,
        status: Status::RulesRefused,
        text: text.as_bytes(),
        ..solved()
    }
}

/// A fetch that fails.
fn unfetched<'a>(words: &'a str, failing_fetch: u64, text: &'a str) -> Case<'a> {
    Case {
        name: "a fetch fails",
        words,
        failing_fetch,
        status: Status::ShelfFailed,
        text: text.as_bytes(),
        ..solved()
    }
}

/// A sink with so much room, which then holds so many bytes.
fn cramped<'a>(room: u64, written: usize) -> Case<'a> {
    Case {
        name: "a sink is full",
        room,
        status: Status::SinkFailed,
        text: WON.as_bytes().get(..written).unwrap_or_default(),
        ..solved()
    }
}

/// The line that is longer than the cache.
fn long<'a>(words: &'a str, text: &'a str) -> Case<'a> {
    Case {
        name: "a line longer than the cache",
        words,
        rules: LONG_RULES.as_bytes(),
        deal: LONG_DEAL.as_bytes(),
        text: text.as_bytes(),
        ..solved()
    }
}

/// Each put of the text fails, after none of its bytes and after one.
fn add_failing_puts(cases: &mut Vec<Case>) -> Result<(), AllocError> {
    for kept in [0, 1] {
        let mut before: usize = 0;
        for (call, line) in WON.split_inclusive('\n').enumerate() {
            let written = before.saturating_add(kept as usize);
            cases.push(Case {
                name: "a put fails",
                failing_put: call as u64,
                kept,
                status: Status::SinkFailed,
                text: WON.as_bytes().get(..written).unwrap_or_default(),
                ..solved()
            })?;
            before = before.saturating_add(line.len());
        }
    }
    Ok(())
}

/// Each proper prefix of the rules file.
fn add_cut_rules(cases: &mut Vec<Case>) -> Result<(), AllocError> {
    let rules = RULES.as_bytes();
    for length in 0..rules.len() {
        cases.push(refused("a prefix", &rules[..length], "refused rules not-json\n"))?;
    }
    Ok(())
}

/// Whether the case comes out as it must, with this memo.
fn comes_out(alloc: Global, case: &Case, memo: &str) -> Result<bool, Fail> {
    let mut shelf = shelf_of(alloc, case.rules, case.deal)?;
    shelf.add("line", WON.as_bytes())?;
    shelf.fail_at(case.failing_fetch)?;
    let mut sink = MemorySink::new(alloc, case.room)?;
    sink.fail_at(case.failing_put, case.kept)?;
    let words = if case.words.starts_with("solve") {
        format!(in alloc; "{} --memo {memo}", case.words)?
    } else {
        String::from_str(alloc, case.words)?
    };
    let status = run(alloc, &mut shelf, &mut sink, words.as_str())?;
    Ok(status == case.status && sink.bytes() == case.text)
}

#[test]
fn each_case_comes_out_with_either_memo(rt: HostRuntime) -> Result<(), Fail> {
    let alloc = rt.alloc();
    let spaces = filled(alloc, b' ', 65_536)?;
    let more = filled(alloc, b' ', 65_537)?;
    let mut brackets = filled(alloc, b'[', 200)?;
    brackets.extend_from_slice(&filled(alloc, b']', 200)?)?;
    let mut cases = Vec::new(alloc);
    for case in [
        solved(),
        unfetched("solve rules deal", 0, "failed rules\n"),
        unfetched("solve rules deal", 1, "failed deal\n"),
        unfetched("replay rules deal line", 2, "failed line\n"),
        cramped(8, 0),
        cramped(9, 9),
        refused("spaces", &spaces, "refused rules not-json\n"),
        refused("more spaces", &more, "refused rules too-long\n"),
        refused("brackets", &brackets, "refused rules not-json\n"),
        refused("byte 255", b"{\"\xff\":1}", "refused rules not-json\n"),
        long("solve rules deal --cache 1", LONG_WIN),
        long(
            "solve rules deal --cache 1 --nodes 12",
            "undecided\nnodes 12\nnarrow 0\n",
        ),
    ] {
        cases.push(case)?;
    }
    add_failing_puts(&mut cases)?;
    add_cut_rules(&mut cases)?;
    for memo in ["linked", "lru"] {
        for case in &cases {
            assert!(rt; comes_out(alloc, case, memo)?, "{}, memo {memo}", case.name);
        }
    }
    Ok(())
}
