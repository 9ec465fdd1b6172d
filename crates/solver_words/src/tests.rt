//! Lines of words, each with the job or the fault that it names.
use crate::{Job, WordFault, read_words};
use std::alloc::{AllocError, Global};
use std::test::Fail;

/// The words, each after a blank, then ` = ` and what they name.
const ROWS: &str = "solve R D = solve File 100000 1000000 0 Both Linked
solve -x  = solve File 100000 1000000 0 Both Linked
solve R D --nodes 1 = solve File 100000 1 0 Both Linked
solve R D --nodes 1000000000000 = solve File 100000 1000000000000 0 Both Linked
solve R D --cache 1 = solve File 1 1000000 0 Both Linked
solve R D --cache 4000000 = solve File 4000000 1000000 0 Both Linked
solve R D --nodes 5 --memo lru --cache 7 = solve File 7 5 0 Both Lru
solve R D --narrow 0 --way suits = solve File 100000 1000000 0 Suits Linked
solve R D --way both --narrow 1000000000000 = solve File 100000 1000000 1000000000000 Both Linked
solve R --way foundations --seed 1 = solve FromSeed(1) 100000 1000000 0 Foundations Linked
solve R D --memo linked = solve File 100000 1000000 0 Both Linked
solve R --seed 0 = solve FromSeed(0) 100000 1000000 0 Both Linked
solve R --memo lru --seed 18446744073709551615 = solve FromSeed(18446744073709551615) 100000 1000000 0 Both Lru
deal R --seed 42 = Deal { seed: 42 }
replay R D L = Replay
rules - = Rules
 = unknown-command
Solve R D = unknown-command
solve --seed 1 = missing-name
solve -- D = missing-name
replay R D --nodes 5 = missing-name
deal = missing-name
solve R --nodes 5 = missing-seed
deal R = missing-seed
solve R --nodes = missing-value 2
solve R --seed 18446744073709551616 = bad-option-value 3
deal R --nodes 5 = unknown-option 2
solve R D L = unknown-option 3
solve R D --seed 1 = unknown-option 3
solve R D --nodes 5 --what 1 = unknown-option 5
deal R --memo lru = unknown-option 2
rules R --memo lru = unknown-option 2
solve R D --nodes 5 --nodes = repeated-option 5
solve R D --memo lru --cache 1 --memo = repeated-option 7
solve R D --cache 5 --memo = missing-value 5
solve R D --nodes 0 = bad-option-value 4
solve R D --nodes 05 = bad-option-value 4
solve R D --nodes +5 = bad-option-value 4
solve R D --nodes  = bad-option-value 4
solve R D --nodes 1000000000001 = bad-option-value 4
solve R D --nodes x --what = bad-option-value 4
solve R D --cache 4000001 = bad-option-value 4
solve R D --cache 4294967297 = bad-option-value 4
solve R D --narrow 1000000000001 = bad-option-value 4
solve R D --way suit = bad-option-value 4
solve R D --narrow 1 --narrow 1 = repeated-option 5
solve R D --nodes 5 --way = missing-value 5
deal R --narrow 5 = unknown-option 2
solve R D --memo LRU = bad-option-value 4
solve R D --memo  = bad-option-value 4
solve R D --nodes 5 --cache 0 = bad-option-value 6";

// The pieces between blanks. An empty line has one piece, which is empty.
fn split(alloc: Global, line: &str) -> Result<Vec<String>, AllocError> {
    let mut words = Vec::new(alloc);
    for word in line.split(' ') {
        words.push(String::from_str(alloc, word)?)?;
    }
    Ok(words)
}

fn text_of(alloc: Global, read: Result<Job, WordFault>) -> Result<String, AllocError> {
    match read {
        Ok(
            Job::Solve {
                source,
                cache,
                nodes,
                narrow,
                way,
                memo,
            },
        ) => format!(in alloc; "solve {source:?} {cache} {nodes} {narrow} {way:?} {memo:?}"),
        Ok(job) => format!(in alloc; "{job:?}"),
        Err(fault) => format!(in alloc; "{fault}"),
    }
}

#[test]
fn each_line_names_its_job_or_its_fault(rt: HostRuntime) -> Result<(), Fail> {
    assert_eq!(rt; read_words(&[]), Err(WordFault::NoCommand));
    for row in ROWS.split('\n') {
        let (line, want) = row.split_once(" = ").ok_or("a row with no answer")?;
        let words = split(rt.alloc(), line)?;
        assert!(rt; words.len() < 100);
        assert_eq!(rt;
            text_of(rt.alloc(), read_words(&words))?.as_str(),
            want,
            "at {row}"
        );
    }
    Ok(())
}
