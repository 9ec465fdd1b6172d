//! The whole program on small files in memory. What is expected was worked out apart from it.
use crate::status::Status;
use crate::top::patience;
use outside_io::{MemoryShelf, MemorySink};
use std::alloc::{AllocError, Global};
use std::test::Fail;

/// Four piles of aces and twos, round an ace in the hole.
pub const RULES: &str =
    r#"{"max rank":2,"tableau":{"piles":4,"spaces":"none"},"hole":{"start":"AS"}}"#;

pub const DEAL: &str = r#"{"tableau":[["AC","2C"],["AD","2D"],["AH","2H"],["2S"]],"hole":["AS"]}"#;

pub const WON: &str =
    "winnable\nnodes 7\nnarrow 0\nmoves 7\nt0 h\nt0 h\nt1 h\nt1 h\nt2 h\nt2 h\nt3 h\n";

/// For each run a name, the rules file, the deal file, the words, the status, and the text that is written.
const RUNS: &str = r#"won before any move
{"max rank":1}
{"foundations":[1,1,1,1]}
solve rules deal
Done
winnable
nodes 0
narrow 0
moves 0

the ace under the two
{"max rank":2,"tableau":{"piles":1}}
{"tableau":[["AC","2C"]],"foundations":[0,2,2,2]}
solve rules deal
Done
unwinnable
nodes 1
narrow 0

the same beside a space
{"max rank":2,"tableau":{"piles":2}}
{"tableau":[["AC","2C"]],"foundations":[0,2,2,2]}
solve rules deal
Done
winnable
nodes 3
narrow 0
moves 3
t0 t1 1
t0 f0
t1 f0

the same with one node
{"max rank":2,"tableau":{"piles":2}}
{"tableau":[["AC","2C"]],"foundations":[0,2,2,2]}
solve rules deal --nodes 1
Done
undecided
nodes 1
narrow 0

a king between two spaces: both boards are the same
{"max rank":3,"tableau":{"piles":3,"spaces":"king"}}
{"tableau":[["AC","2C"],["3C"],[]],"foundations":[0,3,3,3]}
solve rules deal
Done
unwinnable
nodes 1
narrow 0

the last of eight foundations
{"decks":2,"max rank":1,"tableau":{"piles":1,"build":"red-black"}}
{"tableau":[["AC"]],"foundations":[0,1,1,1,1,1,1,1]}
solve rules deal
Done
winnable
nodes 1
narrow 0
moves 1
t0 f0

an ace on the greatest rank, in a hole that wraps
{"max rank":3,"tableau":{"piles":1,"spaces":"none"},"hole":{}}
{"tableau":[["AC"]],"hole":["2C","3C","AD","2D","3D","AH","2H","3H","AS","2S","3S"]}
solve rules deal
Done
winnable
nodes 1
narrow 0
moves 1
t0 h

and in one that does not
{"max rank":3,"tableau":{"piles":1,"spaces":"none"},"hole":{"wrap":false}}
{"tableau":[["AC"]],"hole":["2C","3C","AD","2D","3D","AH","2H","3H","AS","2S","3S"]}
solve rules deal
Done
unwinnable
nodes 1
narrow 0

a cell for the two
{"max rank":2,"tableau":{"piles":1},"cells":{"count":1}}
{"tableau":[["AC","2C"]],"foundations":[0,2,2,2]}
solve rules deal
Done
winnable
nodes 3
narrow 0
moves 3
t0 c0
t0 f0
c0 f0

a two behind a gap in the first column
{"sequences":{},"max rank":2}
{"rows":[[null,"2C"],["2D"],["2H"],["2S"]]}
solve rules deal
Done
winnable
nodes 1
narrow 0
moves 1
s1 s0

a stock that deals to the hole
{"max rank":2,"tableau":{"piles":1,"spaces":"none"},"hole":{},"stock":{"size":1,"to":"hole"}}
{"tableau":[["AC"]],"stock":["2C"],"hole":["2S","2D","AD","2H","AH","AS"]}
solve rules deal
Done
winnable
nodes 2
narrow 0
moves 2
deal
t0 h

a two that is dealt on the ace, or on no pile once the ace is home
{"max rank":2,"tableau":{"piles":1},"stock":{"size":1,"to":"tableau"}}
{"tableau":[["AC"]],"stock":["2C"],"foundations":[0,2,2,2]}
solve rules deal
Done
unwinnable
nodes 3
narrow 0

an ace that is dealt on the two
{"max rank":2,"tableau":{"piles":1},"stock":{"size":1,"to":"tableau"}}
{"tableau":[["2C"]],"stock":["AC"],"foundations":[0,2,2,2]}
solve rules deal
Done
winnable
nodes 3
narrow 0
moves 3
deal
t0 f0
t0 f0

four piles of aces and twos round an ace in the hole
{"max rank":2,"tableau":{"piles":4,"spaces":"none"},"hole":{"start":"AS"}}
{"tableau":[["AC","2C"],["AD","2D"],["AH","2H"],["2S"]],"hole":["AS"]}
solve rules deal --nodes 3
Done
undecided
nodes 3
narrow 0

a restricted search first, which ends without a win
{"max rank":3,"tableau":{"piles":2}}
{"tableau":[["AC","2C","3C"]],"foundations":[0,3,3,3]}
solve rules deal --narrow 10
Done
unwinnable
nodes 2
narrow 2

a restricted search that loses the win
{"max rank":3,"tableau":{"piles":2,"build":"red-black","spaces":"none"}}
{"tableau":[["3C","3D"],["AC","2C"]],"foundations":[0,2,3,3]}
solve rules deal --narrow 10 --way foundations
Done
winnable
nodes 6
narrow 2
moves 5
t1 t0 1
t1 f0
t0 f0
t0 f1
t0 f0

a restricted search that finds a win
{"max rank":2,"tableau":{"piles":2}}
{"tableau":[["AC","2C"]],"foundations":[0,2,2,2]}
solve rules deal --narrow 10 --way foundations
Done
winnable
nodes 0
narrow 3
moves 3
t0 t1 1
t0 f0
t1 f0

a card that stands twice, and another missing
{"max rank":2,"tableau":{"piles":4,"spaces":"none"},"hole":{"start":"AS"}}
{"tableau":[["AC","2C"],["AD","2D"],["AH","2H"],["AS"]],"hole":["AS"]}
solve rules deal
DealRefused
refused deal missing-card 2S

a rules file without its last byte, and a deal that is not there
{"max rank":2,"tableau":{"piles":4,"spaces":"none"},"hole":{"start":"AS"}
{}
solve rules nowhere
RulesRefused
refused rules not-json

no rules file
{}
{}
solve nowhere deal
ShelfFailed
failed rules

no deal file
{"max rank":2}
{}
solve rules nowhere
ShelfFailed
failed deal

no words
{}
{}
 
Usage
refused words no-command

a cache of none
{}
{}
solve rules deal --nodes 5 --cache 0
Usage
refused words bad-option-value 6

a seed that is not given
{}
{}
solve rules
Usage
refused words missing-seed

the one spelling of the rules
{"max rank":2,"tableau":{"piles":4,"spaces":"none"},"hole":{"start":"AS"}}
{}
rules rules
Done
{"cells":{"count":0,"filled":0},"decks":1,"hole":{"start":"AS","wrap":true},"max rank":2,"reserve":{"size":0,"stacked":false},"stock":{"draw":1,"redeals":0,"size":0,"to":"waste"},"tableau":{"build":"none","face":"all up","group build":"none","groups":"one","layout":"even","piles":4,"spaces":"none","wrap":false}}

the position of a seed
{"max rank":1,"tableau":{"piles":1}}
{}
deal rules --seed 42
Done
{"cells":[],"face down":[0],"foundations":[0,0,0,0],"hole":[],"redeals left":0,"reserve":[],"rows":[],"stock":[],"tableau":[["AC","AS","AD","AH"]],"waste":[]}

a seed is solved
{"max rank":1,"stock":{"size":4}}
{}
solve rules --seed 42
Done
winnable
nodes 4
narrow 0
moves 8
deal
w f2
deal
w f1
deal
w f3
deal
w f0

fewer cards than places
{"max rank":1,"stock":{"size":5}}
{}
deal rules --seed 0
DealRefused
refused deal too-few-cards

more cards than places
{"max rank":1,"stock":{"size":3}}
{}
solve rules --seed 0
DealRefused
refused deal too-many-cards"#;

/// How a run ended, and what it wrote.
#[derive(Drop)]
pub struct Printed {
    pub status: Status,
    pub text: Vec<u8>,
}

/// The words between blanks.
fn words(alloc: Global, text: &str) -> Result<Vec<String>, AllocError> {
    let mut words = Vec::new(alloc);
    for word in text.split_whitespace() {
        words.push(String::from_str(alloc, word)?)?;
    }
    Ok(words)
}

/// A shelf with these two files.
pub fn shelf_of(alloc: Global, rules: &[u8], deal: &[u8]) -> Result<MemoryShelf, Fail> {
    let mut shelf = MemoryShelf::new(alloc);
    shelf.add("rules", rules)?;
    shelf.add("deal", deal)?;
    Ok(shelf)
}

/// So many bytes of one kind.
pub fn filled(alloc: Global, byte: u8, count: usize) -> Result<Vec<u8>, Fail> {
    let mut bytes = Vec::new(alloc);
    for _ in 0..count {
        bytes.push(byte)?;
    }
    Ok(bytes)
}

/// What the program makes of the words. More than a hundred words are not tried.
pub fn run(
    alloc: Global,
    shelf: &mut MemoryShelf,
    sink: &mut MemorySink,
    text: &str,
) -> Result<Status, Fail> {
    let words = words(alloc, text)?;
    if words.len() > 100 {
        return Ok(Status::Memory);
    }
    Ok(patience(alloc, &words, shelf, sink))
}

/// What the program makes of the words, with what it writes.
pub fn print(alloc: Global, shelf: &mut MemoryShelf, text: &str) -> Result<Printed, Fail> {
    let mut sink = MemorySink::new(alloc, 20_000)?;
    let status = run(alloc, shelf, &mut sink, text)?;
    let text = sink.bytes().to_vec(alloc)?;
    Ok(Printed { status, text })
}

#[test]
fn each_run_has_its_status_and_text(rt: HostRuntime) -> Result<(), Fail> {
    let alloc = rt.alloc();
    for row in RUNS.split("\n\n") {
        let (_, rest) = row.split_once('\n').ok_or("a name")?;
        let (rules, rest) = rest.split_once('\n').ok_or("rules")?;
        let (deal, rest) = rest.split_once('\n').ok_or("a deal")?;
        let (words, rest) = rest.split_once('\n').ok_or("words")?;
        let mut shelf = shelf_of(alloc, rules.as_bytes(), deal.as_bytes())?;
        let printed = print(alloc, &mut shelf, words)?;
        let mut answer = format!(in alloc; "{:?}\n", printed.status)?.into_bytes();
        answer.extend_from_slice(&printed.text)?;
        let want = format!(in alloc; "{rest}\n")?;
        assert!(rt; answer.as_slice() == want.as_bytes(), "{row}");
    }
    Ok(())
}

#[test]
fn a_line_file_is_replayed_or_refused(rt: HostRuntime) -> Result<(), Fail> {
    let alloc = rt.alloc();
    let rows: [(&str, &str); 5] = [
        (WON, "wins\nmoves 7\n"),
        ("t0 h\nt0 h\nt1 h\nt3 h\n", "refused line illegal 3\n"),
        ("t0 h\nt0 h\n", "refused line ends-short\n"),
        ("t0 h\n\nt0 h\n", "refused line bad-move 2\n"),
        ("winnable\nnodes 7\n", "refused line bad-move 3\n"),
    ];
    for (line, want) in rows {
        let mut shelf = shelf_of(alloc, RULES.as_bytes(), DEAL.as_bytes())?;
        shelf.add("line", line.as_bytes())?;
        let printed = print(alloc, &mut shelf, "replay rules deal line")?;
        assert!(rt; printed.text.as_slice() == want.as_bytes(), "{want}");
    }
    Ok(())
}
