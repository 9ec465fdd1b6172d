//! Small games whose whole text is the same with a cache of one key and of a hundred, and with each memo, by the plain
//! search alone and with a restricted one first. What is expected was worked out apart from it.
use crate::status::Status;
use crate::tests::{print, shelf_of};
use std::alloc::Global;
use std::test::Fail;

/// For each run a name, the rules file, the deal file, the options, and the text that is written.
const RUNS: &str = r#"a space beside the ace under the two
{"max rank":2,"tableau":{"piles":2}}
{"tableau":[["AC","2C"]],"foundations":[0,2,2,2]}
--narrow 0
winnable
nodes 3
narrow 0
moves 3
t0 t1 1
t0 f0
t1 f0

the same by the restricted search
{"max rank":2,"tableau":{"piles":2}}
{"tableau":[["AC","2C"]],"foundations":[0,2,2,2]}
--narrow 10 --way foundations
winnable
nodes 0
narrow 3
moves 3
t0 t1 1
t0 f0
t1 f0

one space above two cards
{"max rank":3,"tableau":{"piles":2}}
{"tableau":[["AC","2C","3C"]],"foundations":[0,3,3,3]}
--narrow 0
unwinnable
nodes 2
narrow 0

the same after a restricted search that ends
{"max rank":3,"tableau":{"piles":2}}
{"tableau":[["AC","2C","3C"]],"foundations":[0,3,3,3]}
--narrow 10
unwinnable
nodes 2
narrow 2

a redeal between the ace and the two
{"max rank":3,"stock":{"size":3,"redeals":1}}
{"stock":["AC","3C","2C"],"foundations":[0,3,3,3]}
--narrow 0
winnable
nodes 3
narrow 0
moves 9
deal
deal
deal
w f0
redeal
deal
w f0
deal
w f0

the same by the restricted search
{"max rank":3,"stock":{"size":3,"redeals":1}}
{"stock":["AC","3C","2C"],"foundations":[0,3,3,3]}
--narrow 10
winnable
nodes 0
narrow 3
moves 9
deal
deal
deal
w f0
redeal
deal
w f0
deal
w f0

a three that may not go home at once
{"max rank":3,"tableau":{"piles":2,"build":"red-black","spaces":"none"}}
{"tableau":[["3C","3D"],["AC","2C"]],"foundations":[0,2,3,3]}
--narrow 0
winnable
nodes 6
narrow 0
moves 5
t1 t0 1
t1 f0
t0 f0
t0 f1
t0 f0

the same after a restricted search that puts it there
{"max rank":3,"tableau":{"piles":2,"build":"red-black","spaces":"none"}}
{"tableau":[["3C","3D"],["AC","2C"]],"foundations":[0,2,3,3]}
--narrow 10 --way foundations
winnable
nodes 6
narrow 2
moves 5
t1 t0 1
t1 f0
t0 f0
t0 f1
t0 f0"#;

/// Whether the row's text is printed with this cache and this memo.
fn is_printed(alloc: Global, row: &str, cache: u32, memo: &str) -> Result<bool, Fail> {
    let (_, rest) = row.split_once('\n').ok_or("a name")?;
    let (rules, rest) = rest.split_once('\n').ok_or("rules")?;
    let (deal, rest) = rest.split_once('\n').ok_or("a deal")?;
    let (options, text) = rest.split_once('\n').ok_or("options")?;
    let mut shelf = shelf_of(alloc, rules.as_bytes(), deal.as_bytes())?;
    let words = format!(in alloc; "solve rules deal {options} --cache {cache} --memo {memo}")?;
    let printed = print(alloc, &mut shelf, words.as_str())?;
    let want = format!(in alloc; "{text}\n")?;
    Ok(printed.status == Status::Done && printed.text.as_slice() == want.as_bytes())
}

#[test]
fn no_text_of_a_small_game_hangs_on_the_cache_or_the_memo(rt: HostRuntime) -> Result<(), Fail> {
    for row in RUNS.split("\n\n") {
        for cache in [1, 100] {
            for memo in ["linked", "lru"] {
                let printed = is_printed(rt.alloc(), row, cache, memo)?;
                assert!(rt; printed, "cache {cache}, memo {memo} at {row}");
            }
        }
    }
    Ok(())
}
