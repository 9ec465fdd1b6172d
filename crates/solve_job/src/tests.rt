//! Small games, solved. The counts are those of a plain program over the same games, written apart.
use crate::{Limits, MemoKind, solve};
use line_printer::write_verdict;
use small_games::{board_of, rules_of};
use std::alloc::Global;
use std::test::Fail;
use streamliner::Streamliner;

/// For each game its rules, its board, the cache, the nodes and those of a search that takes the first carry to a
/// foundation alone, and then the verdict.
const GAMES: &str = "\
ranks 2 piles 4 none hole cells 0 reserve 0 stock 0
pile AC 2C pile AD 2D pile AH 2H pile 2S hole AS
100000 7 0
winnable
nodes 7
narrow 0
moves 7
t0 h
t0 h
t1 h
t1 h
t2 h
t2 h
t3 h

ranks 2 piles 4 none hole cells 0 reserve 0 stock 0
pile AC 2C pile AD 2D pile AH 2H pile 2S hole AS
100000 6 0
undecided
nodes 6
narrow 0

ranks 2 piles 3 none hole cells 0 reserve 0 stock 0
pile 2S 2C AC pile 2D AD pile 2H AH hole AS
100000 1000000 0
unwinnable
nodes 1
narrow 0

ranks 2 piles 4 none hole cells 0 reserve 0 stock 0
pile 2C pile AC 2D pile AD 2H pile AH 2S hole AS
1 10 0
winnable
nodes 10
narrow 0
moves 7
t1 h
t1 h
t2 h
t2 h
t3 h
t3 h
t0 h

ranks 2 piles 4 none hole cells 0 reserve 0 stock 0
pile 2C pile AC 2D pile AD 2H pile AH 2S hole AS
1 9 0
undecided
nodes 9
narrow 0

ranks 2 piles 0 none hole cells 0 reserve 0 stock 0
hole AC AD AH AS 2C 2D 2H 2S
1 1 0
winnable
nodes 0
narrow 0
moves 0

ranks 4 piles 3 cells 0 reserve 0 stock 0
pile AC 2C 3C 4C home 0 4 4 4
1 1000000 0
unwinnable
nodes 3
narrow 0

ranks 3 piles 3 king cells 0 reserve 0 stock 0
pile AC 2C pile 3C home 0 3 3 3
100000 1000000 0
unwinnable
nodes 1
narrow 0

ranks 4 piles 2 none cells 2 reserve 0 stock 0
pile AC 2C 3C 4C pile AD 2D 3D 4D home 0 0 4 4
100000 1000000 0
unwinnable
nodes 6
narrow 0

ranks 4 piles 2 none cells 2 reserve 0 stock 0
pile AC 2C 3C 4C pile AD 2D 3D 4D home 0 0 4 4
1 1000000 0
unwinnable
nodes 13
narrow 0

ranks 4 piles 2 none cells 1 reserve 0 stock 0
pile 2C 3C 4C pile AC home 0 4 4 4
100000 1000000 0
unwinnable
nodes 3
narrow 0

ranks 1 piles 0 cells 0 reserve 0 stock 4 draw 3
stock AC AD AH AS
100000 1000000 0
winnable
nodes 4
narrow 0
moves 6
deal
w f1
w f2
w f3
deal
w f0

ranks 2 piles 0 cells 0 reserve 0 stock 2 draw 2 unlimited
stock 2C AC home 0 2 2 2
100000 1000000 0
unwinnable
nodes 1
narrow 0

ranks 3 piles 0 cells 0 reserve 0 stock 3 redeals 1
stock AC 3C 2C left 1 home 0 3 3 3
100000 1000000 0
winnable
nodes 3
narrow 0
moves 9
deal
deal
deal
w f0
redeal
deal
w f0
deal
w f0

ranks 3 piles 1 cells 0 reserve 0 stock 2 redeals 1
pile 3C stock AC 2C left 1 home 0 3 3 3
100000 1000000 0
winnable
nodes 3
narrow 0
moves 5
deal
deal
w f0
w f0
t0 f0

ranks 3 piles 2 red-black none cells 0 reserve 0 stock 0
pile 3C 3D pile AC 2C home 0 2 3 3
100000 1000000 10
winnable
nodes 6
narrow 2
moves 5
t1 t0 1
t1 f0
t0 f0
t0 f1
t0 f0

ranks 2 piles 2 cells 0 reserve 0 stock 0
pile AC 2C home 0 2 2 2
100000 1000000 10
winnable
nodes 0
narrow 3
moves 3
t0 t1 1
t0 f0
t1 f0";

/// The verdict on a game, as it is printed.
fn verdict_on(
    alloc: Global,
    rules: &str,
    board: &str,
    numbers: &str,
    memo: MemoKind,
) -> Result<Vec<u8>, Fail> {
    let rules = rules_of(rules)?;
    let start = board_of(alloc, &rules, board)?;
    let (cache, rest) = numbers.split_once(' ').ok_or("three numbers")?;
    let (nodes, narrow) = rest.split_once(' ').ok_or("three numbers")?;
    let limits = Limits {
        cache: cache.parse::<u32>()?.max(1),
        nodes: nodes.parse::<u64>()?.max(1),
        narrow: narrow.parse::<u64>()?,
        way: Streamliner::AutoFoundations,
        memo,
    };
    let verdict = solve(alloc, &rules, &start, &limits)?;
    let text = write_verdict(alloc, &verdict)?;
    Ok(text)
}

#[test]
fn each_game_has_its_verdict_with_either_memo(rt: HostRuntime) -> Result<(), Fail> {
    let alloc = rt.alloc();
    for game in GAMES.split("\n\n") {
        let (rules, rest) = game.split_once('\n').ok_or("rules")?;
        let (board, rest) = rest.split_once('\n').ok_or("a board")?;
        let (numbers, verdict) = rest.split_once('\n').ok_or("numbers")?;
        let want = format!(in alloc; "{verdict}\n")?;
        for memo in [MemoKind::Linked, MemoKind::Lru] {
            let text = verdict_on(alloc, rules, board, numbers, memo)?;
            assert!(rt; text.as_slice() == want.as_bytes(), "{memo:?} {game}");
        }
    }
    Ok(())
}
