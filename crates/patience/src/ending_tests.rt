//! Positions near the end of the two games whose cards go home by suits or stand in rows: lines are replayed that win
//! and that go wrong.
use crate::tests::{print, shelf_of};
use std::alloc::Global;
use std::test::Fail;

/// Spider with the spades of one deck left: ten piles, one card face down, and two cards in the stock.
const SPIDER: (&str, &str) = (
    r#"{"decks":2,"tableau":{"piles":10,"face":"top up","build":"any-suit","groups":"run","group build":"same-suit"},"foundations":{"complete runs":true},"stock":{"size":50,"to":"tableau"}}"#,
    r#"{"tableau":[["KS"],["QS"],["JS"],["TS"],["9S"],["8S"],["7S"],["6S"],["AS","5S"],["4S"]],"face down":[0,0,0,0,0,0,0,0,1,0],"stock":["2S","3S"],"foundations":[13,13,13,13,13,13,13,0]}"#,
);

/// Gaps with three cards out of place.
const GAPS: (&str, &str) = (
    r#"{"sequences":{}}"#,
    r#"{"rows":[["2C","3C","4C","5C","6C","7C","8C","9C","TC","JC",null,"KC","KD"],["2D","3D","4D","5D","6D","7D","8D","9D","TD","JD","QD","QC"],["2H","3H","4H","5H","6H","7H","8H","9H","TH","JH","QH","KH"],[null,"3S","4S","5S","6S","7S","8S","9S","TS","JS","QS","KS","2S"]]}"#,
);

/// What is printed of a line, whose moves stand between commas.
fn replays(alloc: Global, game: (&str, &str), line: &str, want: &str) -> Result<bool, Fail> {
    let (rules, deal) = game;
    let mut moves = Vec::new(alloc);
    for text in line.split(", ") {
        moves.extend_from_slice(text.as_bytes())?;
        moves.push(b'\n')?;
    }
    let mut shelf = shelf_of(alloc, rules.as_bytes(), deal.as_bytes())?;
    shelf.add("line", &moves)?;
    let printed = print(alloc, &mut shelf, "replay rules deal line")?;
    Ok(printed.text.as_slice() == want.as_bytes())
}

#[test]
fn lines_that_end_a_game_of_spider(rt: HostRuntime) -> Result<(), Fail> {
    for (line, want) in [
        (
            "deal, t0 t9 1, t1 t9 1, t9 t8 3, t8 t7 4, t8 t7 1, t7 t6 6, t6 t5 7, t5 t4 8, t4 t3 9, t3 t2 10, t2 t1 11, t1 t0 12, t0 f7 13",
            "wins\nmoves 14\n",
        ),
        // A card lies face down, a space stops the deal, and a run goes home whole or not at all.
        (
            "deal, t0 t9 1, t1 t9 1, t9 t8 3, t8 t7 5",
            "refused line illegal 4\n",
        ),
        ("t9 t8 1, deal", "refused line illegal 1\n"),
        ("t8 t7 1, t8 f7", "refused line illegal 1\n"),
    ] {
        assert!(rt; replays(rt.alloc(), SPIDER, line, want)?, "{line}");
    }
    Ok(())
}

#[test]
fn lines_that_end_a_game_of_gaps(rt: HostRuntime) -> Result<(), Fail> {
    for (line, want) in [
        ("s24 s10, s12 s24, s51 s39", "wins\nmoves 3\n"),
        ("s51 s39, s24 s10", "refused line ends-short\n"),
        ("s51 s39, s12 s24", "refused line illegal 1\n"),
        ("s51 s10", "refused line illegal 0\n"),
    ] {
        assert!(rt; replays(rt.alloc(), GAPS, line, want)?, "{line}");
    }
    Ok(())
}
