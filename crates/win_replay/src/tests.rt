//! Lines replayed on two small deals.
use crate::replay;
use legal_moves::Move;
use small_games::{board_of, move_of, rules_of};
use std::alloc::{AllocError, Global};
use std::test::Fail;

/// A hole game of aces and twos round an ace.
const HOLE: &str = "ranks 2 piles 4 none hole cells 0 reserve 0 stock 0";

const ACES: &str = "pile AC 2C pile AD 2D pile AH 2H pile 2S hole AS";

/// An ace under the two, beside an empty pile.
const PLAIN: &str = "ranks 2 piles 2 cells 0 reserve 0 stock 0";

const UNDER: &str = "pile AC 2C home 0 2 2 2";

/// For each line what a replay of it answers, and then its moves.
const HOLE_LINES: &str = "\
Wins: t0 h, t0 h, t1 h, t1 h, t2 h, t2 h, t3 h
EndsShort: t0 h, t0 h, t1 h, t1 h, t2 h, t2 h
Illegal { at: 3 }: t0 h, t0 h, t3 h, t1 h, t2 h, t2 h, t3 h
Illegal { at: 1 }: t1 h, t0 h, t0 h, t1 h";

const PLAIN_LINES: &str = "\
Wins: t0 t1, t0 f0, t1 f0
EndsShort: t0 t1, t0 f0
Illegal { at: 0 }: t0 t1 0, t0 t1";

fn moves_of(alloc: Global, text: &str) -> Result<Vec<Move>, AllocError> {
    let mut moves = Vec::new(alloc);
    for text in text.split(", ") {
        moves.push(move_of(text))?;
    }
    Ok(moves)
}

/// The first line that is not answered so, if there is one.
fn wrong_line<'a>(
    alloc: Global,
    rules: &str,
    board: &str,
    lines: &'a str,
) -> Result<Option<&'a str>, Fail> {
    let rules = rules_of(rules)?;
    let start = board_of(alloc, &rules, board)?;
    for line in lines.split('\n') {
        let (answer, moves) = line.split_once(": t").ok_or("an answer")?;
        let moves = format!(in alloc; "t{moves}")?;
        let moves = moves_of(alloc, moves.as_str())?;
        let replayed = replay(alloc, &rules, &start, &moves)?;
        if format!(in alloc; "{replayed:?}")?.as_str() != answer {
            return Ok(Some(line));
        }
    }
    Ok(None)
}

#[test]
fn lines_win_end_short_or_break(rt: HostRuntime) -> Result<(), Fail> {
    let alloc = rt.alloc();
    assert_eq!(rt; wrong_line(alloc, HOLE, ACES, HOLE_LINES)?, None);
    assert_eq!(rt; wrong_line(alloc, PLAIN, UNDER, PLAIN_LINES)?, None);
    Ok(())
}
