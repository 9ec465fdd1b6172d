//! Moves of each kind, each with the nearest move that is not legal, on both forms of a board.
ghost use Rattle.game_rules.specs.Belonging.{Belongs};

use crate::Packed;
use game_model::{Board, Rules, Table};
use game_rules::Move;
use legal_moves::{Line, PlayFault, is_legal, list_moves_of, play};
use small_games::{board_of, move_of, rules_of, same_boards};
use std::alloc::Global;
use std::test::Fail;

/// Rules, a board, a legal move, the board after it, and a move that is not legal.
const ROWS: &str = "
same-suit | pile 3C pile 2C pile 2D cells 3D home 1 1 3 3
    | t1 t0 | pile 3C 2C pile pile 2D cells 3D home 1 1 3 3 | t2 t0;
red-black | pile 3C pile 2D pile 2S cells 2C 3D reserve 3S home 1 1 3 1
    | t1 t0 | pile 3C 2D pile pile 2S cells 2C 3D reserve 3S home 1 1 3 1 | t2 t0;
any-suit | pile 3C pile 2D pile AC cells 2C 3D home 0 1 3 3
    | t1 t0 | pile 3C 2D pile pile AC cells 2C 3D home 0 1 3 3 | t2 t0;
top-up any-suit run | pile 3C 2C down 1 home 1 3 3 3 | t0 t1 | pile 3C pile 2C home 1 3 3 3 | t0 t1 2;
any-suit run | pile AC 3C 2C home 0 3 3 3 | t0 t1 2 | pile AC pile 3C 2C home 0 3 3 3 | t0 t1 3;
any-suit | pile 3C 2C home 1 3 3 3 | t0 t1 | pile 3C pile 2C home 1 3 3 3 | t0 t1 2;
king | pile 2C 3C pile AC home 0 3 3 3 | t0 t2 | pile 2C pile AC pile 3C home 0 3 3 3 | t1 t2;
king | pile 2C cells 3C home 1 3 3 3 | c0 t1 | pile 2C pile 3C home 1 3 3 3 | c0 t3;
none | pile 2C AC cells 3C home 0 3 3 3 | t0 f0 | pile 2C cells 3C home 1 3 3 3 | t0 t1;
none | pile 2C cells 3C home 1 3 3 3 | t0 c1 | pile cells 3C 2C home 1 3 3 3 | t0 c0;
none | pile 2C cells 3C home 1 3 3 3 | t0 f0 | pile cells 3C home 2 3 3 3 | c0 f0;
none | pile 2C pile 3C home 1 3 3 3 | t0 f0 | pile pile 3C home 2 3 3 3 | t0 t0;
decks 2 | pile 3C 2C AC home 3 3 3 3 0 3 3 3 | t0 f4 | pile 3C 2C home 3 3 3 3 1 3 3 3 | t0 f0;
base 2 | pile AC pile 3C home 1 3 3 3 | t1 f0 | pile AC pile home 2 3 3 3 | t0 f0;
base 2 | pile AC home 2 3 3 3 | t0 f0 | pile home 3 3 3 3 | t0 f1;
take-back any-suit | pile 3C home 2 3 3 3 | f0 t0 | pile 3C 2C home 1 3 3 3 | f1 t0;
any-suit | pile 3C home 2 3 3 3 | t0 f0 | pile home 3 3 3 3 | f0 t0;
complete-runs same-suit run | pile 3C 2C AC home 0 3 3 3 | t0 f0 3 | pile home 3 3 3 3 | t0 f0 2;
stacked | reserve 2C AC pile 3C home 0 3 3 3 | e0 f0 | reserve 2C pile 3C home 1 3 3 3 | e1 t1;
none | reserve 2C AC pile 3C home 0 3 3 3 | e1 f0 | reserve 2C - pile 3C home 1 3 3 3 | e0 f0;
none | waste 2C AC pile 3C home 0 3 3 3 | w f0 | waste 2C pile 3C home 1 3 3 3 | w f0 2;
hole | pile AC pile 3C pile 2D hole AD 3D AH 2H 3H AS 2S 3S 2C
    | t0 h | pile pile 3C pile 2D hole AD 3D AH 2H 3H AS 2S 3S 2C AC | t2 h;
hole-wraps | pile AC pile 2C pile 3D hole AD 2D AH 2H 3H AS 2S 3S 3C
    | t0 h | pile pile 2C pile 3D hole AD 2D AH 2H 3H AS 2S 3S 3C AC | t2 h;
hole | pile AC pile 2C pile 3D hole AD 2D AH 2H 3H AS 2S 3S 3C
    | t1 h | pile AC pile pile 3D hole AD 2D AH 2H 3H AS 2S 3S 3C 2C | t0 h;
rows | row 2C - 3D row 2D 3C row 2H 3H row 2S 3S | s4 s1 | row 2C 3C 3D row 2D row 2H 3H row 2S 3S | s2 s1;
rows | row - 3C row 2C 2S 3S row 2D 3D row 2H 3H | s3 s0 | row 2C 3C row - 2S 3S row 2D 3D row 2H 3H | s1 s0;
draw 2 | stock 2C 3C AC home 0 3 3 3 | deal | stock 2C waste AC 3C home 0 3 3 3 | redeal;
redeals 1 | waste AC 2C left 1 pile 3C home 0 3 3 3 | redeal | stock 2C AC pile 3C home 0 3 3 3 | deal;
redeals 1 | waste AC 2C pile 3C home 0 3 3 3 | w t1 | waste AC pile 3C pile 2C home 0 3 3 3 | redeal;
to-tableau | pile AC pile 2C pile 3C stock 3D 2D AD home 0 0 3 3
    | deal | pile AC AD pile 2C 2D pile 3C 3D home 0 0 3 3 | redeal;
to-tableau | pile AC pile 2C stock 3C home 0 3 3 3 | t0 f0 | pile pile 2C stock 3C home 1 3 3 3 | deal;
hole to-hole | pile AC pile 3C stock 3D 2D hole AD AH 2H 3H AS 2S 3S 2C
    | deal | pile AC pile 3C stock 3D hole AD AH 2H 3H AS 2S 3S 2C 2D | t2 h";

/// Whether the first move is legal and listed, and the second neither.
fn tells<T: Table>(
    alloc: Global,
    rules: &Rules,
    table: &T,
    legal: Move,
    illegal: Move,
) -> Result<bool, Fail>
    requires { Belongs rules.now (T.board table.now) }
{
    let mut listed = Vec::new(alloc);
    list_moves_of(rules, table, &mut listed)?;
    let line = Line::from_vec(listed);
    let asked = is_legal(rules, table, legal) && !is_legal(rules, table, illegal);
    Ok(asked && line.items().contains(&legal) && !line.items().contains(&illegal))
}

/// Whether a board tells the moves apart, refuses the second and plays the first.
fn plays(
    alloc: Global,
    rules: &Rules,
    start: &Board,
    after: &Board,
    legal: Move,
    illegal: Move,
) -> Result<bool, Fail>
    requires start { Belongs rules.now start.now }
    requires after { Belongs rules.now after.now }
{
    let mut played = start.duplicate(alloc)?;
    let refused = play(alloc, rules, &mut played, illegal) == Err(PlayFault::NotLegal)
        && same_boards(rules, &played, start);
    let moved = play(alloc, rules, &mut played, legal) == Ok(())
        && same_boards(rules, &played, after);
    Ok(refused && moved && tells(alloc, rules, start, legal, illegal)?)
}

/// Whether a packed board tells the moves apart, makes the first and takes it back.
fn packs(
    alloc: Global,
    rules: &Rules,
    start: &Board,
    after: &Board,
    legal: Move,
    illegal: Move,
) -> Result<bool, Fail>
    requires start { Belongs rules.now start.now }
    requires after { Belongs rules.now after.now }
{
    let mut packed = Packed::from_board(rules, start);
    if !packed.is_legal(rules, legal) {
        return Ok(false);
    }
    let told = tells(alloc, rules, &packed, legal, illegal)?;
    let undo = packed.go(rules, legal);
    let moved = packed.to_board(alloc, rules)?;
    packed.back(undo);
    let returned = packed.to_board(alloc, rules)?;
    Ok(told && same_boards(rules, &moved, after) && same_boards(rules, &returned, start))
}

/// Whether both forms of a board do what a row says.
fn holds(alloc: Global, row: &str) -> Result<bool, Fail> {
    let mut parts = row.split('|');
    let rules = rules_of(parts.next().unwrap_or(""))?;
    let start = board_of(alloc, &rules, parts.next().unwrap_or(""))?;
    let legal = move_of(parts.next().unwrap_or(""));
    let after = board_of(alloc, &rules, parts.next().unwrap_or(""))?;
    let illegal = move_of(parts.next().unwrap_or(""));
    let played = plays(alloc, &rules, &start, &after, legal, illegal)?;
    let packed = packs(alloc, &rules, &start, &after, legal, illegal)?;
    Ok(played && packed)
}

#[test]
fn moves_of_each_kind_are_told_made_and_taken_back(rt: HostRuntime) -> Result<(), Fail> {
    for row in ROWS.split(';') {
        let held = holds(rt.alloc(), row)?;
        assert!(rt; held, "{row}");
    }
    Ok(())
}
