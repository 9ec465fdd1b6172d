//! The list of stock steps against a slow reading of what a stock step is, on boards of small games.
ghost use Rattle.game_rules.specs.Belonging.{Belongs};

use crate::{Step, expand, list_stock_steps};
use game_model::{Board, Rules};
use game_rules::{Move, Place};
use legal_moves::{PlayFault, list_moves, play};
use packed_state::Packed;
use small_games::{board_of, move_of, rules_of, same_boards};
use std::alloc::Global;
use std::test::Fail;

/// What the games below have in common: three piles and a stock of fourteen cards.
const RULES: &str = "ranks 5 piles 3 cells 0 reserve 0 top-up red-black run king stock 14";

const BOARD: &str = "pile 5C pile 4D 3S pile 2H 5S 4C down 0 1 2
    stock 3H AS 5D 2C 4H AC 3D 2S AH 5H 2D 4S AD 3C";

/// The draw and the redeals of each game, and the redeals that are left.
const GAMES: &str = "draw 1 redeals 0 | left 0
draw 1 redeals 1 | left 1
draw 1 redeals 2 | left 2
draw 1 unlimited | left 0
draw 2 redeals 0 | left 0
draw 2 redeals 1 | left 1
draw 2 redeals 2 | left 2
draw 2 unlimited | left 0
draw 3 redeals 0 | left 0
draw 3 redeals 1 | left 1
draw 3 redeals 2 | left 2
draw 3 unlimited | left 0";

/// What stock moves change of a board: the redeals left, the stock and the waste.
fn picture(alloc: Global, board: &Board) -> Result<Vec<u8>, Fail> {
    let mut picture = Vec::new(alloc);
    picture.push(board.redeals_left())?;
    for card in board.stock() {
        picture.push(card.suit().place())?;
        picture.push(card.rank())?;
    }
    picture.push(99)?;
    for card in board.waste() {
        picture.push(card.suit().place())?;
        picture.push(card.rank())?;
    }
    Ok(picture)
}

/// Appends the legal carries from the waste after so many stock moves.
fn push_carries(
    alloc: Global,
    rules: &Rules,
    board: &Board,
    deals: u16,
    found: &mut Vec<Step>,
) -> Result<(), Fail>
    requires { Belongs rules.now board.now }
{
    let mut moves = Vec::new(alloc);
    list_moves(alloc, rules, board, &mut moves)?;
    for m in &moves {
        if let Move::Carry {
            from: Place::Waste,
            ..
        } = *m
        {
            found.push(Step { deals, last: *m })?;
        }
    }
    Ok(())
}

/// The stock steps by their meaning: stock moves as long as no board comes again, with the carries
/// from the waste of each board.
fn slow_steps(alloc: Global, rules: &Rules, mut board: Board) -> Result<Vec<Step>, Fail>
    requires { Belongs rules.now board }
{
    let mut found = Vec::new(alloc);
    let mut seen: Vec<Vec<u8>> = Vec::new(alloc);
    for deals in 0..200 {
        let now = picture(alloc, &board)?;
        if seen.as_slice().contains(&now) {
            break;
        }
        seen.push(now)?;
        push_carries(alloc, rules, &board, deals, &mut found)?;
        let next = if board.stock().is_empty() {
            Move::Redeal
        } else {
            Move::Deal
        };
        match play(alloc, rules, &mut board, next) {
            Ok(()) => {}
            Err(PlayFault::NotLegal) => break,
            Err(PlayFault::Memory) => return Err(PlayFault::Memory)?,
        }
    }
    Ok(found)
}

/// Whether the list has exactly these steps, and leaves the packed board as it was.
fn is_told(alloc: Global, rules: &Rules, board: &Board) -> Result<bool, Fail>
    requires { Belongs rules.now board.now }
{
    let mut packed = Packed::from_board(rules, board);
    let mut listed = Vec::new(alloc);
    list_stock_steps(alloc, rules, &mut packed, &mut listed)?;
    let after = packed.to_board(alloc, rules)?;
    let slow = slow_steps(alloc, rules, board.duplicate(alloc)?)?;
    Ok(listed.as_slice() == slow.as_slice() && same_boards(rules, &after, board))
}

/// Whether the list is right on each of forty boards that a game comes to.
fn is_told_along(alloc: Global, rules: &Rules, mut board: Board) -> Result<bool, Fail>
    requires { Belongs rules.now board }
{
    for turn in 0..40usize {
        if !is_told(alloc, rules, &board)? {
            return Ok(false);
        }
        let mut moves = Vec::new(alloc);
        list_moves(alloc, rules, &board, &mut moves)?;
        if moves.is_empty() {
            break;
        }
        let m = moves[(turn * 7 + 3) % moves.len()];
        play(alloc, rules, &mut board, m)?;
    }
    Ok(true)
}

#[test]
fn the_list_has_the_stock_steps_of_each_board(rt: HostRuntime) -> Result<(), Fail> {
    let alloc = rt.alloc();
    for game in GAMES.lines() {
        let (stock, left) = game.split_once(" | ").ok_or("a game")?;
        let rules = rules_of(format!(in alloc; "{RULES} {stock}")?.as_str())?;
        let start = board_of(alloc, &rules, format!(in alloc; "{BOARD} {left}")?.as_str())?;
        assert!(rt; is_told_along(alloc, &rules, start)?, "{game}");
    }
    Ok(())
}

/// The single moves of all stock steps of a board, one step after the other.
fn expansions(alloc: Global, rules: &Rules, board: &Board) -> Result<Vec<Move>, Fail>
    requires { Belongs rules.now board.now }
{
    // This call brings that the rules are playable, and so that each stock step can be made.
    let _ = rules.parts();
    let mut packed = Packed::from_board(rules, board);
    let mut steps = Vec::new(alloc);
    list_stock_steps(alloc, rules, &mut packed, &mut steps)?;
    let mut moves = Vec::new(alloc);
    for place in 0..steps.len() {
        expand(alloc, rules, &packed, steps[place], &mut moves)?;
    }
    Ok(moves)
}

#[test]
fn a_step_over_a_redeal_is_eight_moves(rt: HostRuntime) -> Result<(), Fail> {
    let alloc = rt.alloc();
    let rules = rules_of("ranks 3 piles 0 cells 0 reserve 0 stock 3 draw 1 redeals 1")?;
    let board = board_of(alloc, &rules, "stock AC 3C 2C left 1 home 0 3 3 3")?;
    let mut moves = Vec::new(alloc);
    for text in "deal,deal,deal,w f0,deal,deal,deal,redeal,deal,deal,deal,w f0".split(',') {
        moves.push(move_of(text))?;
    }
    assert!(rt; expansions(alloc, &rules, &board)?.as_slice() == moves.as_slice());
    Ok(())
}
