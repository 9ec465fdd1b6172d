//! Keys on boards that come up in play: two hundred of each of the games of games/, and of one with a reserve.
ghost use Rattle.std.specs.Prelude.{◌<◌, IfOk, IfSome};
ghost use Rattle.game_rules.specs.Belonging.{Belongs};

use crate::{Key, board_of, key_of, key_of_board};
use card_piles::Card;
use game_model::{Board, BoardParts, Items, Rules, Target};
use packed_state::Packed;
use seed_deal::deal_from_seed;
use small_games::{no_parts, rules_of};
use std::alloc::{AllocError, Global};
use std::test::Fail;

/// The games, in words.
const GAMES: [&str; 9] = [
    "ranks 13 piles 8 red-black cells 4 reserve 0 stock 0",
    "ranks 13 piles 7 top-up red-black run king cells 0 reserve 0 stock 24 draw 3 unlimited",
    "ranks 13 piles 17 none hole-wraps cells 0 reserve 0 stock 0",
    "ranks 13 piles 7 none hole cells 0 reserve 0 stock 16 to-hole",
    "ranks 13 piles 8 any-suit started cells 0 reserve 0 stock 0",
    "ranks 6 piles 4 red-black cells 1 reserve 0 stock 0",
    "decks 2 ranks 13 piles 10 top-up any-suit run suit-groups complete-runs cells 0 reserve 0 stock 50 to-tableau",
    "ranks 13 rows",
    "ranks 13 piles 10 same-suit cells 0 reserve 12 stock 0",
];

/// The number i of n like places, once these are turned round.
fn turned(i: u8, by: u8, n: u8) -> u8
    requires { i < n }
    ensures { result < n }
{
    ((u16::from(i) + u16::from(by)) % u16::from(n)) as u8
}

/// Whether the order of the piles counts.
fn piles_count(rules: &Rules, board: &Board) -> bool {
    matches!(rules.target(), Target::ToTableau) && !board.stock().is_empty()
}

/// Copies the piles, turned round where their order does not count.
fn copy_piles(
    alloc: Global,
    rules: &Rules,
    board: &Board,
    by: u8,
    parts: &mut BoardParts,
) -> Result<(), AllocError>
    requires { Belongs rules.now board.now }
{
    let by = if piles_count(rules, board) { 0 } else { by };
    for i in 0..rules.piles() {
        let pile = turned(i, by, rules.piles());
        parts
            .tableau
            .push(Items::from_slice(alloc, board.pile(pile))?)?;
        parts.face_down.push(board.face_down(pile))?;
    }
    Ok(())
}

/// Copies the cells and the reserve, turned round.
fn copy_entries(
    rules: &Rules,
    board: &Board,
    by: u8,
    parts: &mut BoardParts,
) -> Result<(), AllocError>
    requires { Belongs rules.now board.now }
{
    for i in 0..rules.cells() {
        parts.cells.push(board.cell(turned(i, by, rules.cells())))?;
    }
    for i in 0..rules.reserve() {
        let entry = usize::from(turned(i, by, rules.reserve()));
        if let Some(entry) = board.reserve().get(entry) {
            parts.reserve.push(*entry)?;
        }
    }
    Ok(())
}

/// Copies a row.
fn copy_row(
    alloc: Global,
    rules: &Rules,
    board: &Board,
    row: u8,
) -> Result<Items<Option<Card>>, AllocError>
    requires { Belongs rules.now board.now }
{
    let mut entries = Items::new(alloc);
    for column in 0..rules.max_rank() {
        let slot = row.saturating_mul(rules.max_rank()).saturating_add(column);
        if slot < rules.slot_count() {
            entries.push(board.slot(slot))?;
        }
    }
    Ok(entries)
}

/// Copies the rows and the foundations, turned round.
fn copy_rows(
    alloc: Global,
    rules: &Rules,
    board: &Board,
    by: u8,
    parts: &mut BoardParts,
) -> Result<(), AllocError>
    requires { Belongs rules.now board.now }
{
    for i in 0..rules.row_count() {
        let row = turned(i, by, rules.row_count());
        parts.rows.push(copy_row(alloc, rules, board, row)?)?;
    }
    for f in 0..rules.foundation_count() {
        let other = turned(f, 4, rules.foundation_count());
        parts.foundations.push(board.height(other))?;
    }
    Ok(())
}

/// The parts of a board with like places turned round.
fn turned_copy(
    alloc: Global,
    rules: &Rules,
    board: &Board,
    by: u8,
) -> Result<BoardParts, AllocError>
    requires { Belongs rules.now board.now }
{
    let mut parts = no_parts(alloc);
    copy_piles(alloc, rules, board, by, &mut parts)?;
    copy_entries(rules, board, by, &mut parts)?;
    copy_rows(alloc, rules, board, by, &mut parts)?;
    parts.stock = Items::from_slice(alloc, board.stock())?;
    parts.waste = Items::from_slice(alloc, board.waste())?;
    parts.hole = Items::from_slice(alloc, board.hole())?;
    parts.redeals_left = board.redeals_left();
    Ok(parts)
}

/// Exchanges the tops of the last two piles, if these have different numbers of cards.
fn exchange_tops(parts: &mut BoardParts) -> Result<bool, AllocError> {
    let (Some(mut last), Some(mut other)) = (parts.tableau.pop(), parts.tableau.pop()) else {
        return Ok(false);
    };
    if last.len() == other.len() {
        return Ok(false);
    }
    let (Some(top), Some(second)) = (last.pop(), other.pop()) else {
        return Ok(false);
    };
    last.push(second)?;
    other.push(top)?;
    parts.tableau.push(other)?;
    parts.tableau.push(last)?;
    Ok(top != second)
}

/// Whether the board that a key is read back to has the key.
fn comes_back(alloc: Global, rules: &Rules, key: &Key) -> Result<bool, Fail> {
    match board_of(alloc, rules, key)? {
        Some(back) => Ok(key_of_board(rules, &back) == *key),
        None => Ok(false),
    }
}

/// Whether the board of the parts has the key.
fn has_key(alloc: Global, rules: &Rules, parts: BoardParts, key: &Key) -> Result<bool, Fail> {
    let board = Board::new(alloc, rules, parts)?;
    Ok(key_of_board(rules, &board) == *key)
}

/// Whether another board has another key: that with two tops exchanged.
fn differs(alloc: Global, rules: &Rules, board: &Board, by: u8, key: &Key) -> Result<bool, Fail>
    requires { Belongs rules.now board.now }
{
    let mut parts = turned_copy(alloc, rules, board, by)?;
    if exchange_tops(&mut parts)? {
        return Ok(!has_key(alloc, rules, parts, key)?);
    }
    Ok(true)
}

/// Whether the key of a board is that of its packed form, of its copy with places turned round and of the board that it
/// is read back to, and not that of another board.
fn key_is_right(alloc: Global, rules: &Rules, board: &Board, by: u8) -> Result<bool, Fail>
    requires { Belongs rules.now board.now }
{
    let key = key_of_board(rules, board);
    if key_of(rules, &Packed::from_board(rules, board)) != key {
        return Ok(false);
    }
    let copy = turned_copy(alloc, rules, board, by)?;
    let is_same = has_key(alloc, rules, copy, &key)?;
    let is_read = comes_back(alloc, rules, &key)?;
    Ok(is_same && is_read && differs(alloc, rules, board, by, &key)?)
}

/// The board after the move of a number, and none where it has no move.
fn played(alloc: Global, rules: &Rules, board: &Board, number: u64) -> Result<Option<Board>, Fail>
    requires { Belongs rules.now board.now }
    ensures { IfOk result (λ next. IfSome next (λ board. Belongs rules.now board)) }
{
    let mut packed = Packed::from_board(rules, board);
    let mut moves = Vec::new(alloc);
    packed.list_moves(alloc, rules, &mut moves)?;
    match moves.get(number as usize % moves.len().max(1)) {
        Some(m) if packed.is_legal(rules, *m) => {
            let _ = packed.go(rules, *m);
            Ok(Some(packed.to_board(alloc, rules)?))
        }
        _ => Ok(None),
    }
}

/// Whether the keys of two hundred boards of the game are right. Each move is chosen by a number that looks random.
fn game_is_right(alloc: Global, rules: &Rules) -> Result<bool, Fail> {
    let mut board = deal_from_seed(alloc, rules, 0)?;
    let mut state: u64 = 18;
    for round in 0..200u8 {
        if !key_is_right(alloc, rules, &board, round)? {
            return Ok(false);
        }
        state = state
            .wrapping_mul(6364136223846793005)
            .wrapping_add(1442695040888963407);
        board = match played(alloc, rules, &board, state / 4294967296)? {
            Some(next) => next,
            None => deal_from_seed(alloc, rules, u64::from(round))?,
        };
    }
    Ok(true)
}

#[test]
fn keys_of_played_boards_are_right(rt: HostRuntime) -> Result<(), Fail> {
    for game in GAMES {
        let rules = rules_of(game)?;
        assert!(rt; game_is_right(rt.alloc(), &rules)?, "at {game}");
    }
    Ok(())
}
