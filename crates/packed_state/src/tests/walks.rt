//! Seventeen games, three moves deep: both forms of a board list the same moves, and every move, and
//! stock moves at once, are made, taken back, and leave each slot and each link as it was.
ghost use Rattle.std.specs.Prelude.{◌≡◌, not, IsTrue, IfSome, OnOk, IfOk};
ghost use Rattle.game_rules.specs.Rules.{deals_to_waste};
ghost use Rattle.game_rules.specs.Belonging.{Belongs};
ghost use Rattle.game_rules.specs.Play.{Legal};
ghost use Rattle.game_rules.specs.StockMoves.{is_carry};
ghost use Rattle.packed_state.specs.Packed.{board_of};

use crate::Packed;
use crate::tests::traces::Trace;
use card_piles::Card;
use game_model::{Board, BoardParts, Conflict, Face, Goal, Items, Rules, Target};
use game_rules::{Move, suit_at};
use legal_moves::list_moves;
use small_games::{no_parts, rules_of, same_boards};
use std::alloc::{AllocError, Global};
use std::test::Fail;

/// How many stock moves are made at once: more than a pass of Klondike has.
const MOST_STOCK_MOVES: u16 = 12;

/// The rules of each game, and how many cards its deal puts in the cells. They are FreeCell, Klondike, Black Hole,
/// Golf, Spider, Gaps, Beleaguered Castle, the little cell, Baker's Game, ForeCell, Eight Off, Seahaven Towers,
/// Penguin, Streets and Alleys, Flower Garden, King Albert and Baker's Dozen.
const GAMES: [(&str, u8); 17] = [
    ("ranks 13 piles 8 cells 4 reserve 0 stock 0 red-black", 0),
    (
        "ranks 13 piles 7 cells 0 reserve 0 stock 24 draw 3 unlimited top-up run king red-black",
        0,
    ),
    (
        "ranks 13 piles 17 cells 0 reserve 0 stock 0 none hole-wraps",
        0,
    ),
    (
        "ranks 13 piles 7 cells 0 reserve 0 stock 16 to-hole none hole",
        0,
    ),
    (
        "decks 2 ranks 13 piles 10 cells 0 reserve 0 stock 50 to-tableau top-up run any-suit suit-groups complete-runs",
        0,
    ),
    ("ranks 13 rows", 0),
    (
        "ranks 13 piles 8 cells 0 reserve 0 stock 0 any-suit started",
        0,
    ),
    ("ranks 6 piles 4 cells 1 reserve 0 stock 0 red-black", 0),
    ("ranks 13 piles 8 cells 4 reserve 0 stock 0 same-suit", 0),
    (
        "ranks 13 piles 8 cells 4 reserve 0 stock 0 red-black king",
        4,
    ),
    (
        "ranks 13 piles 8 cells 8 reserve 0 stock 0 same-suit king",
        4,
    ),
    (
        "ranks 13 piles 10 cells 4 reserve 0 stock 0 same-suit king",
        2,
    ),
    (
        "ranks 13 piles 7 cells 7 reserve 0 stock 0 same-suit run king started round",
        0,
    ),
    ("ranks 13 piles 8 cells 0 reserve 0 stock 0 any-suit", 0),
    ("ranks 13 piles 6 cells 0 reserve 16 stock 0 any-suit", 0),
    ("ranks 13 piles 9 cells 0 reserve 7 stock 0 red-black", 0),
    (
        "ranks 13 piles 13 cells 0 reserve 0 stock 0 any-suit none",
        0,
    ),
];

/// The rules of a game. If the last word is `round`, a king can be put on an ace.
fn rules_in(words: &str) -> Result<Rules, Conflict> {
    let mut parts = rules_of(words)?.parts();
    parts.wrap = words.ends_with("round");
    Rules::new(parts)
}

/// The card at a place of a deck that was cut and stepped through.
fn card_at(place: u16) -> Option<Card> {
    let number = (place % 52 * 23 + 16) % 52;
    Card::new(suit_at((number / 13) as u8), (number % 13) as u8 + 1)
}

/// Whether a dealt game begins with the aces on their foundations.
fn has_aces_home(rules: &Rules) -> bool {
    matches!(rules.goal(), Goal::Foundations { started: true, .. })
}

/// The cards that are dealt, in their order.
fn deck(alloc: Global, rules: &Rules) -> Result<Vec<Card>, AllocError> {
    let mut cards = Vec::new(alloc);
    let lowest: u8 = if has_aces_home(rules) { 2 } else { 1 };
    for place in 0..u16::from(rules.decks()) * 52 {
        if let Some(card) = card_at(place)
            && lowest <= card.rank()
            && card.rank() <= rules.max_rank()
        {
            cards.push(card)?;
        }
    }
    Ok(cards)
}

/// Deals the piles, all but the top of each face down if the rules say so.
fn deal_piles(
    alloc: Global,
    rules: &Rules,
    parts: &mut BoardParts,
    cards: &[Card],
) -> Result<(), AllocError> {
    let piles = usize::from(rules.piles());
    for i in 0..piles {
        let mut pile = Items::new(alloc);
        let mut height: u8 = 0;
        for (place, card) in cards.iter().enumerate() {
            if place % piles == i {
                pile.push(*card)?;
                height = height.saturating_add(1);
            }
        }
        parts.tableau.push(pile)?;
        if matches!(rules.face(), Face::TopUp) {
            parts.face_down.push(height.saturating_sub(1))?;
        }
    }
    Ok(())
}

/// Deals four rows without the aces.
fn deal_rows(alloc: Global, parts: &mut BoardParts) -> Result<(), AllocError> {
    for row in 0..4 {
        let mut entries = Items::new(alloc);
        for column in 0..13 {
            entries.push(card_at(row * 13 + column).filter(|card| card.rank() != 1))?;
        }
        parts.rows.push(entries)?;
    }
    Ok(())
}

/// Deals so many cards to a list, and gives those that are left.
fn deal_to<'a>(
    cards: &mut Items<Card>,
    mut left: &'a [Card],
    count: u8,
) -> Result<&'a [Card], AllocError> {
    for _ in 0..count {
        if let Some((card, others)) = left.split_first() {
            cards.push(*card)?;
            left = others;
        }
    }
    Ok(left)
}

/// Deals a card to each of so many entries, and gives those that are left.
fn deal_entries<'a>(
    entries: &mut Items<Option<Card>>,
    mut left: &'a [Card],
    count: u8,
) -> Result<&'a [Card], AllocError> {
    for _ in 0..count {
        if let Some((card, others)) = left.split_first() {
            entries.push(Some(*card))?;
            left = others;
        }
    }
    Ok(left)
}

/// A whole deal of the game, with so many cards in the cells.
fn deal(alloc: Global, rules: &Rules, in_cells: u8) -> Result<Board, Fail>
    ensures { IfOk result (λ board. Belongs rules.now board) }
{
    let mut parts = no_parts(alloc);
    if rules.row_count() > 0 {
        deal_rows(alloc, &mut parts)?;
    } else {
        let cards = deck(alloc, rules)?;
        let mut left = cards.as_slice();
        if rules.has_hole() {
            left = deal_to(&mut parts.hole, left, 1)?;
        }
        left = deal_to(&mut parts.stock, left, rules.stock())?;
        left = deal_entries(&mut parts.cells, left, in_cells)?;
        left = deal_entries(&mut parts.reserve, left, rules.parts().reserve)?;
        if has_aces_home(rules) {
            for _ in 0..4 {
                parts.foundations.push(1)?;
            }
        }
        deal_piles(alloc, rules, &mut parts, left)?;
    }
    let board = Board::new(alloc, rules, parts)?;
    Ok(board)
}

/// The next stock move of a board whose stock deals to the waste.
fn next_stock_move(rules: &Rules, packed: &Packed) -> Option<Move>
    requires { Belongs rules.now (board_of packed.now) }
    ensures waste { IfSome result (λ m. IsTrue (deals_to_waste rules.now.target)) }
    ensures legal { IfSome result
        (λ m. IsTrue (not (is_carry m)) × Legal rules.now (board_of packed.now) m) }
{
    if !matches!(rules.target(), Target::ToWaste) {
        None
    } else if packed.is_legal(rules, Move::Deal) {
        Some(Move::Deal)
    } else if packed.is_legal(rules, Move::Redeal) {
        Some(Move::Redeal)
    } else {
        None
    }
}

/// Whether stock moves at once lead where the same moves lead one by one, and are taken back: one
/// of them, then two, and so on, as long as there are any and up to `most`.
fn run_stock_moves(
    alloc: Global,
    rules: &Rules,
    packed: &mut Packed,
    most: u16,
) -> Result<bool, Fail>
    requires { Belongs rules.now (board_of packed.old) }
    ensures { OnOk result (packed.new ≡ packed.old) }
{
    let board = packed.to_board(alloc, rules)?;
    let trace = Trace::of(packed);
    let mut single = Packed::from_board(rules, &board);
    for made in 0..most {
        let Some(m) = next_stock_move(rules, &single) else {
            break;
        };
        let _ = single.go(rules, m);
        let there = single.to_board(alloc, rules)?;
        let undo = packed.run_stock(rules, made + 1);
        let leads_there = same_boards(rules, &packed.to_board(alloc, rules)?, &there);
        packed.unrun_stock(undo);
        if !leads_there || !trace.is_of(packed) {
            return Ok(false);
        }
    }
    Ok(true)
}

/// How many moves were made so deep and taken back, and None if the two forms of the board listed
/// other moves or one move left a trace.
fn walk(alloc: Global, rules: &Rules, packed: &mut Packed, depth: u8) -> Result<Option<u64>, Fail>
    requires { Belongs rules.now (board_of packed.old) }
    ensures { OnOk result (packed.new ≡ packed.old) }
{
    if depth == 0 {
        return Ok(Some(0));
    }
    if !run_stock_moves(alloc, rules, packed, MOST_STOCK_MOVES)? {
        return Ok(None);
    }
    let board = packed.to_board(alloc, rules)?;
    let trace = Trace::of(packed);
    let mut moves = Vec::new(alloc);
    packed.list_moves(alloc, rules, &mut moves)?;
    let mut others = Vec::new(alloc);
    list_moves(alloc, rules, &board, &mut others)?;
    if moves.as_slice() != others.as_slice() {
        return Ok(None);
    }
    let mut made: u64 = 0;
    for m in &moves {
        if !packed.is_legal(rules, *m) {
            return Ok(None);
        }
        let undo = packed.go(rules, *m);
        let below = walk(alloc, rules, packed, depth - 1)?;
        packed.back(undo);
        let (true, Some(below)) = (trace.is_of(packed), below) else {
            return Ok(None);
        };
        made = made.saturating_add(below).saturating_add(1);
    }
    Ok(Some(made))
}

#[test]
fn seventeen_games_are_walked_three_moves_deep(rt: HostRuntime) -> Result<(), Fail> {
    let alloc = rt.alloc();
    for (game, in_cells) in GAMES {
        let rules = rules_in(game)?;
        let start = deal(alloc, &rules, in_cells)?;
        let mut packed = Packed::from_board(&rules, &start);
        let made = walk(alloc, &rules, &mut packed, 3)?;
        assert!(rt; matches!(made, Some(made) if made > 2), "{game}");
    }
    Ok(())
}
