//! The first safe move of worked boards, and of some hundreds against a slow reading of what is safe.
ghost use Rattle.std.specs.Prelude.{IfOk};
ghost use Rattle.game_rules.specs.Belonging.{Belongs};
ghost use Rattle.packed_state.specs.Packed.{board_of};

use crate::{first_safe, rules_allow};
use card_piles::{Build, Card, builds};
use game_model::{Goal, Rules};
use game_rules::{Move, Place, suit_at};
use packed_state::{Packed, Spot};
use small_games::{board_of, move_of, rules_of};
use std::alloc::Global;
use std::process::Abort;
use std::test::Fail;

/// The first safe move of a board in words.
fn first_safe_in(alloc: Global, rules: &str, board: &str) -> Result<Option<Move>, Fail> {
    let rules = rules_of(rules)?;
    let board = board_of(alloc, &rules, board)?;
    Ok(first_safe(&rules, &Packed::from_board(&rules, &board)))
}

#[test]
fn a_card_is_forced_once_both_that_build_on_it_are_home(rt: HostRuntime) -> Result<(), Fail> {
    let alloc = rt.alloc();
    let rules = "red-black ranks 5 piles 2 cells 0 reserve 0 stock 0";
    let both = first_safe_in(alloc, rules, "pile 5C pile 5H home 4 5 4 5")?;
    assert!(rt; both == Some(move_of("t0 f0")));
    let one = first_safe_in(alloc, rules, "pile 5C pile 4H 5H home 4 5 3 5")?;
    assert!(rt; one.is_none());
    Ok(())
}

#[test]
fn no_card_is_forced_under_two_decks(rt: HostRuntime) -> Result<(), Fail> {
    let alloc = rt.alloc();
    let one = "red-black ranks 1 piles 1 cells 0 reserve 0 stock 0";
    assert!(rt; rules_allow(&rules_of(one)?));
    assert!(rt; first_safe_in(alloc, one, "pile AC home 0 1 1 1")? == Some(move_of("t0 f0")));
    let two = "red-black ranks 1 piles 1 cells 0 reserve 0 stock 0 decks 2";
    assert!(rt; !rules_allow(&rules_of(two)?));
    assert!(rt; first_safe_in(alloc, two, "pile AC home 0 1 1 1 1 1 1 1")?.is_none());
    Ok(())
}

/// Five ranks on four piles, of which groups may leave, two cells, a reserve of two and a stock.
fn full_game(build: Build, wrap: bool, base: u8) -> Result<Rules, Fail> {
    let mut parts = rules_of("ranks 5 piles 4 run top-up unlimited")?.parts();
    parts.build = build;
    parts.group_build = build;
    parts.wrap = wrap;
    parts.stacked = wrap;
    parts.goal = Goal::Foundations {
        base,
        started: false,
        take_back: false,
        complete_runs: false,
    };
    let rules = Rules::new(parts)?;
    Ok(rules)
}

/// Two deals of that game.
const DEALS: [&str; 2] = [
    "pile AC 4C 2D 5D pile 3H AS 4S 2C pile 5C 3D AH 4H pile 2S 5S 3C AD down 2 2 2 2 reserve 4D 2H stock 5H 3S",
    "pile AC 3D 5H 2C pile 4D AS 3C 5D pile 2S 4C AH 3S pile 5C 2H 4S AD down 2 2 2 2 reserve 3H 5S stock 2D 4H",
];

/// Whether the card lies on a foundation, card by card.
fn is_home(rules: &Rules, packed: &Packed, card: Card) -> bool
    requires { Belongs rules.now (board_of packed.now) }
{
    for f in 0..rules.foundation_count() {
        for place in 0..packed.height(f) {
            if card.suit() == suit_at(f % 4) && card.rank() == rules.foundation_rank(place) {
                return true;
            }
        }
    }
    false
}

/// Whether some card of the deck builds on the card and is not home.
fn is_needed(rules: &Rules, packed: &Packed, card: Card) -> bool
    requires { Belongs rules.now (board_of packed.now) }
{
    for suit in 0..4u8 {
        for rank in 1..=rules.max_rank() {
            if let Some(upper) = Card::new(suit_at(suit), rank) {
                if builds(rules.build(), rules.wrap(), rules.max_rank(), upper, card)
                    && !is_home(rules, packed, upper)
                {
                    return true;
                }
            }
        }
    }
    false
}

/// The card that the move carries alone from tableau, cell or reserve to a foundation.
fn card_sent_home(packed: &Packed, m: Move) -> Option<Card> {
    let Move::Carry {
        from,
        to: Place::Foundation(_),
        count: 1,
    } = m
    else {
        return None;
    };
    match from {
        Place::Tableau(i) => packed.at(Spot::Pile(i), 0),
        Place::Cell(i) => packed.at(Spot::Cell(i), 0),
        Place::Reserve(i) => packed.at(Spot::Reserve(i), 0),
        _ => None,
    }
}

/// The first of the moves that sends a card home which no other can still need.
fn slow_first_safe(rules: &Rules, packed: &Packed, moves: &[Move]) -> Option<Move>
    requires { Belongs rules.now (board_of packed.now) }
{
    for m in moves {
        if let Some(card) = card_sent_home(packed, *m) {
            if !is_needed(rules, packed, card) {
                return Some(*m);
            }
        }
    }
    None
}

/// How many boards were met, and how many of them have a safe move.
#[derive(Clone, Copy)]
struct Met {
    boards: u32,
    safe: u32,
}

/// Plays up to forty moves, each taken by a fixed generator, and compares on each board. None if an
/// answer differs from the slow reading.
fn compare_in_play(
    alloc: Global,
    rules: &Rules,
    start: &str,
    mut met: Met,
) -> Result<Option<Met>, Fail> {
    let board = board_of(alloc, rules, start)?;
    let mut packed = Packed::from_board(rules, &board);
    let mut number: u32 = 7;
    for _ in 0..40 {
        let mut moves = Vec::new(alloc);
        packed.list_moves(alloc, rules, &mut moves)?;
        let first = first_safe(rules, &packed);
        if first != slow_first_safe(rules, &packed, &moves) {
            return Ok(None);
        }
        met.boards = met.boards.saturating_add(1);
        if first.is_some() {
            met.safe = met.safe.saturating_add(1);
        }
        number = number.wrapping_mul(75).wrapping_add(74) % 65537;
        let place = if number % 3 == 0 {
            0
        } else {
            number as usize % moves.len().max(1)
        };
        match moves.get(place) {
            Some(m) if packed.is_legal(rules, *m) => {
                packed.go(rules, *m);
            }
            _ => return Ok(Some(met)),
        }
    }
    Ok(Some(met))
}

#[test]
fn the_first_safe_move_is_that_of_a_slow_reading(rt: HostRuntime) -> Result<(), Fail> {
    let alloc = rt.alloc();
    let mut met = Met { boards: 0, safe: 0 };
    for build in [
        Build::NoBuild,
        Build::AnySuit,
        Build::RedBlack,
        Build::SameSuit,
    ] {
        for wrap in [false, true] {
            for base in [1, 3, 5] {
                let rules = full_game(build, wrap, base)?;
                for start in DEALS {
                    let next = compare_in_play(alloc, &rules, start, met)?;
                    assert!(rt; next.is_some(), "at {build:?} {wrap} {base}");
                    met = next.unwrap_or(met);
                }
            }
        }
    }
    assert!(rt;
        met.boards > 400 && met.safe > 100,
        "at {} {}",
        met.boards,
        met.safe
    );
    Ok(())
}
