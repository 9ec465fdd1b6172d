//! Rules and boards of small games.
ghost use Rattle.game_rules.specs.Belonging.{Belongs};

use crate::{
    Board, BoardFault, BoardParts, Conflict, Face, Goal, Groups, Items, Layout, Part, Redeals,
    RuleParts, Rules, Spaces, Target,
};
use card_piles::{Build, Card, Suit};
use std::alloc::{AllocError, Global};
use std::test::Fail;

fn rule_parts() -> RuleParts {
    RuleParts {
        decks: 1,
        max_rank: 2,
        piles: 2,
        layout: Layout::Even,
        face: Face::AllUp,
        build: Build::NoBuild,
        wrap: false,
        groups: Groups::One,
        group_build: Build::NoBuild,
        spaces: Spaces::Any,
        goal: Goal::Foundations {
            base: 1,
            started: false,
            take_back: false,
            complete_runs: false,
        },
        cells: 1,
        cells_filled: 0,
        reserve: 0,
        stacked: false,
        stock: 0,
        target: Target::ToWaste,
        draw: 1,
        redeals: Redeals::Times(0),
    }
}

fn rules() -> Result<Rules, Conflict> {
    Rules::new(rule_parts())
}

fn parts(
    alloc: Global,
    cards: &[Card],
    heights: &[u8],
    redeals_left: u8,
) -> Result<BoardParts, AllocError> {
    let mut tableau = Items::new(alloc);
    let pile = Items::from_slice(alloc, cards)?;
    tableau.push(pile)?;
    Ok(BoardParts {
        tableau,
        face_down: Items::new(alloc),
        cells: Items::new(alloc),
        reserve: Items::new(alloc),
        stock: Items::new(alloc),
        waste: Items::new(alloc),
        redeals_left,
        foundations: Items::from_slice(alloc, heights)?,
        hole: Items::new(alloc),
        rows: Items::new(alloc),
    })
}

/// Whether the first pile has these cards, and the board these heights of clubs and diamonds.
fn shows(rules: &Rules, board: &Board, cards: &[Card], clubs: u8, diamonds: u8) -> bool
    requires { Belongs rules.now board.now }
{
    if rules.piles() == 0 || rules.foundation_count() < 2 {
        return false;
    }
    board.pile(0) == cards && board.height(0) == clubs && board.height(1) == diamonds
}

#[test]
fn a_copy_shows_the_same_board(rt: HostRuntime) -> Result<(), Fail> {
    let alloc = rt.alloc();
    let rules = rules()?;
    let ace = Card::new(Suit::Clubs, 1).expect(&rt, "an ace");
    let two = Card::new(Suit::Clubs, 2).expect(&rt, "a two");
    let parts = parts(alloc, &[ace, two], &[0, 2, 2, 2], 0)?;
    let board = Board::new(alloc, &rules, parts)?;
    let copy = board.duplicate(alloc)?;
    assert!(rt; shows(&rules, &board, &[ace, two], 0, 2));
    assert!(rt; shows(&rules, &copy, &[ace, two], 0, 2));
    Ok(())
}

#[test]
fn boards_and_faults(rt: HostRuntime) {
    let rules = rules().ok().expect(&rt, "no conflict");
    let ace = Card::new(Suit::Clubs, 1).expect(&rt, "an ace");
    let two = Card::new(Suit::Clubs, 2).expect(&rt, "a two");
    let right = parts(rt.alloc(), &[ace, two], &[0, 2, 2, 2], 0)
        .ok()
        .expect(&rt, "memory");
    assert!(rt; Board::new(rt.alloc(), &rules, right).is_ok());
    let missing = parts(rt.alloc(), &[ace], &[0, 2, 2, 2], 0)
        .ok()
        .expect(&rt, "memory");
    let fault = Board::new(rt.alloc(), &rules, missing)
        .err()
        .expect(&rt, "a fault");
    assert!(rt; fault == BoardFault::MissingCard(two));
    let extra = parts(rt.alloc(), &[ace, two, ace], &[0, 2, 2, 2], 0)
        .ok()
        .expect(&rt, "memory");
    let fault = Board::new(rt.alloc(), &rules, extra)
        .err()
        .expect(&rt, "a fault");
    assert!(rt; fault == BoardFault::ExtraCard(ace));
    let full = parts(rt.alloc(), &[ace], &[0, 2, 2, 3], 1)
        .ok()
        .expect(&rt, "memory");
    let fault = Board::new(rt.alloc(), &rules, full)
        .err()
        .expect(&rt, "a fault");
    assert!(rt; fault == BoardFault::PlaceFull(Part::RedealsLeft));
    let high = parts(rt.alloc(), &[ace], &[0, 2, 2, 3], 0)
        .ok()
        .expect(&rt, "memory");
    let fault = Board::new(rt.alloc(), &rules, high)
        .err()
        .expect(&rt, "a fault");
    assert!(rt; fault == BoardFault::PlaceFull(Part::Foundations));
}

/// Rows of two slots, of which the first holds the two of its suit.
fn rows_of_twos(alloc: Global) -> Result<BoardParts, AllocError> {
    let mut rows = parts(alloc, &[], &[], 0)?;
    rows.tableau = Items::new(alloc);
    for suit in [Suit::Clubs, Suit::Diamonds, Suit::Hearts, Suit::Spades] {
        rows.rows
            .push(Items::from_slice(alloc, &[Card::new(suit, 2)])?)?;
    }
    Ok(rows)
}

#[test]
fn won_boards(rt: HostRuntime) -> Result<(), Fail> {
    let rules = rules()?;
    let home = parts(rt.alloc(), &[], &[2, 2, 2, 2], 0)?;
    let board = Board::new(rt.alloc(), &rules, home)?;
    assert!(rt; board.is_won(&rules));
    let ace = Card::new(Suit::Clubs, 1).expect(&rt, "an ace");
    let two = Card::new(Suit::Clubs, 2).expect(&rt, "a two");
    let left = parts(rt.alloc(), &[two, ace], &[0, 2, 2, 2], 0)?;
    let board = Board::new(rt.alloc(), &rules, left)?;
    assert!(rt; !board.is_won(&rules));
    Ok(())
}

#[test]
fn rows_in_order_are_won(rt: HostRuntime) -> Result<(), Fail> {
    let rows = RuleParts {
        goal: Goal::Sequences,
        piles: 0,
        cells: 0,
        ..rule_parts()
    };
    let rules = Rules::new(rows)?;
    let twos = rows_of_twos(rt.alloc())?;
    let board = Board::new(rt.alloc(), &rules, twos)?;
    assert!(rt; board.is_won(&rules));
    Ok(())
}

#[test]
fn the_least_conflict_is_told(rt: HostRuntime) {
    let rows = RuleParts {
        goal: Goal::Sequences,
        target: Target::ToHole,
        ..rule_parts()
    };
    assert!(rt; Rules::new(rows) == Err(Conflict { number: 2 }));
    let no_hole = RuleParts {
        target: Target::ToHole,
        draw: 2,
        ..rule_parts()
    };
    assert!(rt; Rules::new(no_hole) == Err(Conflict { number: 3 }));
}
