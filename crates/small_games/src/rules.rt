//! Rules in words.

use card_piles::Build;
use game_model::{
    Conflict, Face, Goal, Groups, HoleStart, Layout, Redeals, RuleParts, Rules, Spaces, Target,
};

/// Three ranks, three piles, two cells, a reserve of two, foundations from the ace, and a stock
/// that deals one card to the waste.
fn plain_parts() -> RuleParts {
    RuleParts {
        decks: 1,
        max_rank: 3,
        piles: 3,
        layout: Layout::Even,
        face: Face::AllUp,
        build: Build::NoBuild,
        wrap: false,
        groups: Groups::One,
        group_build: Build::NoBuild,
        spaces: Spaces::Any,
        goal: foundations(1),
        cells: 2,
        cells_filled: 0,
        reserve: 2,
        stacked: false,
        stock: 4,
        target: Target::ToWaste,
        draw: 1,
        redeals: Redeals::Times(0),
    }
}

fn foundations(base: u8) -> Goal {
    Goal::Foundations {
        base,
        started: false,
        take_back: false,
        complete_runs: false,
    }
}

fn hole(wrap: bool) -> Goal {
    Goal::Hole {
        wrap,
        start: HoleStart::Dealt,
    }
}

fn set_build(parts: &mut RuleParts, build: Build) {
    parts.build = build;
    parts.group_build = build;
}

fn set_rows(parts: &mut RuleParts) {
    parts.goal = Goal::Sequences;
    parts.piles = 0;
    parts.cells = 0;
    parts.reserve = 0;
    parts.stock = 0;
}

/// Sets how the piles are built on and what leaves them.
fn set_piles(parts: &mut RuleParts, word: &str) {
    if word == "any-suit" {
        set_build(parts, Build::AnySuit);
    } else if word == "red-black" {
        set_build(parts, Build::RedBlack);
    } else if word == "same-suit" {
        set_build(parts, Build::SameSuit);
    } else if word == "suit-groups" {
        parts.group_build = Build::SameSuit;
    } else if word == "run" {
        parts.groups = Groups::Run;
    } else if word == "top-up" {
        parts.face = Face::TopUp;
    } else if word == "king" {
        parts.spaces = Spaces::King;
    } else if word == "none" {
        parts.spaces = Spaces::NoFill;
    } else if word == "stacked" {
        parts.stacked = true;
    }
}

/// Sets the goal and where the stock deals to.
fn set_goal(parts: &mut RuleParts, word: &str) {
    if word == "take-back" {
        parts.goal = Goal::Foundations {
            base: 1,
            started: false,
            take_back: true,
            complete_runs: false,
        };
    } else if word == "complete-runs" {
        parts.goal = Goal::Foundations {
            base: 1,
            started: false,
            take_back: false,
            complete_runs: true,
        };
    } else if word == "started" {
        parts.goal = Goal::Foundations {
            base: 1,
            started: true,
            take_back: false,
            complete_runs: false,
        };
    } else if word == "hole" {
        parts.goal = hole(false);
    } else if word == "hole-wraps" {
        parts.goal = hole(true);
    } else if word == "rows" {
        set_rows(parts);
    } else if word == "to-tableau" {
        parts.target = Target::ToTableau;
    } else if word == "to-hole" {
        parts.target = Target::ToHole;
    } else if word == "unlimited" {
        parts.redeals = Redeals::Unlimited;
    }
}

/// The number of a word of one or two digits.
fn number(word: &str) -> Option<u8> {
    match word.as_bytes() {
        [one @ b'0'..=b'9'] => Some(one - b'0'),
        [ten @ b'1'..=b'9', one @ b'0'..=b'9'] => Some(10 * (ten - b'0') + (one - b'0')),
        _ => None,
    }
}

/// A number of the rules.
#[derive(Clone, Copy)]
enum Counted {
    Decks,
    Ranks,
    Piles,
    Cells,
    Reserve,
    Stock,
    Draw,
    Redeals,
    Base,
}

/// The number that a word names.
fn counted_by(word: &str) -> Option<Counted> {
    if word == "decks" {
        Some(Counted::Decks)
    } else if word == "ranks" {
        Some(Counted::Ranks)
    } else if word == "piles" {
        Some(Counted::Piles)
    } else if word == "cells" {
        Some(Counted::Cells)
    } else if word == "reserve" {
        Some(Counted::Reserve)
    } else if word == "stock" {
        Some(Counted::Stock)
    } else if word == "draw" {
        Some(Counted::Draw)
    } else if word == "redeals" {
        Some(Counted::Redeals)
    } else if word == "base" {
        Some(Counted::Base)
    } else {
        None
    }
}

fn set_number(parts: &mut RuleParts, counted: Counted, number: u8) {
    match counted {
        Counted::Decks => parts.decks = number,
        Counted::Ranks => parts.max_rank = number,
        Counted::Piles => parts.piles = number,
        Counted::Cells => parts.cells = number,
        Counted::Reserve => parts.reserve = number,
        Counted::Stock => parts.stock = number,
        Counted::Draw => parts.draw = number,
        Counted::Redeals => parts.redeals = Redeals::Times(number),
        Counted::Base => parts.goal = foundations(number),
    }
}

/// The rules of a text: words, and names with a number after each, as `any-suit piles 4 cells 1`.
/// What is not named is as in a plain game: three ranks, three piles that are not built on, two
/// cells, a reserve of two, foundations from the ace, and a stock that deals one card to the waste.
/// Fails as `Rules::new` does.
pub fn rules_of(text: &str) -> Result<Rules, Conflict> {
    let mut parts = plain_parts();
    let mut named = None;
    for word in text.split_whitespace() {
        if let (Some(counted), Some(number)) = (named, number(word)) {
            set_number(&mut parts, counted, number);
        }
        set_piles(&mut parts, word);
        set_goal(&mut parts, word);
        named = counted_by(word);
    }
    Rules::new(parts)
}
