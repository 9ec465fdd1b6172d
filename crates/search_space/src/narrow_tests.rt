//! A restricted space over a small board: its one step, its keys, and a search of it.

use crate::NarrowSpace;
use dfs_core::{Found, Space, search};
use game_rules::{Move, Place};
use node_budget::Budget;
use small_games::{board_of, rules_of};
use std::alloc::Global;
use std::test::Fail;
use stock_moves::Step;
use streamliner::Streamliner;
use transposition::LruMemo;

/// Aces and twos on two piles and in the waste, from which the ace of clubs may go home or on a two.
const RULES: &str = "ranks 2 piles 2 any-suit cells 0 reserve 0 stock 4";

const BOARD: &str = "pile 2D pile AD 2C waste AC home 0 0 2 2";

#[test]
fn a_carry_home_is_the_one_step(rt: HostRuntime) -> Result<(), Fail> {
    let alloc = rt.alloc();
    let rules = rules_of(RULES)?;
    let start = board_of(alloc, &rules, BOARD)?;
    let home = Move::Carry {
        from: Place::Waste,
        to: Place::Foundation(0),
        count: 1,
    };
    let mut steps = Vec::new(alloc);
    NarrowSpace::new(&rules, &start, Streamliner::Both).steps(alloc, &mut steps)?;
    assert!(rt;
        steps.as_slice()
            == [Step {
                deals: 0,
                last: home
            }]
            .as_slice()
    );
    NarrowSpace::new(&rules, &start, Streamliner::SuitSymmetry).steps(alloc, &mut steps)?;
    assert_eq!(rt; steps.len(), 4);
    Ok(())
}

/// Whether the boards of two texts have one key.
fn have_one_key(alloc: Global, texts: [&str; 2], way: Streamliner) -> Result<bool, Fail> {
    let rules = rules_of(RULES)?;
    let first = board_of(alloc, &rules, texts[0])?;
    let second = board_of(alloc, &rules, texts[1])?;
    let key = NarrowSpace::new(&rules, &first, way).key();
    Ok(key == NarrowSpace::new(&rules, &second, way).key())
}

#[test]
fn suits_of_a_colour_are_one_where_the_way_is_coarse(rt: HostRuntime) -> Result<(), Fail> {
    let texts = [BOARD, "pile 2H pile AH 2S waste AS home 2 2 0 0"];
    assert!(rt; have_one_key(rt.alloc(), texts, Streamliner::SuitSymmetry)?);
    assert!(rt; !have_one_key(rt.alloc(), texts, Streamliner::AutoFoundations)?);
    Ok(())
}

#[test]
fn a_restricted_search_finds_a_win(rt: HostRuntime) -> Result<(), Fail> {
    let alloc = rt.alloc();
    let rules = rules_of(RULES)?;
    let start = board_of(alloc, &rules, BOARD)?;
    let mut space = NarrowSpace::new(&rules, &start, Streamliner::Both);
    let mut budget = Budget::new(100);
    let memo = LruMemo::new(alloc, 100)?;
    let found = search(alloc, &mut space, memo, &mut budget)?;
    assert!(rt; matches!(&found, Found::Won(trail) if trail.items().len() == 4));
    assert_eq!(rt; budget.spent(), 4);
    Ok(())
}
