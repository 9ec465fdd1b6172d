//! A space over small boards: its steps in their order, the way back, and a search of it.

use crate::PlainSpace;
use dfs_core::{Found, Space, search};
use node_budget::Budget;
use small_games::{board_of, move_of, rules_of};
use std::alloc::Global;
use std::test::Fail;
use stock_moves::Step;
use transposition::{LruMemo, NoMemory};

/// Aces and twos on two piles, in one cell and in a stock that deals one card to the waste, with one
/// redeal.
const RULES: &str = "ranks 2 piles 2 cells 1 reserve 0 stock 2 redeals 1 red-black";

/// The steps of a text: the number of stock moves and the last move of each.
fn steps_of(alloc: Global, text: &str) -> Result<Vec<Step>, Fail> {
    let mut steps = Vec::new(alloc);
    for part in text.split(", ") {
        let (deals, last) = part.split_once(' ').ok_or("a step")?;
        steps.push(Step {
            deals: deals.parse::<u16>()?,
            last: move_of(last),
        })?;
    }
    Ok(steps)
}

#[test]
fn carries_from_elsewhere_stand_before_the_stock_steps(rt: HostRuntime) -> Result<(), Fail> {
    let alloc = rt.alloc();
    let rules = rules_of(RULES)?;
    let start = board_of(
        alloc,
        &rules,
        "pile 2H pile 2C stock AC AH left 1 home 0 2 0 2",
    )?;
    let mut space = PlainSpace::new(&rules, &start);
    let mut steps = Vec::new(alloc);
    space.steps(alloc, &mut steps)?;
    let want =
        "0 t0 c0, 0 t1 c0, 1 w f2, 1 w t1, 1 w c0, 2 w f0, 2 w t0, 2 w c0, 4 w f2, 4 w t1, 4 w c0, 5 w f0, 5 w t0, 5 w c0";
    assert!(rt; steps.as_slice() == steps_of(alloc, want)?.as_slice());
    assert!(rt; !space.is_won());
    Ok(())
}

#[test]
fn a_safe_move_is_the_one_step(rt: HostRuntime) -> Result<(), Fail> {
    let alloc = rt.alloc();
    let rules = rules_of(RULES)?;
    let start = board_of(alloc, &rules, "pile 2C AD pile AC 2D home 0 0 2 2")?;
    let mut space = PlainSpace::new(&rules, &start);
    let mut steps = Vec::new(alloc);
    space.steps(alloc, &mut steps)?;
    assert!(rt; steps.as_slice() == steps_of(alloc, "0 t0 f1")?.as_slice());
    Ok(())
}

/// Whether the step of this place leads to another key, and the way back to the first.
fn comes_back(alloc: Global, space: &mut PlainSpace, place: usize) -> Result<bool, NoMemory> {
    let mut steps = Vec::new(alloc);
    space.steps(alloc, &mut steps)?;
    if place >= steps.len() {
        return Ok(false);
    }
    let key = space.key();
    let undo = space.go(steps[place]);
    let is_other = space.key() != key;
    space.back(undo);
    Ok(is_other && space.key() == key)
}

#[test]
fn each_step_leads_to_another_key_and_back(rt: HostRuntime) -> Result<(), Fail> {
    let alloc = rt.alloc();
    let rules = rules_of(RULES)?;
    let start = board_of(
        alloc,
        &rules,
        "pile 2H pile 2C stock AC AH left 1 home 0 2 0 2",
    )?;
    let mut space = PlainSpace::new(&rules, &start);
    for place in 0..14 {
        assert!(rt; comes_back(alloc, &mut space, place)?);
    }
    assert!(rt; !comes_back(alloc, &mut space, 14)?);
    Ok(())
}

#[test]
fn a_search_finds_a_win_over_a_redeal(rt: HostRuntime) -> Result<(), Fail> {
    let alloc = rt.alloc();
    let rules = rules_of("ranks 3 piles 0 cells 0 reserve 0 stock 3 redeals 1")?;
    let start = board_of(alloc, &rules, "stock AC 3C 2C left 1 home 0 3 3 3")?;
    let mut space = PlainSpace::new(&rules, &start);
    let mut budget = Budget::new(100);
    let memo = LruMemo::new(alloc, 100)?;
    let found = search(alloc, &mut space, memo, &mut budget)?;
    let steps = steps_of(alloc, "3 w f0, 2 w f0, 1 w f0")?;
    assert!(rt; matches!(&found, Found::Won(trail) if trail.items() == steps.as_slice()));
    assert_eq!(rt; budget.spent(), 3);
    Ok(())
}
