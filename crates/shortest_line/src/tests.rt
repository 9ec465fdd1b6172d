//! Small games, whose levels can be told by hand.
use crate::{shortest, write_shortest};
use small_games::{board_of, rules_of};
use std::alloc::Global;
use std::test::Fail;

/// The text of the answer for a start in words.
fn text_of(alloc: Global, game: &str, start: &str, nodes: u64) -> Result<Vec<u8>, Fail> {
    let rules = rules_of(game)?;
    let start = board_of(alloc, &rules, start)?;
    let nodes = nodes.clamp(1, 4000000);
    let answer = shortest(alloc, &rules, &start, nodes)?;
    Ok(write_shortest(alloc, &answer)?)
}

const TWO_PILES: &str = "ranks 2 piles 2 cells 0 reserve 0 stock 0";

#[test]
fn an_ace_goes_aside_and_then_both_go_home(rt: HostRuntime) -> Result<(), Fail> {
    let text = text_of(rt.alloc(), TWO_PILES, "pile AC 2C home 0 2 2 2", 1000000)?;
    assert!(rt;
        text.as_slice() == "shortest\nnodes 3\nmoves 3\nt0 t1 1\nt0 f0\nt1 f0\n".as_bytes()
    );
    Ok(())
}

#[test]
fn two_nodes_leave_it_open(rt: HostRuntime) -> Result<(), Fail> {
    let text = text_of(rt.alloc(), TWO_PILES, "pile AC 2C home 0 2 2 2", 2)?;
    assert!(rt; text.as_slice() == "undecided\nnodes 2\nbound 3\n".as_bytes());
    Ok(())
}

#[test]
fn an_ace_under_a_two_without_a_space_is_unwinnable(rt: HostRuntime) -> Result<(), Fail> {
    let game = "ranks 2 piles 1 cells 0 reserve 0 stock 0";
    let text = text_of(rt.alloc(), game, "pile AC 2C home 0 2 2 2", 1000000)?;
    assert!(rt; text.as_slice() == "unwinnable\nnodes 1\n".as_bytes());
    Ok(())
}

#[test]
fn a_won_start_has_a_line_of_no_moves(rt: HostRuntime) -> Result<(), Fail> {
    let game = "ranks 1 piles 0 cells 0 reserve 0 stock 0";
    let text = text_of(rt.alloc(), game, "home 1 1 1 1", 1000000)?;
    assert!(rt; text.as_slice() == "shortest\nnodes 0\nmoves 0\n".as_bytes());
    Ok(())
}

#[test]
fn every_legal_move_counts_and_not_the_safe_one_alone(rt: HostRuntime) -> Result<(), Fail> {
    let game = "ranks 4 piles 2 none cells 1 reserve 0 stock 0";
    let text = text_of(
        rt.alloc(),
        game,
        "pile 2C 3C 4C pile AC home 0 4 4 4",
        1000000,
    )?;
    assert!(rt; text.as_slice() == "unwinnable\nnodes 5\n".as_bytes());
    Ok(())
}
