//! A game in words is read once.

use super::*;
use card_piles::Card;
use game_model::Board;
use game_rules::{Move, Place};
use std::test::Fail;

#[test]
fn a_small_game_is_read(rt: HostRuntime) -> Result<(), Fail> {
    let rules = rules_of("any-suit piles 2 ranks 2")?;
    assert!(rt; rules.piles() == 2 && rules.cells() == 2 && rules.max_rank() == 2);
    let home = board_of(rt.alloc(), &rules, "home 2 2 2 2")?;
    let left = board_of(rt.alloc(), &rules, "pile 2C AC home 0 2 2 2")?;
    assert!(rt; same_boards(&rules, &left, &left));
    assert!(rt; !same_boards(&rules, &home, &left));
    let m = move_of("t0 t1 2");
    assert!(rt;
        m == Move::Carry {
            from: Place::Tableau(0),
            to: Place::Tableau(1),
            count: 2
        }
    );
    Ok(())
}

#[test]
fn a_duplicate_is_the_same_board(rt: HostRuntime) -> Result<(), Fail> {
    let alloc = rt.alloc();
    let rules = rules_of("ranks 2 piles 2 cells 0 reserve 0 stock 0")?;
    let start = board_of(alloc, &rules, "pile AC 2C pile home 0 2 2 2")?;
    let copy = start.duplicate(alloc)?;
    assert!(rt; same_boards(&rules, &copy, &start));
    let moved = board_of(alloc, &rules, "pile AC pile 2C home 0 2 2 2")?;
    assert!(rt; !same_boards(&rules, &copy, &moved));
    Ok(())
}
