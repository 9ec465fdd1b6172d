//! What a packed board shows, and how it changes as a card goes home and comes back.

use crate::{Packed, Spot};
use card_piles::card_of;
use small_games::{board_of, move_of, rules_of, same_boards};
use std::test::Fail;

#[test]
fn a_card_is_turned_up_and_down_again(rt: HostRuntime) -> Result<(), Fail> {
    let rules = rules_of("top-up")?;
    let start = board_of(rt.alloc(), &rules, "pile 3C 2C AC down 2 home 0 3 3 3")?;
    let mut packed = Packed::from_board(&rules, &start);
    let m = move_of("t0 f0");
    assert!(rt; packed.is_legal(&rules, m));
    let undo = packed.go(&rules, m);
    assert!(rt; 0 < rules.piles() && 0 < rules.foundation_count());
    assert!(rt; packed.face_down(0) == 1 && packed.height(0) == 1);
    assert!(rt; packed.size(Spot::Pile(0)) == 2);
    assert!(rt; packed.at(Spot::Pile(0), 0) == card_of(b"2C"));
    packed.back(undo);
    assert!(rt; packed.face_down(0) == 2 && packed.height(0) == 0);
    assert!(rt; packed.at(Spot::Pile(0), 0) == card_of(b"AC"));
    assert!(rt; !packed.is_won(&rules) && packed.redeals_left() == 0);
    let board = packed.to_board(rt.alloc(), &rules)?;
    assert!(rt; same_boards(&rules, &board, &start));
    Ok(())
}

#[test]
fn parts_are_read_from_their_tops(rt: HostRuntime) -> Result<(), Fail> {
    let rules = rules_of("stacked")?;
    let start = board_of(rt.alloc(), &rules, "reserve 2C AC pile 3C home 0 3 3 3")?;
    let packed = Packed::from_board(&rules, &start);
    assert!(rt; packed.size(Spot::Reserve(0)) == 2);
    assert!(rt; packed.at(Spot::Reserve(0), 0) == card_of(b"AC"));
    assert!(rt; packed.at(Spot::Reserve(0), 1) == card_of(b"2C"));
    assert!(rt;
        packed.at(Spot::Reserve(0), 2).is_none() && packed.at(Spot::Reserve(1), 0).is_none()
    );
    assert!(rt; packed.size(Spot::Cell(0)) == 0 && packed.size(Spot::Pile(9)) == 0);
    assert!(rt; packed.at(Spot::Pile(9), 0).is_none());
    let mut reserve = packed.cards(Spot::Reserve(0));
    assert!(rt; reserve.next() == card_of(b"AC"));
    assert!(rt; reserve.next() == card_of(b"2C"));
    assert!(rt; reserve.next().is_none());
    let mut pile = packed.cards(Spot::Pile(0));
    assert!(rt; pile.next() == card_of(b"3C"));
    assert!(rt; pile.next().is_none());
    assert!(rt; packed.cards(Spot::Pile(9)).next().is_none());
    Ok(())
}

#[test]
fn slots_and_links_are_read_from_the_top(rt: HostRuntime) -> Result<(), Fail> {
    let rules = rules_of("")?;
    let start = board_of(rt.alloc(), &rules, "pile 3C 2C AC home 0 3 3 3")?;
    let packed = Packed::from_board(&rules, &start);
    let mut slot = packed.top(Spot::Pile(0));
    for depth in 0..3 {
        assert!(rt;
            slot.is_some() && slot.and_then(|s| packed.card(s)) == packed.at(Spot::Pile(0), depth)
        );
        slot = slot.and_then(|s| packed.under(s));
    }
    assert!(rt; slot.is_none());
    assert!(rt; packed.top(Spot::Cell(0)).is_none());
    assert!(rt; packed.card(207).is_none() && packed.under(207).is_none());
    Ok(())
}
