//! Small decks dealt by hand, card by card.

use super::*;
use card_piles::{Card, card_of};
use rand_core::Rng;
use rand_pcg::Lcg64Xsh32;
use small_games::rules_of;

#[test]
fn the_words_are_those_of_the_generator(rt: HostRuntime) {
    let mut words = Lcg64Xsh32::new(42, 54);
    for want in [
        0xa15c02b7, 0x7b47f409, 0xba1d3330, 0x83d2f293, 0xbfa4784b, 0xcbed606e,
    ] {
        assert!(rt; words.next_u32() == want);
    }
}

#[test]
fn the_aces_of_seed_42(rt: HostRuntime) {
    let rules = rules_of("ranks 1 piles 1 cells 0 reserve 0 stock 0").expect(&rt, "rules");
    let board = deal_from_seed(rt.alloc(), &rules, 42).expect(&rt, "a board");
    let aces = [
        card_of(b"AC"),
        card_of(b"AS"),
        card_of(b"AD"),
        card_of(b"AH"),
    ];
    assert!(rt; rules.piles() == 1);
    for (place, ace) in aces.iter().enumerate() {
        assert!(rt; board.pile(0).get(place).copied() == *ace);
    }
}

#[test]
fn a_stock_takes_all_cards_or_none_fits(rt: HostRuntime) {
    let five = rules_of("ranks 1 piles 0 cells 0 reserve 0 stock 5").expect(&rt, "rules");
    assert!(rt; deal_from_seed(rt.alloc(), &five, 0).err() == Some(SeedFault::TooFewCards));
    let three = rules_of("ranks 1 piles 0 cells 0 reserve 0 stock 3").expect(&rt, "rules");
    assert!(rt; deal_from_seed(rt.alloc(), &three, 0).err() == Some(SeedFault::TooManyCards));
    let four = rules_of("ranks 1 piles 0 cells 0 reserve 0 stock 4").expect(&rt, "rules");
    let board = deal_from_seed(rt.alloc(), &four, 42).expect(&rt, "a board");
    assert!(rt;
        board.stock().len() == 4 && board.stock()[1] == card_of(b"AS").expect(&rt, "an ace")
    );
}
