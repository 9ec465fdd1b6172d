//! Each public call once, on values that a player knows.

use super::*;

fn card(text: &[u8; 2]) -> Option<Card> {
    card_of(text)
}

#[test]
fn cards_are_made_and_read(rt: HostRuntime) {
    let queen = Card::new(Suit::Hearts, 12).expect(&rt, "a queen");
    assert!(rt; queen.suit() == Suit::Hearts);
    assert_eq!(rt; queen.rank(), 12);
    assert_eq!(rt; queen.number(), 37);
    assert!(rt; queen.is_red());
    assert!(rt; Suit::Diamonds.is_red() && !Suit::Spades.is_red());
    assert_eq!(rt; Suit::Spades.place(), 3);
    assert!(rt; Card::new(Suit::Clubs, 0).is_none() && Card::new(Suit::Clubs, 14).is_none());
}

#[test]
fn texts_are_read_and_written(rt: HostRuntime) {
    let ten = Card::new(Suit::Diamonds, 10);
    assert!(rt; card_of(b"TD") == ten && card_of(b"10D") == ten);
    let ten = ten.expect(&rt, "a ten");
    assert!(rt; text_of(ten) == *b"TD");
    assert!(rt; card_of(b"1D").is_none() && card_of(b"td").is_none() && card_of(b"TD ").is_none());
    texts_name_cards();
}

#[test]
fn a_black_nine_builds_on_a_red_ten(rt: HostRuntime) {
    let nine = card(b"9S").expect(&rt, "a nine");
    let ten = card(b"TD").expect(&rt, "a ten");
    assert!(rt; builds(Build::RedBlack, false, 13, nine, ten));
    assert!(rt; builds(Build::AnySuit, false, 13, nine, ten));
    assert!(rt; !builds(Build::SameSuit, false, 13, nine, ten));
    assert!(rt; !builds(Build::NoBuild, false, 13, nine, ten));
    assert!(rt; !builds(Build::RedBlack, false, 13, ten, nine));
    assert!(rt; suits_fit(Build::RedBlack, Suit::Clubs, Suit::Hearts));
}

#[test]
fn a_king_builds_on_an_ace_where_ranks_wrap(rt: HostRuntime) {
    let king = card(b"KC").expect(&rt, "a king");
    let ace = card(b"AH").expect(&rt, "an ace");
    assert!(rt; builds(Build::RedBlack, true, 13, king, ace));
    assert!(rt; !builds(Build::RedBlack, false, 13, king, ace));
    assert!(rt; !builds(Build::RedBlack, true, 13, ace, king));
}
