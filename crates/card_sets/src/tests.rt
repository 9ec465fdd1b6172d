//! Sets of sixes.

use super::*;

#[test]
fn a_set_has_what_it_was_given(rt: HostRuntime) {
    let six = Card::new(Suit::Hearts, 6).expect(&rt, "a six");
    let hearts = CardSet::none().with(Suit::Hearts, 6);
    let spades = CardSet::none().with(Suit::Spades, 6);
    assert!(rt; hearts.contains(six) && !spades.contains(six));
    assert!(rt; hearts.meets(CardSet::all()) && !hearts.meets(spades));
    let bit = CardBit::of(six);
    assert!(rt; bit.place == 38);
    assert!(rt; hearts.has_bit(bit) && !spades.has_bit(bit));
    assert!(rt; spades.with_bit(bit).contains(six));
}
