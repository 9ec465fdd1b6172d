//! Sets of cards, each a bit of one number.
//!
//! Means: a `CardSet` is seen by the cards that it has; a `CardBit` is a card by the place of its bit alone.
//! Above: what a place accepts and which cards are free are sets, so that one step finds that no
//! free card is accepted, and another whether a card is.
//! Refuses: nothing. No call takes memory.
//! Not promised: what a set has of ranks that no card has.
#![tactic(auto)]

ghost use Rattle.std.specs.Prelude.{◌≡◌, ◌<◌, true, false, ◌||◌, ◌==◌};
ghost use Rattle.card_piles.specs.declared.Card.{Card};
ghost use Rattle.card_piles.specs.Ranks.{IsRank};
ghost use Rattle.card_sets.specs.Sets.{bit_of, has, has_bit, is_card};

use card_piles::{Card, Suit};

#[cfg(test)]
mod tests;

/// A set of cards: sixteen bits a suit, and in each of these a bit a rank.
#[derive(Clone, Copy, Debug, PartialEq, Eq)]
pub struct CardSet {
    bits: u64,
}

/// A card by its bit alone.
#[derive(Clone, Copy, Debug, Default, PartialEq, Eq)]
pub struct CardBit {
    /// The place of the bit in a set: 16 times the suit's place, and the rank. It is below 64.
    pub place: u8,
}

/// The place of a card's bit.
fn bit_of(suit: Suit, rank: u8) -> u8
    requires { rank < 16 }
    ensures value { result ≡ bit_of suit rank }
    ensures fits { result < 64 }
{
    16 * suit.place() + rank
}

impl CardBit {
    /// The bit of a card.
    pub fn of(card: Card) -> CardBit
        ensures value { result.place ≡ bit_of card.suit card.rank }
        ensures ranked { IsRank card.rank }
    {
        CardBit {
            place: bit_of(card.suit(), card.rank()),
        }
    }
}

impl CardSet {
    /// The set that has no card.
    pub fn none() -> CardSet
        ensures { (c : Card) → has result c ≡ false }
    {
        CardSet { bits: 0 }
    }

    /// The set that has all cards.
    pub fn all() -> CardSet
        ensures { (c : Card) → IsRank c.rank → has result c ≡ true }
    {
        CardSet { bits: u64::MAX }
    }

    /// This set with the card of a suit and a rank. A rank that no card has adds no card.
    pub fn with(self, suit: Suit, rank: u8) -> CardSet
        requires { rank < 16 }
        ensures { (c : Card) → IsRank c.rank → has result c ≡ (is_card suit rank c || has self c) }
    {
        CardSet {
            bits: self.bits | 1 << bit_of(suit, rank),
        }
    }

    /// Whether the set has the card.
    pub fn contains(self, card: Card) -> bool
        ensures { result ≡ has self card }
    {
        (self.bits >> bit_of(card.suit(), card.rank())) & 1 == 1
    }

    /// This set with the card of a bit.
    pub fn with_bit(self, bit: CardBit) -> CardSet
        requires { bit.place < 64 }
        ensures { (b : CardBit) → has_bit result b ≡ ((bit.place == b.place) || has_bit self b) }
    {
        CardSet {
            bits: self.bits | 1 << bit.place,
        }
    }

    /// Whether the set has the card of a bit.
    pub fn has_bit(self, bit: CardBit) -> bool
        requires { bit.place < 64 }
        ensures { result ≡ has_bit self bit }
    {
        (self.bits >> bit.place) & 1 == 1
    }

    /// Whether the two sets have a card together. If the answer is no, no card is in both.
    pub fn meets(self, other: CardSet) -> bool
        ensures { result ≡ false → (b : CardBit) → has_bit self b ≡ true → has_bit other b ≡ false }
    {
        self.bits & other.bits != 0
    }
}
