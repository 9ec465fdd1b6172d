//! Cards: made from a suit and a rank, and read again.

ghost use Rattle.std.specs.Prelude.{◌<◌, ◌↔◌, ◌≡◌, IfSome, IsSome};
ghost use Rattle.card_piles.specs.Cards.{is_red, number_of};
ghost use Rattle.card_piles.specs.Ranks.{IsRank};

use crate::{Card, Suit};

impl Card {
    /// The card of this suit and rank. `None` exactly where the rank is 0 or above 13.
    pub fn new(suit: Suit, rank: u8) -> Option<Card>
        ensures some_exactly_for_a_rank { IsSome result ↔ IsRank rank }
        ensures has_suit_and_rank { IfSome result (λ c. c ≡ record { suit = suit; rank = rank }) }
    {
        if (1..=13).contains(&rank) {
            Some(Card { suit, rank })
        } else {
            None
        }
    }

    /// The card's suit.
    pub fn suit(&self) -> Suit
        ensures { result ≡ self.now.suit }
    {
        self.suit
    }

    /// The card's rank, from 1 (ace) to 13 (king).
    pub fn rank(&self) -> u8
        ensures value { result ≡ self.now.rank }
        ensures in_range { IsRank self.now.rank }
    {
        self.rank
    }

    /// The card's number from 0 to 51: 13 times the suit's place, and the rank less 1.
    pub fn number(&self) -> u8
        ensures value { result ≡ number_of self.now }
        ensures in_range { result < 52 }
    {
        13 * self.suit.place() + (self.rank - 1)
    }

    /// Whether the card is a diamond or a heart.
    pub fn is_red(&self) -> bool
        ensures { result ≡ is_red self.now.suit }
    {
        self.suit.is_red()
    }
}

/// The ace of clubs: a fixed list holds it in each unused place.
impl Default for Card {
    fn default() -> Card {
        Card {
            suit: Suit::Clubs,
            rank: 1,
        }
    }
}
