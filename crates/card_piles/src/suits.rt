//! The order of the suits, and their colours.

ghost use Rattle.std.specs.Prelude.{◌≡◌};
ghost use Rattle.card_piles.specs.Cards.{is_red, place_of};

use crate::Suit;

impl Suit {
    /// The suit's place in the order, from 0.
    pub fn place(self) -> u8
        ensures { result ≡ place_of self }
    {
        match self {
            Suit::Clubs => 0,
            Suit::Diamonds => 1,
            Suit::Hearts => 2,
            Suit::Spades => 3,
        }
    }

    /// Whether the suit is diamonds or hearts.
    pub fn is_red(self) -> bool
        ensures { result ≡ is_red self }
    {
        matches!(self, Suit::Diamonds | Suit::Hearts)
    }
}
