//! Redeals as they are counted, and the suits of foundations as they are numbered.

ghost use Rattle.std.specs.Prelude.{◌≡◌};
ghost use Rattle.game_rules.specs.Belonging.{most_redeals};
ghost use Rattle.game_rules.specs.Board.{suit_at};
ghost use Rattle.game_rules.specs.Rules.{is_unlimited};

use crate::Redeals;
use card_piles::Suit;

impl Redeals {
    /// The redeals that are left as a game begins, and 0 where they are unlimited.
    pub fn most_left(self) -> u8
        ensures { result ≡ most_redeals self }
    {
        match self {
            Redeals::Times(times) => times,
            Redeals::Unlimited => 0,
        }
    }

    /// Whether the waste may become the stock again without limit.
    pub fn is_unlimited(self) -> bool
        ensures { result ≡ is_unlimited self }
    {
        self == Redeals::Unlimited
    }
}

/// The suit of a place in the order of the suits, from 0. Any place past the third is spades.
pub fn suit_at(place: u8) -> Suit
    ensures { result ≡ suit_at place }
{
    match place {
        0 => Suit::Clubs,
        1 => Suit::Diamonds,
        2 => Suit::Hearts,
        _ => Suit::Spades,
    }
}
