//! The lowest cards of a pile: what is left to look at of a pile that is kept as a list.
ghost use Rattle.std.specs.Prelude.{◌≡◌, ◌≤◌, ◌-◌, take, length};
ghost use Rattle.game_rules.specs.Board.{top_of};

use card_piles::Card;

/// The lowest cards of a pile, of a table that keeps its piles as lists.
#[derive(Clone, Copy, Debug)]
pub struct Lowest {
    /// The pile's number.
    pub pile: u8,
    /// How many cards of it.
    pub size: usize,
}

impl Lowest {
    /// All cards of a pile.
    pub fn all(pile: u8, cards: &[Card]) -> Lowest
        ensures { result ≡ record { pile = pile; size = length cards.now } }
    {
        Lowest {
            pile,
            size: cards.len(),
        }
    }

    /// The upmost of them, given the pile's cards.
    pub fn top(self, cards: &[Card]) -> Option<Card>
        requires { self.size ≤ length cards.now }
        ensures { result ≡ top_of (take self.size cards.now) }
    {
        cards[..self.size].last().copied()
    }

    /// All but the upmost of them.
    pub fn under(self) -> Lowest
        ensures { result ≡ record { pile = self.pile; size = self.size - 1 } }
    {
        Lowest {
            pile: self.pile,
            size: self.size.saturating_sub(1),
        }
    }
}
