//! What a table of cards shows, whatever form its cards are kept in.
ghost use Rattle.std.specs.Prelude.{◌≡◌, ℕ, ◌≤◌, ◌<◌, List, take, length, None};
ghost use Rattle.std.specs.Option.{unwrap_or};
ghost use Rattle.card_piles.specs.declared.Card.{Card};
ghost use Rattle.game_rules.specs.Board.{Board, pile_at, entry_at, height_at, top_of, below_top};

use crate::board::Board;
use crate::lowest::Lowest;
use card_piles::Card;

/// A table of cards to look at. A pile is read from its top, one card after the other.
pub trait Table {
    /// A part of a pile: a card and all under it, or nothing.
    type Stack: Copy;

    /// The board that lies on the table.
    ghost board: { Self → Board };

    /// Whether it is a part of one of the table's piles.
    ghost stands: { Self → Self.Stack → Type 0 };

    /// The cards of a part of a pile, from the bottom up.
    ghost cards: { Self → Self.Stack → List Card };

    /// A whole pile.
    fn pile(&self, i: u8) -> Self::Stack
        requires { i < length (board self.now).piles }
        ensures stands { stands self.now result }
        ensures cards { cards self.now result ≡ (pile_at (board self.now) i).cards };

    /// The upmost card.
    fn top(&self, stack: Self::Stack) -> Option<Card>
        requires { stands self.now stack }
        ensures { result ≡ top_of (cards self.now stack) };

    /// What lies under the upmost card.
    fn under(&self, stack: Self::Stack) -> Self::Stack
        requires { stands self.now stack }
        ensures stands { stands self.now result }
        ensures cards { cards self.now result ≡ below_top 1 (cards self.now stack) };

    /// How many cards a pile has.
    fn size(&self, i: u8) -> usize
        requires { i < length (board self.now).piles }
        ensures { result ≡ length (pile_at (board self.now) i).cards };

    /// How many cards of a pile, at its bottom, lie face down.
    fn face_down(&self, i: u8) -> u8
        requires { i < length (board self.now).piles }
        ensures { result ≡ (pile_at (board self.now) i).face_down };

    /// The card of a cell.
    fn cell(&self, i: u8) -> Option<Card>
        requires { i < length (board self.now).cells }
        ensures { result ≡ entry_at (board self.now).cells i };

    /// How many entries the reserve has.
    fn entry_count(&self) -> usize
        ensures { result ≡ length (board self.now).reserve };

    /// The card of an entry of the reserve.
    fn entry(&self, i: u8) -> Option<Card>
        requires { i < length (board self.now).reserve }
        ensures { result ≡ entry_at (board self.now).reserve i };

    /// The card of the reserve's last entry.
    fn last_entry(&self) -> Option<Card>
        ensures { result ≡ unwrap_or (top_of (board self.now).reserve) None };

    /// How many cards the stock has.
    fn stock_size(&self) -> usize
        ensures { result ≡ length (board self.now).stock };

    /// The upmost card of the waste.
    fn waste_top(&self) -> Option<Card>
        ensures { result ≡ top_of (board self.now).waste };

    /// How many redeals are left where they are counted.
    fn redeals_left(&self) -> u8
        ensures { result ≡ (board self.now).redeals_left };

    /// How many cards lie on a foundation.
    fn height(&self, f: u8) -> u8
        requires { f < length (board self.now).heights }
        ensures { result ≡ height_at (board self.now) f };

    /// The upmost card of the hole.
    fn hole_top(&self) -> Option<Card>
        ensures { result ≡ top_of (board self.now).hole };

    /// The card of a slot.
    fn slot(&self, i: u8) -> Option<Card>
        requires { i < length (board self.now).slots }
        ensures { result ≡ entry_at (board self.now).slots i };
}

impl Table for Board {
    type Stack = Lowest;

    ghost board = { λ b. b };

    ghost stands = { λ b s. (s.pile < length b.piles) × (s.size ≤ length (pile_at b s.pile).cards) };

    ghost cards = { λ b s. take s.size (pile_at b s.pile).cards };

    fn pile(&self, i: u8) -> Lowest {
        Lowest::all(i, self.pile(i))
    }

    fn top(&self, stack: Lowest) -> Option<Card> {
        stack.top(self.pile(stack.pile))
    }

    fn under(&self, stack: Lowest) -> Lowest {
        stack.under()
    }

    fn size(&self, i: u8) -> usize {
        self.pile(i).len()
    }

    fn face_down(&self, i: u8) -> u8 {
        self.face_down(i)
    }

    fn cell(&self, i: u8) -> Option<Card> {
        self.cell(i)
    }

    fn entry_count(&self) -> usize {
        self.reserve().len()
    }

    fn entry(&self, i: u8) -> Option<Card> {
        self.reserve()[usize::from(i)]
    }

    fn last_entry(&self) -> Option<Card> {
        self.reserve().last().copied().unwrap_or(None)
    }

    fn stock_size(&self) -> usize {
        self.stock().len()
    }

    fn waste_top(&self) -> Option<Card> {
        self.waste().last().copied()
    }

    fn redeals_left(&self) -> u8 {
        self.redeals_left()
    }

    fn height(&self, f: u8) -> u8 {
        self.height(f)
    }

    fn hole_top(&self) -> Option<Card> {
        self.hole().last().copied()
    }

    fn slot(&self, i: u8) -> Option<Card> {
        self.slot(i)
    }
}
