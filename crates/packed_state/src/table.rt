//! A packed board as a table of cards, to this crate and to those above.
ghost use Rattle.packed_state.specs.Packed.{board_of};
ghost use Rattle.packed_state.specs.Piles.{IsPart, part_cards};

use crate::Packed;
use crate::places::{CELLS, ENTRIES, HOLE, SLOTS, STOCK, WASTE};
use card_piles::Card;
use game_model::Table;

/// A part of a pile: the slot of its uppermost card, and how many cards it has.
#[derive(Clone, Copy, Debug)]
pub struct Chain {
    slot: u8,
    left: u8,
}

impl Table for Packed {
    type Stack = Chain;

    ghost board = { board_of };

    ghost stands = { λ l s. IsPart l s };

    ghost cards = { λ l s. part_cards l s };

    fn pile(&self, i: u8) -> Chain {
        self.keep();
        Chain {
            slot: self.links.top(usize::from(i)),
            left: self.links.size(usize::from(i)),
        }
    }

    fn top(&self, stack: Chain) -> Option<Card> {
        if stack.left == 0 {
            None
        } else {
            Some(self.card_of(stack.slot))
        }
    }

    fn under(&self, stack: Chain) -> Chain {
        if stack.left == 0 {
            return stack;
        }
        Chain {
            slot: self.links.under(stack.slot),
            left: stack.left - 1,
        }
    }

    fn size(&self, i: u8) -> usize {
        self.keep();
        usize::from(self.count(usize::from(i)))
    }

    fn face_down(&self, i: u8) -> u8 {
        self.face_down(i)
    }

    fn cell(&self, i: u8) -> Option<Card> {
        self.keep();
        self.top_card(CELLS + usize::from(i))
    }

    fn entry_count(&self) -> usize {
        usize::from(self.shape.entries)
    }

    fn entry(&self, i: u8) -> Option<Card> {
        self.keep();
        self.top_card(ENTRIES + usize::from(i))
    }

    fn last_entry(&self) -> Option<Card> {
        self.keep();
        if self.shape.entries == 0 {
            None
        } else {
            self.top_card(ENTRIES + usize::from(self.shape.entries - 1))
        }
    }

    fn stock_size(&self) -> usize {
        usize::from(self.count(STOCK))
    }

    fn waste_top(&self) -> Option<Card> {
        self.top_card(WASTE)
    }

    fn redeals_left(&self) -> u8 {
        self.redeals_left()
    }

    fn height(&self, f: u8) -> u8 {
        self.height(f)
    }

    fn hole_top(&self) -> Option<Card> {
        self.top_card(HOLE)
    }

    fn slot(&self, i: u8) -> Option<Card> {
        self.keep();
        self.top_card(SLOTS + usize::from(i))
    }
}
