//! The cards of a part, one after the other from the top down.
ghost use Rattle.std.specs.Prelude.{◌≡◌, ◌+◌, ◌-◌, ◌<◌, ◌≤◌, [], reverse, nat_lt, ◌==◌, if◌then◌else◌, IsSome};
ghost use Rattle.std.specs.Option.{option_to_list};
ghost use Rattle.std.specs.List.{filter_map};
ghost use Rattle.game_rules.specs.Board.{top_of, entry_at};
ghost use Rattle.packed_state.specs.Packed.{cards_at, board_of, is_stacked};
ghost use Rattle.card_links.specs.Chains.{link};
ghost use Rattle.packed_state.specs.Spots.{cards_of};
ghost use Rattle.packed_state.specs.CardsLeft.{entry_cards};

use crate::places::{CELLS, ENTRIES, HOLE, SLOTS, STOCK, WASTE};
use crate::{Cards, Packed, Spot};
use card_piles::Card;

impl Packed {
    /// The cards of the part, from the top down; none for a part that the board does not have.
    pub fn cards(&self, spot: Spot) -> Cards<'_>
        ensures { result ≡ cards_of (is_stacked self.now) (board_of self.now) spot }
    {
        self.keep();
        match spot {
            Spot::Pile(i) => self.chain_at(0, i, self.shape.piles),
            Spot::Cell(i) => self.chain_at(CELLS, i, self.shape.cells),
            Spot::Reserve(i) => self.reserve_cards(i),
            Spot::Stock => self.chain(STOCK),
            Spot::Waste => self.chain(WASTE),
            Spot::Hole => self.chain(HOLE),
            Spot::Slot(i) => self.chain_at(SLOTS, i, self.shape.slots),
        }
    }

    /// The cards of a place.
    fn chain(&self, place: usize) -> Cards<'_>
        requires { place < 315 }
        ensures { result ≡ reverse (cards_at self.now place) }
    {
        self.keep();
        Cards {
            packed: self,
            slot: self.links.top(place),
            left: self.links.size(place),
            entries: 0,
        }
    }

    /// The cards of the place of a kind, and none when there is no such place.
    fn chain_at(&self, first: usize, i: u8, count: u8) -> Cards<'_>
        requires { first + count ≤ 315 }
        ensures { result
            ≡ (if nat_lt i count then reverse (cards_at self.now (first + i)) else []) }
    {
        if i < count {
            self.chain(first + usize::from(i))
        } else {
            self.last_entries(0)
        }
    }

    /// The cards of an entry of the reserve; the entry 0 of a stacked reserve is the whole list.
    fn reserve_cards(&self, i: u8) -> Cards<'_>
        ensures { result ≡ cards_of (is_stacked self.now) (board_of self.now) (Spot.Reserve i) }
    {
        self.keep();
        if !self.stacked {
            self.chain_at(ENTRIES, i, self.shape.entries)
        } else if i == 0 {
            self.last_entries(self.shape.entries)
        } else {
            self.last_entries(0)
        }
    }

    /// The cards of so many entries of the reserve, from the last of them down.
    fn last_entries(&self, entries: u8) -> Cards<'_>
        requires { entries ≤ 52 }
        ensures { result ≡ entry_cards self.now entries }
    {
        Cards {
            packed: self,
            slot: 255,
            left: 0,
            entries,
        }
    }

    /// How many entries of the reserve there are up to the last that has a card.
    fn filled_entries(&self, entries: u8) -> u8
        requires { entries ≤ 52 }
        ensures within { result ≤ entries }
        ensures cards { entry_cards self.now result ≡ entry_cards self.now entries }
        ensures filled { 0 < result → IsSome (top_of (cards_at self.now (36 + (result - 1)))) }
    {
        for past in 0..entries {
            let left = entries - past;
            if self.top_card(ENTRIES + usize::from(left - 1)).is_some() {
                return left;
            }
        }
        0
    }

    /// The slot under a slot.
    fn slot_under(&self, slot: u8) -> u8
        requires { slot < 208 }
        ensures { result ≡ link self.now.links.under slot }
    {
        self.links.under(slot)
    }
}

impl<'a> Iterator for Cards<'a> {
    ghost use Rattle.std.specs.Iterator.{YieldsFirst, item_count};

    type Item = Card;

    ghost next_gives = { YieldsFirst (λ cards. cards) };

    ghost remaining = { item_count (λ cards. cards) };

    fn next(&mut self) -> Option<Card> {
        if self.left > 0 {
            let slot = self.slot;
            self.slot = self.packed.slot_under(slot);
            self.left -= 1;
            return Some(self.packed.card_of(slot));
        }
        let entries = self.packed.filled_entries(self.entries);
        if entries == 0 {
            self.entries = 0;
            return None;
        }
        self.entries = entries - 1;
        self.packed.top_card(ENTRIES + usize::from(entries - 1))
    }
}
