//! The parts of a packed board, read from their tops.
ghost use Rattle.std.specs.Prelude.{◌≡◌, ◌<◌, ◌≤◌, ◌+◌, length, nat_lt, if◌then◌else◌, None};
ghost use Rattle.game_rules.specs.Board.{top_of, pile_at, height_at};
ghost use Rattle.card_links.specs.Chains.{size_at};
ghost use Rattle.packed_state.specs.Packed.{cards_at, card_of, board_of, is_stacked};
ghost use Rattle.packed_state.specs.Slots.{slot_on, top_slot, card_in, before_entry, under_last, under_slot};
ghost use Rattle.packed_state.specs.Spots.{under_top, in_entry, in_reserve, card_at, size_at as spot_size};

use crate::places::{CELLS, ENTRIES, FOUNDATIONS, HOLE, SLOTS, STOCK, WASTE};
use crate::{Packed, Spot};
use card_links::Links;
use card_piles::Card;

impl Packed {
    /// The card of a slot.
    pub(crate) fn card_of(&self, slot: u8) -> Card
        requires { slot < 208 }
        ensures { result ≡ card_of self.now.cards slot }
    {
        self.cards[usize::from(slot)]
    }

    /// How many cards a place has.
    pub(crate) fn count(&self, place: usize) -> u8
        requires { place < 315 }
        ensures size { result ≡ size_at self.now.links place }
        ensures cards { result ≡ length (cards_at self.now place) }
    {
        self.links.size(place)
    }

    /// The uppermost card of a place.
    pub(crate) fn top_card(&self, place: usize) -> Option<Card>
        requires { place < 315 }
        ensures { result ≡ top_of (cards_at self.now place) }
    {
        let slot = self.links.top(place);
        if slot == 255 {
            None
        } else {
            Some(self.card_of(slot))
        }
    }

    /// The card of a place with so many above it.
    fn deep_card(&self, place: usize, depth: u8) -> Option<Card>
        requires { place < 315 }
        ensures { result ≡ under_top (cards_at self.now place) depth }
    {
        if depth < self.links.size(place) {
            Some(self.card_of(self.links.slot(place, depth)))
        } else {
            None
        }
    }

    /// The card of an entry, which has none above it.
    fn entry_card(&self, first: usize, i: u8, count: u8, depth: u8) -> Option<Card>
        requires { first + count ≤ 315 }
        ensures { result ≡ (if nat_lt i count
            then in_entry (top_of (cards_at self.now (first + i))) depth else None) }
    {
        if i < count && depth == 0 {
            self.top_card(first + usize::from(i))
        } else {
            None
        }
    }

    /// The card of the part with exactly so many cards above it. None exactly where there is none.
    pub fn at(&self, spot: Spot, depth: u8) -> Option<Card>
        ensures { result ≡ card_at (is_stacked self.now) (board_of self.now) spot depth }
    {
        self.keep();
        match spot {
            Spot::Pile(i) => {
                if i < self.shape.piles {
                    self.deep_card(usize::from(i), depth)
                } else {
                    None
                }
            }
            Spot::Cell(i) => self.entry_card(CELLS, i, self.shape.cells, depth),
            Spot::Reserve(i) => self.reserve_card(i, depth),
            Spot::Stock => self.deep_card(STOCK, depth),
            Spot::Waste => self.deep_card(WASTE, depth),
            Spot::Hole => self.deep_card(HOLE, depth),
            Spot::Slot(i) => self.entry_card(SLOTS, i, self.shape.slots, depth),
        }
    }

    fn reserve_card(&self, i: u8, depth: u8) -> Option<Card>
        ensures { result ≡ in_reserve (is_stacked self.now) (board_of self.now).reserve i depth }
    {
        self.keep();
        if !self.stacked {
            return self.entry_card(ENTRIES, i, self.shape.entries, depth);
        }
        if i == 0 && depth < self.shape.entries {
            self.top_card(ENTRIES + usize::from(self.shape.entries - 1 - depth))
        } else {
            None
        }
    }

    /// The slot of the uppermost card of the place of a number. None exactly if it has no card.
    pub(crate) fn slot_on(&self, place: usize) -> Option<u8>
        requires { place < 315 }
        ensures { result ≡ slot_on self.now.links place }
    {
        if self.links.size(place) == 0 {
            None
        } else {
            Some(self.links.top(place))
        }
    }

    /// The same for the place of a kind, and None if there is no such place.
    fn slot_at(&self, first: usize, i: u8, count: u8) -> Option<u8>
        requires { first + count ≤ 315 }
        ensures { result ≡ (if nat_lt i count then slot_on self.now.links (first + i) else None) }
    {
        if i < count {
            self.slot_on(first + usize::from(i))
        } else {
            None
        }
    }

    /// The same for the reserve: the last entry of a stacked one, which is its entry 0.
    fn entry_slot(&self, i: u8) -> Option<u8>
        ensures { result ≡ top_slot self.now (Spot.Reserve i) }
    {
        self.keep();
        if !self.stacked {
            self.slot_at(ENTRIES, i, self.shape.entries)
        } else if i == 0 {
            self.slot_on(ENTRIES + usize::from(self.shape.entries.saturating_sub(1)))
        } else {
            None
        }
    }

    /// The slot of the part's uppermost card. None exactly if the part has no card.
    pub fn top(&self, spot: Spot) -> Option<u8>
        ensures { result ≡ top_slot self.now spot }
    {
        self.keep();
        match spot {
            Spot::Pile(i) => self.slot_at(0, i, self.shape.piles),
            Spot::Cell(i) => self.slot_at(CELLS, i, self.shape.cells),
            Spot::Reserve(i) => self.entry_slot(i),
            Spot::Stock => self.slot_on(STOCK),
            Spot::Waste => self.slot_on(WASTE),
            Spot::Hole => self.slot_on(HOLE),
            Spot::Slot(i) => self.slot_at(SLOTS, i, self.shape.slots),
        }
    }

    /// The card of a slot. None exactly if the slot is not in play.
    pub fn card(&self, slot: u8) -> Option<Card>
        ensures { result ≡ card_in self.now slot }
    {
        self.keep();
        if slot < self.links.used() {
            Some(self.card_of(slot))
        } else {
            None
        }
    }

    /// The slot of the card directly under a slot's card in its part: in a stacked reserve that of
    /// the entry before. None exactly if there is none, or the slot is not in play.
    pub fn under(&self, slot: u8) -> Option<u8>
        ensures { result ≡ under_slot self.now slot }
    {
        self.keep();
        if slot >= self.links.used() {
            return None;
        }
        let below = self.links.under(slot);
        if below == 255 {
            self.under_last(slot)
        } else {
            Some(below)
        }
    }

    /// The slot under the lowest one of a place: a stacked reserve goes on with the entry before.
    fn under_last(&self, slot: u8) -> Option<u8>
        ensures { result ≡ under_last self.now slot }
    {
        self.keep();
        if self.stacked {
            before_entry(&self.links, self.shape.entries.saturating_sub(1), slot)
        } else {
            None
        }
    }

    /// How many redeals are left where they are counted, else 0.
    pub fn redeals_left(&self) -> u8
        ensures linked { result ≡ self.now.redeals_left }
        ensures board { result ≡ (board_of self.now).redeals_left }
    {
        self.redeals_left
    }

    /// How many cards lie on a foundation.
    pub fn height(&self, f: u8) -> u8
        requires { f < length (board_of self.now).heights }
        ensures { result ≡ height_at (board_of self.now) f }
    {
        self.keep();
        self.links.size(FOUNDATIONS + usize::from(f))
    }

    /// How many cards of a pile, at its bottom, lie face down.
    pub fn face_down(&self, pile: u8) -> u8
        requires { pile < length (board_of self.now).piles }
        ensures { result ≡ (pile_at (board_of self.now) pile).face_down }
    {
        self.keep();
        self.face_down[usize::from(pile)]
    }

    /// The number of cards of the part, and 0 for a part that the board does not have.
    pub fn size(&self, spot: Spot) -> u8
        ensures { result ≡ spot_size (is_stacked self.now) (board_of self.now) spot }
    {
        self.keep();
        match spot {
            Spot::Pile(i) => self.count_at(0, i, self.shape.piles),
            Spot::Cell(i) => self.count_at(CELLS, i, self.shape.cells),
            Spot::Reserve(i) => self.reserve_size(i),
            Spot::Stock => self.count(STOCK),
            Spot::Waste => self.count(WASTE),
            Spot::Hole => self.count(HOLE),
            Spot::Slot(i) => self.count_at(SLOTS, i, self.shape.slots),
        }
    }

    /// How many cards an entry of the reserve has; the entry 0 of a stacked reserve is the whole list.
    fn reserve_size(&self, i: u8) -> u8
        ensures { result ≡ spot_size (is_stacked self.now) (board_of self.now) (Spot.Reserve i) }
    {
        self.keep();
        if !self.stacked {
            self.count_at(ENTRIES, i, self.shape.entries)
        } else if i == 0 {
            self.shape.entries
        } else {
            0
        }
    }

    /// How many cards the place of a kind has, and 0 when there is no such place.
    fn count_at(&self, first: usize, i: u8, count: u8) -> u8
        requires { first + count ≤ 315 }
        ensures { result ≡ (if nat_lt i count then length (cards_at self.now (first + i)) else 0) }
    {
        if i < count {
            self.count(first + usize::from(i))
        } else {
            0
        }
    }
}

/// The slot of the entry before the one that has this slot, among the entries up to a number.
fn before_entry(links: &Links, entry: u8, slot: u8) -> Option<u8>
    requires { entry < 52 }
    ensures { result ≡ before_entry links.now entry slot }
{
    if entry == 0 {
        return None;
    }
    let place = ENTRIES + usize::from(entry);
    if links.top(place) != slot {
        before_entry(links, entry - 1, slot)
    } else if links.size(place - 1) == 0 {
        None
    } else {
        Some(links.top(place - 1))
    }
}
