//! Each slot and each link of a packed board, as the readers tell them.

ghost use Rattle.std.specs.Prelude.{◌<◌};

use crate::{Packed, Spot};
use card_piles::Card;

/// How many slots and how many spots there are.
const SLOTS: u8 = 208;

const SPOTS: u16 = 299;

/// The spot of a number: piles, cells, entries, waste, stock, hole, slots of rows.
fn spot_at(number: u16) -> Spot
    requires { number < 299 }
{
    match number {
        0..20 => Spot::Pile(number as u8),
        20..36 => Spot::Cell((number - 20) as u8),
        36..88 => Spot::Reserve((number - 36) as u8),
        88 => Spot::Waste,
        89 => Spot::Stock,
        90 => Spot::Hole,
        _ => Spot::Slot((number - 91) as u8),
    }
}

/// The card of each slot, the slot under it, and the top slot of each spot.
#[derive(Drop)]
pub struct Trace {
    cards: [Option<Card>; 208],
    under: [Option<u8>; 208],
    tops: [Option<u8>; 299],
}

impl Trace {
    pub fn of(packed: &Packed) -> Trace {
        let mut trace = Trace {
            cards: [None; 208],
            under: [None; 208],
            tops: [None; 299],
        };
        for slot in 0..SLOTS {
            trace.cards[usize::from(slot)] = packed.card(slot);
            trace.under[usize::from(slot)] = packed.under(slot);
        }
        for number in 0..SPOTS {
            trace.tops[usize::from(number)] = packed.top(spot_at(number));
        }
        trace
    }

    /// Whether a packed board has this trace.
    pub fn is_of(&self, packed: &Packed) -> bool {
        for slot in 0..SLOTS {
            let at = usize::from(slot);
            if self.cards[at] != packed.card(slot) || self.under[at] != packed.under(slot) {
                return false;
            }
        }
        for number in 0..SPOTS {
            if self.tops[usize::from(number)] != packed.top(spot_at(number)) {
                return false;
            }
        }
        true
    }
}
