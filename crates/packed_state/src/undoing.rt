//! Taking moves back on a packed board.
ghost use Rattle.std.specs.Prelude.{◌≡◌, IsTrue};
ghost use Rattle.packed_state.specs.Undoing.{fits_carried, before_carry};

use crate::Packed;
use crate::going::{write_card, write_face};
use crate::places::{index_of, shape_before, source_of};
use card_piles::Card;
use game_rules::Place;

impl Packed {
    /// Takes a carry back.
    pub(crate) fn uncarry(
        &mut self,
        from: Place,
        to: Place,
        count: u8,
        face_down: u8,
        stacked: bool,
        card: Card,
    )
        requires { IsTrue (fits_carried self.old from to count face_down stacked) }
        ensures { self.new ≡ before_carry self.old from to count face_down stacked card }
    {
        let shape = shape_before(stacked, &self.shape, from);
        let (a, b) = (source_of(stacked, &shape, from), index_of(to));
        let slot = self.links.slot(b, count - 1);
        self.links.shift(b, a, count);
        write_face(&mut self.face_down, from, face_down);
        write_card(&mut self.cards, slot, Some(card));
        self.shape = shape;
    }
}
