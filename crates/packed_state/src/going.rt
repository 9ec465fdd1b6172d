//! Moves on a packed board, and what they note for their undoing.
ghost use Rattle.std.specs.Prelude.{◌≡◌, ℕ, ◌≤◌, ◌<◌, ◌-◌, min, IsTrue, length, Some};
ghost use Rattle.game_rules.specs.Board.{foundation_top};
ghost use Rattle.game_rules.specs.Belonging.{Belongs};
ghost use Rattle.game_rules.specs.Play.{is_legal_carry, after};
ghost use Rattle.card_links.specs.Chains.{size_at};
ghost use Rattle.packed_state.specs.Packed.{IsLinked, index_of, is_place, board_of, is_stacked, HoldsFoundations};
ghost use Rattle.packed_state.specs.Slots.{ChangesCarried};
ghost use Rattle.packed_state.specs.Undoing.{face_of, with_face, with_card, written, CanCarry, gone, carry_note};
ghost use Rattle.packed_state.specs.Undoing.{before, first_slot, origin_of, ChangesOne};

use crate::places::{index_of, shape_after, source_of};
use crate::{Packed, Undo};
use card_piles::Card;
use game_model::Rules;
use game_rules::{Move, Place, suit_at};

/// The top card of a foundation of this height.
pub(crate) fn foundation_top(rules: &Rules, f: u8, height: u8) -> Option<Card>
    ensures { result ≡ foundation_top rules.now f height }
{
    if height == 0 {
        None
    } else {
        Card::new(suit_at(f % 4), rules.foundation_rank(height - 1))
    }
}

/// The card that a foundation of this size gives, and none for another place.
fn written(rules: &Rules, size: u8, place: Place) -> Option<Card>
    ensures { result ≡ written rules.now size place }
{
    match place {
        Place::Foundation(f) => foundation_top(rules, f, size),
        _ => None,
    }
}

/// How many cards lie face down where of so many so many are left, and the top is turned up.
fn turned(face_down: u8, left: u8) -> u8
    ensures { result ≡ min face_down (left - 1) }
{
    if face_down < left {
        face_down
    } else {
        left.saturating_sub(1)
    }
}

/// Writes how many cards of a pile lie face down.
pub(crate) fn write_face(faces: &mut [u8], place: Place, face: u8)
    requires { (i : ℕ) → place ≡ Place.Tableau i → i < length faces.old }
    ensures { faces.new ≡ with_face faces.old place face }
{
    if let Place::Tableau(i) = place {
        faces[usize::from(i)] = face;
    }
}

/// Writes the card of a slot, where there is one to write.
pub(crate) fn write_card(cards: &mut [Card], slot: u8, card: Option<Card>)
    requires { slot < length cards.old }
    ensures { cards.new ≡ with_card cards.old slot card }
{
    if let Some(card) = card {
        cards[usize::from(slot)] = card;
    }
}

impl Packed {
    /// How many cards of a place lie face down.
    fn face_of(&self, place: Place) -> u8
        requires { IsTrue (is_place self.now.shape place) }
        ensures { result ≡ face_of self.now place }
    {
        match place {
            Place::Tableau(i) => self.face_down[usize::from(i)],
            _ => 0,
        }
    }

    /// Carries cards from one place to another.
    pub(crate) fn carry(&mut self, rules: &Rules, from: Place, to: Place, count: u8) -> Undo
        requires { CanCarry rules.now.stacked self.old from to count }
        ensures moved { self.new ≡ gone rules.now self.old from to count }
        ensures noted { result ≡ carry_note rules.now.stacked self.old from to count }
    {
        let stacked = rules.stacked();
        let (a, b) = (source_of(stacked, &self.shape, from), index_of(to));
        let slot = self.links.slot(a, count - 1);
        let size = self.links.size(a);
        let face_down = self.face_of(from);
        let card = self.card_of(slot);
        self.links.shift(a, b, count);
        write_face(&mut self.face_down, from, turned(face_down, size - count));
        write_card(&mut self.cards, slot, written(rules, size, from));
        self.shape = shape_after(stacked, &self.shape, from);
        Undo::Carried {
            from,
            to,
            count,
            face_down,
            stacked,
            card,
        }
    }

    /// Makes a legal carry, and tells what it changed.
    pub(crate) fn go_carry(&mut self, rules: &Rules, from: Place, to: Place, count: u8) -> Undo
        requires belongs { Belongs rules.now (board_of self.old) }
        requires legal { IsTrue (is_legal_carry rules.now (board_of self.old) from to count) }
        ensures moved { board_of self.new ≡ after rules.now (board_of self.old)
            (Move.Carry from to count) }
        ensures stacked { is_stacked self.new ≡ is_stacked self.old }
        ensures can_go_back { before result self.new ≡ Some self.old }
        ensures belongs { Belongs rules.now (board_of self.new) }
        ensures cards { ((f : ℕ) → from ≡ Place.Foundation f → HoldsFoundations rules.now self.old)
            → self.new.cards ≡ self.old.cards }
        ensures used { self.new.links.used ≡ self.old.links.used }
        ensures holds { HoldsFoundations rules.now self.old → HoldsFoundations rules.now self.new }
        ensures carried { ((i : ℕ) → from ≡ Place.Reserve i → is_stacked self.old ≡ rules.now.stacked)
            → ChangesCarried self.old self.new from to
            (first_slot self.old (origin_of rules.now.stacked self.old from) count) }
        ensures one_link { ChangesOne self.old.links self.new.links
            (first_slot self.old (origin_of rules.now.stacked self.old from) count)
            (origin_of rules.now.stacked self.old from) (index_of to) }
    {
        let _ = rules.parts();
        self.keep();
        self.carry(rules, from, to, count)
    }

    /// The slots are linked.
    pub(crate) fn keep(&self)
        ensures { IsLinked self.now }
    {
        let _ = &self.links;
    }
}
