//! What the crates above call.
ghost use Rattle.std.specs.Prelude.{◌≡◌, ℕ, Some};
ghost use Rattle.game_rules.specs.Belonging.{Belongs};
ghost use Rattle.game_rules.specs.Play.{Legal, after};
ghost use Rattle.packed_state.specs.Packed.{board_of, is_stacked, HoldsFoundations};
ghost use Rattle.packed_state.specs.Slots.{card_in, ChangesCarried};
ghost use Rattle.packed_state.specs.Undoing.{before, first_slot, origin_of};

use crate::{Packed, Undo};
use game_model::Rules;
use game_rules::{Move, Place};

impl Packed {
    /// Makes the move, and tells what it changed.
    pub fn go(&mut self, rules: &Rules, m: Move) -> Undo
        requires belongs { Belongs rules.now (board_of self.old) }
        requires legal { Legal rules.now (board_of self.old) m }
        ensures moved { board_of self.new ≡ after rules.now (board_of self.old) m }
        ensures stacked { is_stacked self.new ≡ is_stacked self.old }
        ensures can_go_back { before result self.new ≡ Some self.old }
        ensures belongs { Belongs rules.now (board_of self.new) }
        ensures cards { ((f : ℕ) (to : Place) (count : ℕ) → m ≡ Move.Carry (Place.Foundation f) to count
            → HoldsFoundations rules.now self.old)
            → (slot : ℕ) → card_in self.new slot ≡ card_in self.old slot }
        ensures holds { HoldsFoundations rules.now self.old → HoldsFoundations rules.now self.new }
        ensures carried { (from to : Place) (count : ℕ) → m ≡ Move.Carry from to count
            → ((i : ℕ) → from ≡ Place.Reserve i → is_stacked self.old ≡ rules.now.stacked)
            → ChangesCarried self.old self.new from to
            (first_slot self.old (origin_of rules.now.stacked self.old from) count) }
    {
        match m {
            Move::Carry { from, to, count } => self.go_carry(rules, from, to, count),
            Move::Deal => self.go_deal(rules),
            Move::Redeal => self.go_redeal(rules),
        }
    }
}
