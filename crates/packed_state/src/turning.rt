//! Deals and redeals on a packed board.
ghost use Rattle.std.specs.Prelude.{◌≡◌, ◌≢◌, ◌≤◌, ◌<◌, ◌-◌, min, IsTrue, IsSome, Some, false, if◌then◌else◌};
ghost use Rattle.card_links.specs.Chains.{size_at};
ghost use Rattle.game_rules.specs.declared.Target.TheVariants.{ToWaste, ToTableau, ToHole};
ghost use Rattle.game_rules.specs.Belonging.{Belongs};
ghost use Rattle.game_rules.specs.Play.{is_legal_deal, is_legal_redeal, after};
ghost use Rattle.game_rules.specs.Rules.{is_unlimited};
ghost use Rattle.packed_state.specs.Packed.{board_of, is_stacked, HoldsFoundations};
ghost use Rattle.packed_state.specs.Turning.{IsList, turned, with_redeals, dealt, undealt, have_tops};
ghost use Rattle.packed_state.specs.Undoing.{before};
ghost use Rattle.packed_state.specs.declared.Undo.TheVariants.{Dealt, Redealt};

use crate::places::{HOLE, STOCK, WASTE};
use crate::{Packed, Undo};
use game_model::Rules;
use game_rules::{Move, Redeals, Target};

impl Packed {
    /// Carries cards from a list to another one after the other.
    pub(crate) fn turn(&mut self, from: usize, to: usize, count: u8)
        requires from { IsList self.old from }
        requires to { IsList self.old to }
        requires apart { from ≢ to }
        requires enough { count ≤ size_at self.old.links from }
        ensures { self.new ≡ turned self.old from to count }
    {
        self.links.shift_each(from, to, count);
    }

    fn deal_to_waste(&mut self, draw: u8) -> Undo
        ensures moved { self.new ≡ turned self.old 89 88 (min (size_at self.old.links 89) draw) }
        ensures noted { result ≡ Dealt ToWaste (min (size_at self.old.links 89) draw) }
    {
        let count = self.links.size(STOCK).min(draw);
        self.turn(STOCK, WASTE, count);
        Undo::Dealt {
            to: Target::ToWaste,
            count,
        }
    }

    fn deal_to_hole(&mut self) -> Undo
        ensures moved { self.new ≡ turned self.old 89 106 (min (size_at self.old.links 89) 1) }
        ensures noted { result ≡ Dealt ToHole (min (size_at self.old.links 89) 1) }
    {
        let count = self.links.size(STOCK).min(1);
        self.turn(STOCK, HOLE, count);
        Undo::Dealt {
            to: Target::ToHole,
            count,
        }
    }

    fn deal_to_tableau(&mut self) -> Undo
        ensures moved { self.new ≡ dealt self.old
            (min (size_at self.old.links 89) self.old.shape.piles) }
        ensures noted { result ≡ Dealt ToTableau
            (min (size_at self.old.links 89) self.old.shape.piles) }
    {
        let count = self.links.size(STOCK).min(self.shape.piles);
        self.links.deal_out(STOCK, count);
        Undo::Dealt {
            to: Target::ToTableau,
            count,
        }
    }

    fn undeal_from_tableau(&mut self, count: u8)
        requires { IsTrue (have_tops self.old count) }
        ensures { self.new ≡ undealt self.old count }
    {
        self.links.gather(STOCK, count);
    }

    /// Writes how many redeals are left.
    pub(crate) fn set_redeals(&mut self, redeals_left: u8)
        ensures { self.new ≡ with_redeals self.old redeals_left }
    {
        self.redeals_left = redeals_left;
    }

    /// Makes the stock of the waste.
    fn turn_waste(&mut self, redeals_left: u8) -> Undo
        ensures moved { self.new ≡ with_redeals
            (turned self.old 88 89 (size_at self.old.links 88)) redeals_left }
        ensures noted { result ≡ Redealt self.old.redeals_left }
    {
        let before = self.redeals_left;
        let count = self.links.size(WASTE);
        self.turn(WASTE, STOCK, count);
        self.set_redeals(redeals_left);
        Undo::Redealt {
            redeals_left: before,
        }
    }

    /// Makes the waste of the stock again.
    fn unturn_waste(&mut self, redeals_left: u8)
        ensures { self.new ≡ with_redeals
            (turned self.old 89 88 (size_at self.old.links 89)) redeals_left }
    {
        let count = self.links.size(STOCK);
        self.turn(STOCK, WASTE, count);
        self.set_redeals(redeals_left);
    }

    /// Deals from the stock's top to where the rules say.
    pub(crate) fn go_deal(&mut self, rules: &Rules) -> Undo
        requires belongs { Belongs rules.now (board_of self.old) }
        requires legal { IsTrue (is_legal_deal rules.now (board_of self.old)) }
        ensures moved { board_of self.new ≡ after rules.now (board_of self.old) Move.Deal }
        ensures stacked { is_stacked self.new ≡ is_stacked self.old }
        ensures can_go_back { before result self.new ≡ Some self.old }
        ensures belongs { Belongs rules.now (board_of self.new) }
        ensures cards { self.new.cards ≡ self.old.cards }
        ensures used { self.new.links.used ≡ self.old.links.used }
        ensures holds { HoldsFoundations rules.now self.old → HoldsFoundations rules.now self.new }
    {
        let _ = rules.parts();
        self.keep();
        match rules.target() {
            Target::ToWaste => self.deal_to_waste(rules.draw()),
            Target::ToTableau => self.deal_to_tableau(),
            Target::ToHole => self.deal_to_hole(),
        }
    }

    /// Makes the stock of the waste.
    pub(crate) fn go_redeal(&mut self, rules: &Rules) -> Undo
        requires belongs { Belongs rules.now (board_of self.old) }
        requires legal { IsTrue (is_legal_redeal rules.now (board_of self.old)) }
        ensures moved { board_of self.new ≡ after rules.now (board_of self.old) Move.Redeal }
        ensures stacked { is_stacked self.new ≡ is_stacked self.old }
        ensures can_go_back { before result self.new ≡ Some self.old }
        ensures belongs { Belongs rules.now (board_of self.new) }
        ensures cards { self.new.cards ≡ self.old.cards }
        ensures used { self.new.links.used ≡ self.old.links.used }
        ensures holds { HoldsFoundations rules.now self.old → HoldsFoundations rules.now self.new }
    {
        let _ = rules.parts();
        self.keep();
        let left = redeals_after(rules, self.redeals_left());
        self.turn_waste(left)
    }

    /// Takes a move back: gives the one earlier packed board that the undo and this one determine.
    pub fn back(&mut self, undo: Undo)
        requires { IsSome (before undo self.old) }
        ensures { before undo self.old ≡ Some self.new }
    {
        match undo {
            Undo::Carried {
                from,
                to,
                count,
                face_down,
                stacked,
                card,
            } => self.uncarry(from, to, count, face_down, stacked, card),
            Undo::Dealt { to, count } => self.undeal(to, count),
            Undo::Redealt { redeals_left } => self.unturn_waste(redeals_left),
        }
    }

    fn undeal(&mut self, to: Target, count: u8)
        requires { IsSome (before (Dealt to count) self.old) }
        ensures { before (Dealt to count) self.old ≡ Some self.new }
    {
        match to {
            Target::ToWaste => self.turn(WASTE, STOCK, count),
            Target::ToTableau => self.undeal_from_tableau(count),
            Target::ToHole => self.turn(HOLE, STOCK, count),
        }
    }
}

/// How many redeals are left after one.
fn redeals_after(rules: &Rules, left: u8) -> u8
    ensures { result ≡ (if is_unlimited rules.now.redeals then left else left - 1) }
{
    if matches!(rules.redeals(), Redeals::Unlimited) {
        left
    } else {
        left.saturating_sub(1)
    }
}
