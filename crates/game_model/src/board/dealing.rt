//! What a deal changes on a board.
ghost use Rattle.std.specs.Prelude.{◌≡◌, ◌≤◌, ◌+◌, ◌∷◌, [], ◌++◌, reverse, take, drop, length, OnOk, OnErr};
ghost use Rattle.game_rules.specs.declared.Target.TheVariants.{ToWaste, ToTableau, ToHole};
ghost use Rattle.game_rules.specs.Board.{top_part, below_top};
ghost use Rattle.game_rules.specs.Play.{dealt_each, after_deal_to};

use super::{Board, Pile};
use crate::rules::Rules;
use card_piles::{Card, NoMemory};
use game_rules::Target;
use std::alloc::AllocError;

/// Turns the cards from a place on the other way round.
fn reverse_from(cards: &mut [Card], from: usize)
    requires { from ≤ length cards.old }
    ensures { cards.new ≡ take from cards.old ++ reverse (drop from cards.old) }
{
    cards[from..].reverse();
}

/// Puts one card on each of the first piles, the last card first.
fn deal_each(piles: &mut [Pile], cards: &[Card]) -> Result<(), AllocError>
    ensures ok { OnOk result (piles.new ≡ dealt_each (reverse cards.now) piles.old) }
    ensures err { OnErr result (piles.new ≡ piles.old) }
{
    if let Some((pile, rest)) = piles.split_first_mut() {
        if let Some((card, others)) = cards.split_last() {
            pile.deal(*card)?;
            if let Err(AllocError) = deal_each(rest, others) {
                pile.undeal();
                return Err(AllocError);
            }
        }
    }
    Ok(())
}

impl Pile {
    fn deal(&mut self, card: Card) -> Result<(), AllocError>
        ensures ok { OnOk result
            (self.new ≡ record { cards = self.old.cards ++ card ∷ []; face_down = self.old.face_down }) }
        ensures err { OnErr result (self.new ≡ self.old) }
    {
        self.cards.push(card)?;
        Ok(())
    }

    fn undeal(&mut self)
        ensures { self.new ≡ record { cards = below_top 1 self.old.cards; face_down = self.old.face_down } }
    {
        let _ = self.cards.pop();
    }
}

impl Board {
    fn deal_to_waste(&mut self, draw: u8) -> Result<(), NoMemory>
        ensures ok { OnOk result (self.new ≡ record self.old {
          stock = below_top draw self.old.stock;
          waste = self.old.waste ++ reverse (top_part draw self.old.stock);
        }) }
        ensures err { OnErr result (self.new ≡ self.old) }
    {
        let left = self.stock.len().saturating_sub(usize::from(draw));
        let before = self.waste.len();
        self.waste.extend_from_slice(&self.stock[left..])?;
        reverse_from(self.waste.as_mut_slice(), before);
        self.stock.truncate(left);
        Ok(())
    }

    fn deal_to_tableau(&mut self) -> Result<(), NoMemory>
        ensures ok { OnOk result (self.new ≡ record self.old {
          stock = below_top (length self.old.piles) self.old.stock;
          piles = dealt_each (reverse (top_part (length self.old.piles) self.old.stock)) self.old.piles;
        }) }
        ensures err { OnErr result (self.new ≡ self.old) }
    {
        let left = self.stock.len().saturating_sub(self.piles.len());
        deal_each(self.piles.as_mut_slice(), &self.stock[left..])?;
        self.stock.truncate(left);
        Ok(())
    }

    fn deal_to_hole(&mut self) -> Result<(), NoMemory>
        ensures ok { OnOk result (self.new ≡ record self.old {
          stock = below_top 1 self.old.stock;
          hole = self.old.hole ++ top_part 1 self.old.stock;
        }) }
        ensures err { OnErr result (self.new ≡ self.old) }
    {
        let left = self.stock.len().saturating_sub(1);
        self.hole.extend_from_slice(&self.stock[left..])?;
        self.stock.truncate(left);
        Ok(())
    }

    /// Deals from the stock's top to where the rules say: to the waste as many cards as are drawn
    /// at once, to the tableau one on each of the first piles, to the hole one. Where the stock
    /// has fewer cards, it deals these. After a refusal the board is as before.
    ///
    /// It does not ask whether the deal is legal: from an empty stock it deals nothing, and the
    /// board need not belong to the rules afterwards. `legal_moves::play` makes whole legal moves.
    pub fn deal(&mut self, rules: &Rules) -> Result<(), NoMemory>
        ensures dealt { OnOk result (self.new ≡ after_deal_to rules.now.target rules.now self.old) }
        ensures as_before { OnErr result (self.new ≡ self.old) }
    {
        match rules.target() {
            Target::ToWaste => self.deal_to_waste(rules.draw()),
            Target::ToTableau => self.deal_to_tableau(),
            Target::ToHole => self.deal_to_hole(),
        }
    }
}
