//! What a carry and a redeal change on a board.
ghost use Rattle.std.specs.Prelude.{◌≡◌, ◌≤◌, ◌<◌, ◌+◌, ◌-◌, ◌++◌, min, length, IsTrue, OnOk, OnErr};
ghost use Rattle.game_rules.specs.Board.{has_place};
ghost use Rattle.game_rules.specs.AtPlace.{has_entry, has_cards, number_at};
ghost use Rattle.game_rules.specs.Taking.{without, pile_without};
ghost use Rattle.game_rules.specs.Putting.{with_cards};
ghost use Rattle.game_rules.specs.Play.{is_legal_redeal, after_redeal};

use super::{Board, Pile};
use crate::rules::Rules;
use card_piles::{Card, NoMemory};
use game_rules::{Place, Redeals};

/// How many cards of a pile lie face down when so many cards are left, of which the top lies face up.
pub fn face_down_left(face_down: u8, left: usize) -> u8
    ensures { result ≡ min face_down (left - 1) }
{
    if left <= usize::from(face_down) {
        left.saturating_sub(1) as u8
    } else {
        face_down
    }
}

impl Pile {
    fn put(&mut self, cards: &[Card]) -> Result<(), NoMemory>
        ensures ok { OnOk result
            (self.new ≡ record { cards = self.old.cards ++ cards.now; face_down = self.old.face_down }) }
        ensures err { OnErr result (self.new ≡ self.old) }
    {
        self.cards.extend_from_slice(cards)?;
        Ok(())
    }

    fn remove(&mut self, count: u8)
        requires { count ≤ length self.old.cards }
        ensures { self.new ≡ pile_without count self.old }
    {
        let left = self.cards.len() - usize::from(count);
        self.cards.truncate(left);
        self.face_down = face_down_left(self.face_down, left);
    }
}

impl Board {
    /// Puts cards on a place of the board, one at least; the reserve and the waste take none. After
    /// a refusal the board is as before.
    ///
    /// It is a part of a carry, and does not ask whether the cards fit: the board need not belong to
    /// the rules afterwards. `legal_moves::play` makes whole legal moves.
    pub fn put(&mut self, to: Place, cards: &[Card]) -> Result<(), NoMemory>
        requires place { IsTrue (has_entry self.old to) }
        requires some { 0 < length cards.now }
        requires few { number_at self.old to + length cards.now < 256 }
        ensures ok { OnOk result (self.new ≡ with_cards self.old to cards.now) }
        ensures err { OnErr result (self.new ≡ self.old) }
    {
        match to {
            Place::Tableau(i) => {
                let pile = &mut self.piles[usize::from(i)];
                pile.put(cards)
            }
            Place::Cell(i) => {
                self.cells[usize::from(i)] = cards.first().copied();
                Ok(())
            }
            Place::Foundation(f) => {
                self.heights[usize::from(f)] += cards.len() as u8;
                Ok(())
            }
            Place::Hole => {
                self.hole.extend_from_slice(cards)?;
                Ok(())
            }
            Place::Slot(i) => {
                self.slots[usize::from(i)] = cards.first().copied();
                Ok(())
            }
            Place::Reserve(_) => Ok(()),
            Place::Waste => Ok(()),
        }
    }

    /// Removes the last cards of a place of the board: as many as are said of a pile, the one card
    /// of another place, and none of the hole. The new top of a pile is turned up.
    ///
    /// It is a part of a carry, and drops the cards: the board need not belong to the rules
    /// afterwards. `legal_moves::play` makes whole legal moves.
    pub fn remove(&mut self, rules: &Rules, from: Place, count: u8)
        requires place { IsTrue (has_place rules.now self.old from) }
        requires enough { IsTrue (has_cards self.old from count) }
        ensures { self.new ≡ without rules.now self.old from count }
    {
        match from {
            Place::Tableau(i) => {
                let pile = &mut self.piles[usize::from(i)];
                pile.remove(count);
            }
            Place::Cell(i) => {
                self.cells[usize::from(i)] = None;
            }
            Place::Reserve(i) => {
                if rules.stacked() {
                    let left = self.reserve.len().saturating_sub(1);
                    self.reserve.truncate(left);
                } else {
                    self.reserve[usize::from(i)] = None;
                }
            }
            Place::Waste => {
                let left = self.waste.len().saturating_sub(1);
                self.waste.truncate(left);
            }
            Place::Foundation(f) => {
                self.heights[usize::from(f)] = self.heights[usize::from(f)].saturating_sub(1);
            }
            Place::Hole => {}
            Place::Slot(i) => {
                self.slots[usize::from(i)] = None;
            }
        }
    }

    /// Makes the stock of the waste, and counts the redeal where redeals are counted.
    ///
    /// It asks that the redeal is legal. It does not say of a board that did not belong to the rules
    /// before that it does afterwards; `legal_moves::play` keeps boards that belong.
    pub fn redeal(&mut self, rules: &Rules)
        requires { IsTrue (is_legal_redeal rules.now self.old) }
        ensures { self.new ≡ after_redeal rules.now self.old }
    {
        self.waste.reverse();
        std::mem::swap(&mut self.waste, &mut self.stock);
        if !matches!(rules.redeals(), Redeals::Unlimited) {
            self.redeals_left = self.redeals_left.saturating_sub(1);
        }
    }
}
