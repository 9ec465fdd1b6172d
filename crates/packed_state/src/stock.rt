//! Many stock moves at once, and taking them back.
//!
//! Stock and waste are one queue of cards, and a stock move shifts the border in it alone. So the
//! border is moved by number, and then each card between the old border and the new one changes
//! sides once.
ghost use Rattle.std.specs.Prelude.{◌≡◌, ◌≤◌, ◌<◌, ◌+◌, ◌-◌, IsSome, IsTrue, Some, if◌then◌else◌};
ghost use Rattle.card_links.specs.Chains.{size_at};
ghost use Rattle.game_rules.specs.Rules.{is_unlimited};
ghost use Rattle.game_rules.specs.Belonging.{Belongs};
ghost use Rattle.game_rules.specs.StockMoves.{after_stock_moves};
ghost use Rattle.game_rules.specs.NextByStock.{HasStockMoves};
ghost use Rattle.packed_state.specs.declared.stock.StockUndo.{StockUndo};
ghost use Rattle.packed_state.specs.Packed.{board_of, is_stacked, HoldsFoundations};
ghost use Rattle.packed_state.specs.StockRuns.{before_run, can_be_cut, cut_at};

use crate::Packed;
use crate::places::{STOCK, WASTE};
use game_model::Rules;
use game_rules::Redeals;

/// Where the queue of stock and waste is cut.
#[derive(Clone, Copy, Debug)]
struct Border {
    /// The number of cards in the stock.
    stock: u8,
    /// How many redeals are left.
    redeals_left: u8,
}

/// Where the border lay before stock moves, for `Packed::unrun_stock`.
#[derive(Debug, Drop)]
pub struct StockUndo {
    before: Border,
}

impl Border {
    /// The border after the next stock move, in a queue of so many cards.
    fn moved(self, rules: &Rules, cards: u8) -> Border
        ensures deals { 0 < self.stock → result ≡ record {
          stock = self.stock - rules.now.draw;
          redeals_left = self.redeals_left;
        } }
        ensures redeals { self.stock ≡ 0 → result ≡ record {
          stock = cards;
          redeals_left = if is_unlimited rules.now.redeals then self.redeals_left else self.redeals_left - 1;
        } }
    {
        if self.stock != 0 {
            return Border {
                stock: self.stock.saturating_sub(rules.draw()),
                redeals_left: self.redeals_left,
            };
        }
        let redeals_left = match rules.redeals() {
            Redeals::Unlimited => self.redeals_left,
            Redeals::Times(_) => self.redeals_left.saturating_sub(1),
        };
        Border {
            stock: cards,
            redeals_left,
        }
    }
}

impl Packed {
    /// Where the border lies.
    fn border(&self) -> Border
        ensures { result ≡ record { stock = size_at self.now.links 89; redeals_left = self.now.redeals_left } }
    {
        Border {
            stock: self.links.size(STOCK),
            redeals_left: self.redeals_left,
        }
    }

    /// Where the border lies after so many stock moves.
    fn border_after(&self, rules: &Rules, k: u16) -> Border
        requires { HasStockMoves rules.now k (board_of self.now) }
        ensures fits { result.stock ≤ size_at self.now.links 89 + size_at self.now.links 88 }
        ensures moved { board_of (cut_at result self.now) ≡ after_stock_moves rules.now k
            (board_of self.now) }
    {
        self.keep();
        let cards = self.links.size(STOCK) + self.links.size(WASTE);
        let mut border = self.border();
        for made in 0..k {
            let _ = made;
            border = border.moved(rules, cards);
        }
        border
    }

    /// Cuts the queue of stock and waste at a border.
    fn cut(&mut self, border: Border)
        requires { IsTrue (can_be_cut border self.old) }
        ensures { self.new ≡ cut_at border self.old }
    {
        let stock = self.links.size(STOCK);
        if border.stock < stock {
            self.turn(STOCK, WASTE, stock - border.stock);
        } else {
            self.turn(WASTE, STOCK, border.stock - stock);
        }
        self.set_redeals(border.redeals_left);
    }

    /// Makes `k` stock moves, each the next stock move of the board where it is made: a deal while
    /// the stock has a card, else a redeal. What earlier stock moves noted takes all of them back.
    /// It takes no memory.
    pub fn run_stock(&mut self, rules: &Rules, k: u16) -> StockUndo
        requires belongs { Belongs rules.now (board_of self.old) }
        requires so_many { HasStockMoves rules.now k (board_of self.old) }
        ensures moved { board_of self.new ≡ after_stock_moves rules.now k (board_of self.old) }
        ensures stacked { is_stacked self.new ≡ is_stacked self.old }
        ensures can_go_back { before_run result self.new ≡ Some self.old }
        ensures belongs { Belongs rules.now (board_of self.new) }
        ensures cards { self.new.cards ≡ self.old.cards }
        ensures used { self.new.links.used ≡ self.old.links.used }
        ensures holds { HoldsFoundations rules.now self.old → HoldsFoundations rules.now self.new }
        ensures same_notes { (undo : StockUndo) → before_run undo self.new ≡ before_run undo self.old }
    {
        let _ = rules.parts();
        self.keep();
        let before = self.border();
        let border = self.border_after(rules, k);
        self.cut(border);
        StockUndo { before }
    }

    /// Takes stock moves back: gives the one earlier packed board that the undo and this one
    /// determine.
    pub fn unrun_stock(&mut self, undo: StockUndo)
        requires { IsSome (before_run undo self.old) }
        ensures { before_run undo self.old ≡ Some self.new }
    {
        self.cut(undo.before);
    }
}
