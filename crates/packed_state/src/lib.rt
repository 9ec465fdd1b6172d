//! Packed boards: cards that are linked by index, on which moves are made and taken back without memory.
//!
//! Each card has a slot of its own, which it keeps. Each place keeps its top slot and its size, and
//! each slot the slot under it:
//!
//! ```text
//!  slot    0   1   2   3   4   5   6 ..        255 is none
//!  cards   9S  9C  KC  8H  7S  2C  JD ..
//!  under   255 5   255 0   3   255 255 ..
//!
//!  place   tops sizes   from the top down      place numbers
//!  pile 0   4    3      4 -> 3 -> 0            0 to 19     piles
//!  pile 1   1    2      1 -> 5                 20 to 35    cells
//!  cell 0   6    1      6                      36 to 87    entries of the reserve, stacked or not
//!  cell 1   2    1      2                      88, 89      waste, stock
//!  cell 2   255  0                             90 to 105   foundations
//!                                              106         hole
//!                                              107 to 314  slots of the rows
//! ```
//!
//! It is so exactly when `IsLinked` holds: each chain ends after as many slots as its size, each
//! slot below `used` is in one place, and no slot is in two places or twice in one; at most so many
//! cards of a pile lie face down as it has; a place that the board does not have is empty; and a
//! cell, an entry and a slot of the rows have at most one card.
//!
//! A carry of any number of cards changes one link: 7S and 8H go from pile 0 to pile 1 when `under`
//! of slot 3, the first card carried, becomes 1. A deal and a redeal link card by card, since the
//! cards turn round.
//!
//! Means: a `Packed` stands for the board `board_of`. An `Undo` notes what a move changed, so that
//! it and the packed board after the move determine the packed board before it, slot by slot and
//! link by link.
//! Above: `go` is the move and `back` gives the whole earlier packed board; the readers are exact.
//! `top`, `under` and `card` show the slots: `go` leaves each answer of `card`, and a carry changes
//! `under` at the first card carried at most. A packed board does not know its rules, so three things
//! have a premise: a carry from a foundation leaves `card` if the foundations hold the cards that the
//! rules say, which `from_board` gives and `go` and `run_stock` keep; a carry from a stacked reserve
//! says so much of `under` and `top` if the rules stack it; and `under` leads through all cards of a
//! stacked reserve if each entry has one, as it has where the rules stack it too.
//! Limits: 20 piles, 16 cells, 52 entries, 16 foundations, 208 slots and 208 cards.
//! Refuses: `to_board` and `list_moves` for want of memory; nothing else takes memory.
//! Not promised: time.
#![tactic(auto)]

mod calls;
mod going;
pub mod laws;
mod packing;
mod part_cards;
mod places;
mod playing;
mod reading;
mod stock;
mod table;
#[cfg(test)]
mod tests;
mod turning;
mod undoing;
mod unpacking;
mod winning;

use card_links::Links;
use card_piles::Card;
use game_rules::{Place, Target};
use std::marker::Model;
pub use stock::StockUndo;

// All types stand in this one file, so that definitions cite each by its short path.

/// A part of a board that is read from its top.
#[derive(Clone, Copy, Debug, PartialEq, Eq)]
pub enum Spot {
    /// A pile of the tableau.
    Pile(u8),
    /// A cell.
    Cell(u8),
    /// An entry of the reserve; the number 0 is the whole list of a stacked reserve.
    Reserve(u8),
    /// The stock.
    Stock,
    /// The waste.
    Waste,
    /// The hole.
    Hole,
    /// A slot of the rows, counted through one row after the other.
    Slot(u8),
}

/// How many places of each kind a board has.
#[derive(Clone, Copy, Debug)]
struct Shape {
    piles: u8,
    cells: u8,
    entries: u8,
    foundations: u8,
    slots: u8,
}

/// A board as linked cards, which takes no memory.
#[derive(Debug, Drop)]
pub struct Packed {
    links: Links,
    /// The card of each slot.
    cards: [Card; 208],
    /// How many cards of each pile, at its bottom, lie face down.
    face_down: [u8; 20],
    shape: Shape,
    redeals_left: u8,
    /// Whether the reserve is one list.
    stacked: bool,
}

impl Model for Packed {
    ghost use Rattle.packed_state.specs.Packed.{Linked, IsLinked};

    ghost Value = { Linked };

    ghost view = { λ p. record {
      links = p.links;
      cards = p.cards;
      face_down = p.face_down;
      shape = p.shape;
      redeals_left = p.redeals_left;
      stacked = p.stacked;
    } };

    ghost invariant = { λ p. IsLinked (record {
      links = p.links;
      cards = p.cards;
      face_down = p.face_down;
      shape = p.shape;
      redeals_left = p.redeals_left;
      stacked = p.stacked;
    }) };
}

/// The cards of a part of a packed board, from the top down. It takes no memory.
#[derive(Drop)]
pub struct Cards<'a> {
    packed: &'a Packed,
    /// The slot of the next card.
    slot: u8,
    /// How many slots are left from there down.
    left: u8,
    /// How many entries of the reserve are left after them.
    entries: u8,
}

impl<'a> Model for Cards<'a> {
    ghost use Rattle.std.specs.Prelude.{List};
    ghost use Rattle.card_piles.specs.declared.Card.{Card};
    ghost use Rattle.packed_state.specs.CardsLeft.{cards_left, IsLeft};

    ghost Value = { List Card };

    ghost view = { λ c. cards_left c.packed.now c.slot c.left c.entries };

    ghost invariant = { λ c. IsLeft c.packed.now c.slot c.left c.entries };
}

/// What a move changed, for `Packed::back`.
#[derive(Debug, Drop)]
pub enum Undo {
    /// `count` cards went from one place to another. `face_down` cards of the pile that they left
    /// lay face down, `stacked` says whether the rules take from the reserve as one list, and `card`
    /// is what was written in the slot of the first card carried.
    Carried {
        from: Place,
        to: Place,
        count: u8,
        face_down: u8,
        stacked: bool,
        card: Card,
    },
    /// The stock dealt so many cards.
    Dealt {
        to: Target,
        count: u8,
    },
    /// The waste became the stock, and so many redeals were left before.
    Redealt {
        redeals_left: u8,
    },
}
