//! Linking the cards of a board.
ghost use Rattle.std.specs.Prelude.{◌≡◌, ◌≤◌, ◌<◌, ◌+◌, ◌-◌, true, false, length, IsTrue, slice_index_or, slice_set};
ghost use Rattle.std.specs.Prelude.{if◌then◌else◌, ℕ, []};
ghost use Rattle.std.specs.Option.{option_to_list};
ghost use Rattle.card_links.specs.Chains.{size_at};
ghost use Rattle.game_rules.specs.Board.{pile_at, entry_at, height_at, foundation_card};
ghost use Rattle.game_rules.specs.Rules.{takes_complete_runs};
ghost use Rattle.game_rules.specs.Belonging.{Belongs};
ghost use Rattle.game_rules.specs.Counting.{card_count};
ghost use Rattle.packed_state.specs.Packed.{is_inside, is_single, with_put, Added, board_of, is_stacked, cards_at};
ghost use Rattle.packed_state.specs.Packed.{home_cards, HoldsFoundations};
ghost use Rattle.packed_state.specs.Packing.{shape_of, cards_due, with_faces};

use crate::going::{foundation_top, write_card};
use crate::places::{CELLS, ENTRIES, FOUNDATIONS, HOLE, SLOTS, STOCK, WASTE};
use crate::{Packed, Shape};
use card_links::Links;
use card_piles::Card;
use game_model::{Board, Rules};

/// How many places of each kind a board has.
fn shape_of(rules: &Rules, board: &Board) -> Shape
    requires { Belongs rules.now board.now }
    ensures { result ≡ shape_of board.now }
{
    let _ = rules.max_rank();
    Shape {
        piles: rules.piles(),
        cells: rules.cells(),
        entries: board.reserve().len() as u8,
        foundations: rules.foundation_count(),
        slots: rules.slot_count(),
    }
}

/// The card of an entry, and none past the last.
fn entry_at(entries: &[Option<Card>], i: usize) -> Option<Card>
    ensures { result ≡ entry_at entries.now i }
{
    if i < entries.len() { entries[i] } else { None }
}

/// The card of a cell, and none past the last.
fn cell_due(rules: &Rules, board: &Board, i: usize) -> Option<Card>
    requires { Belongs rules.now board.now }
    ensures { result ≡ entry_at board.now.cells i }
{
    if i < usize::from(rules.cells()) {
        board.cell(i as u8)
    } else {
        None
    }
}

/// The card of a slot of the rows, and none past the last.
fn slot_due(rules: &Rules, board: &Board, i: usize) -> Option<Card>
    requires { Belongs rules.now board.now }
    ensures { result ≡ entry_at board.now.slots i }
{
    if i < usize::from(rules.slot_count()) {
        board.slot(i as u8)
    } else {
        None
    }
}

/// How many cards a foundation should have, and none past the last.
fn height_due(rules: &Rules, board: &Board, f: u8) -> u8
    requires { Belongs rules.now board.now }
    ensures { result ≡ height_at board.now f }
{
    if f < rules.foundation_count() {
        board.height(f)
    } else {
        0
    }
}

/// Whether the place of a number has room for one card alone.
fn is_single(place: usize) -> bool
    ensures { result ≡ is_single place }
{
    CELLS <= place && place < WASTE || SLOTS <= place
}

/// The card that a place for one card should have.
fn entry_due(rules: &Rules, board: &Board, place: usize) -> Option<Card>
    requires belongs { Belongs rules.now board.now }
    requires single { is_single place ≡ true }
    ensures { option_to_list result ≡ cards_due rules.now board.now place }
{
    if place < ENTRIES {
        cell_due(rules, board, place - CELLS)
    } else if place < WASTE {
        entry_at(board.reserve(), place - ENTRIES)
    } else {
        slot_due(rules, board, place - SLOTS)
    }
}

/// The cards that a pile, the waste, the stock or the hole should have.
fn list_due<'a>(rules: &Rules, board: &'a Board, place: usize) -> &'a [Card]
    requires belongs { Belongs rules.now board.now }
    requires many { is_single place ≡ false }
    requires no_foundation { 90 ≤ place → 106 ≤ place }
    ensures { result.now ≡ cards_due rules.now board.now place }
{
    let _ = rules.max_rank();
    if place < usize::from(rules.piles()) {
        board.pile(place as u8)
    } else if place == WASTE {
        board.waste()
    } else if place == STOCK {
        board.stock()
    } else if place == HOLE {
        board.hole()
    } else {
        &[]
    }
}

/// How many cards of each pile should lie face down.
fn faces_due(rules: &Rules, board: &Board) -> [u8; 20]
    requires { Belongs rules.now board.now }
    ensures { (i : ℕ) → i < 20 → slice_index_or result i 0 ≡ (pile_at board.now i).face_down }
{
    let _ = rules.max_rank();
    let mut faces = [0; 20];
    for i in 0..rules.piles() {
        faces[usize::from(i)] = board.face_down(i);
    }
    faces
}

/// How high a card lies from the bottom of a foundation in the order of the ranks, counted from 1.
fn order_of(runs: bool, height: u8, k: u8) -> u8
    requires { k < height }
    ensures { result ≡ (if runs then height - k else k + 1) }
{
    if runs { height - k } else { k + 1 }
}

impl Packed {
    /// Puts a card in a new slot on a place.
    fn put(&mut self, place: usize, card: Card)
        requires place { place < 315 }
        requires inside { is_inside self.old.shape place ≡ true }
        requires single { is_single place ≡ true → size_at self.old.links place ≡ 0 }
        requires room { self.old.links.used < 208 }
        ensures { self.new ≡ with_put self.old place card }
    {
        let slot = self.links.used();
        self.links.push(place);
        write_card(&mut self.cards, slot, Some(card));
    }

    /// Puts cards in new slots on a place that takes more than one, the last card uppermost.
    fn put_all(&mut self, place: usize, cards: &[Card])
        requires place { place < 315 }
        requires inside { 1 ≤ length cards.now → is_inside self.old.shape place ≡ true }
        requires many { is_single place ≡ false }
        requires room { self.old.links.used + length cards.now ≤ 208 }
        ensures { Added self.old self.new place cards.now }
    {
        self.keep();
        if let [card, rest @ ..] = cards {
            self.put(place, *card);
            self.put_all(place, rest);
        }
    }

    /// Puts the card of an entry on an empty place.
    fn put_entry(&mut self, place: usize, entry: Option<Card>)
        requires place { place < 315 }
        requires inside { 1 ≤ length (option_to_list entry) → is_inside self.old.shape place ≡ true }
        requires empty { size_at self.old.links place ≡ 0 }
        requires room { self.old.links.used + length (option_to_list entry) ≤ 208 }
        ensures { Added self.old self.new place (option_to_list entry) }
    {
        self.keep();
        if let Some(card) = entry {
            self.put(place, card);
        }
    }

    /// Puts the card that a foundation of this height has on top on the foundation.
    fn put_home_card(&mut self, rules: &Rules, f: u8, height: u8)
        requires foundation { f < 16 }
        requires some { 0 < height }
        requires inside { is_inside self.old.shape (90 + f) ≡ true }
        requires room { self.old.links.used < 208 }
        ensures { self.new ≡ with_put self.old (90 + f) (foundation_card rules.now f (height - 1)) }
    {
        if let Some(card) = foundation_top(rules, f, height) {
            self.put(FOUNDATIONS + usize::from(f), card);
        }
    }

    /// Puts the cards of a foundation of this height on it.
    fn put_home(&mut self, rules: &Rules, f: u8, height: u8)
        requires foundation { f < 16 }
        requires inside { 1 ≤ height → is_inside self.old.shape (90 + f) ≡ true }
        requires room { self.old.links.used + height ≤ 208 }
        ensures { Added self.old self.new (90 + f) (home_cards rules.now f height) }
    {
        let runs = rules.takes_complete_runs();
        for k in 0..height {
            self.keep();
            self.put_home_card(rules, f, order_of(runs, height, k));
        }
    }

    /// Puts the cards that a place should have on it.
    fn put_place(&mut self, rules: &Rules, board: &Board, place: usize)
        requires place { place < 315 }
        requires belongs { Belongs rules.now board.now }
        requires shape { self.old.shape ≡ shape_of board.now }
        requires empty { size_at self.old.links place ≡ 0 }
        requires room { self.old.links.used + length (cards_due rules.now board.now place) ≤ 208 }
        ensures { Added self.old self.new place (cards_due rules.now board.now place) }
    {
        if is_single(place) {
            self.put_entry(place, entry_due(rules, board, place));
        } else if FOUNDATIONS <= place && place < HOLE {
            let f = (place - FOUNDATIONS) as u8;
            self.put_home(rules, f, height_due(rules, board, f));
        } else {
            self.put_all(place, list_due(rules, board, place));
        }
    }
    /// No card on the places that the board has.
    fn without_cards(rules: &Rules, board: &Board) -> Packed
        requires { Belongs rules.now board.now }
        ensures shape { result.shape ≡ shape_of board.now }
        ensures redeals_left { result.redeals_left ≡ board.now.redeals_left }
        ensures stacked { is_stacked result ≡ rules.now.stacked }
        ensures used { result.links.used ≡ 0 }
        ensures empty { (p : ℕ) → p < 315 → cards_at result p ≡ [] }
    {
        let _ = rules.max_rank();
        Packed {
            links: Links::new(),
            cards: [Card::default(); 208],
            face_down: [0; 20],
            shape: shape_of(rules, board),
            redeals_left: board.redeals_left(),
            stacked: rules.stacked(),
        }
    }

    /// Writes how many cards of each pile lie face down.
    fn write_faces(&mut self, faces: [u8; 20])
        requires { (i : ℕ) → i < 20 → slice_index_or faces i 0 ≤ size_at self.old.links i }
        ensures { self.new ≡ with_faces self.old faces }
    {
        let _ = &self.links;
        self.face_down = faces;
    }

    /// The packed board that stands for the board.
    pub fn from_board(rules: &Rules, board: &Board) -> Packed
        requires { Belongs rules.now board.now }
        ensures stands_for { board_of result ≡ board.now }
        ensures stacked { is_stacked result ≡ rules.now.stacked }
        ensures foundations { HoldsFoundations rules.now result }
        ensures used { result.links.used ≡ card_count board.now }
    {
        let _ = rules.max_rank();
        let mut packed = Packed::without_cards(rules, board);
        for place in 0..315 {
            packed.put_place(rules, board, place);
        }
        packed.write_faces(faces_due(rules, board));
        packed
    }
}
