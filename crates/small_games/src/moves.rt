//! Moves in words.

use game_rules::{Move, Place};

/// The place of a word: its first letter and its number, `e` being an entry of the reserve.
fn place_of(word: &str) -> Place {
    match word.as_bytes() {
        [b't', i] => Place::Tableau(i.saturating_sub(b'0')),
        [b'c', i] => Place::Cell(i.saturating_sub(b'0')),
        [b'e', i] => Place::Reserve(i.saturating_sub(b'0')),
        [b'f', i] => Place::Foundation(i.saturating_sub(b'0')),
        [b's', i] => Place::Slot(i.saturating_sub(b'0')),
        [b'h'] => Place::Hole,
        _ => Place::Waste,
    }
}

/// The move of a text: `deal`, `redeal`, or two places and a count, which is 1 if it is left out,
/// as `t0 f1` or `t0 t2 3`. The places are `t0` a pile, `c0` a cell, `e0` an entry of the reserve,
/// `w` the waste, `f0` a foundation, `h` the hole and `s0` a slot, each with one digit.
pub fn move_of(text: &str) -> Move {
    let mut words = text.split_whitespace();
    let first = words.next().unwrap_or("w");
    if first == "deal" {
        return Move::Deal;
    }
    if first == "redeal" {
        return Move::Redeal;
    }
    let from = place_of(first);
    let to = place_of(words.next().unwrap_or("w"));
    let count = match words.next().unwrap_or("1").as_bytes() {
        [digit] => digit.saturating_sub(b'0'),
        _ => 0,
    };
    Move::Carry { from, to, count }
}
