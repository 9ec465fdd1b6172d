//! Moves, read from their texts.
ghost use Rattle.std.specs.Prelude.{◌≡◌, ◌<◌, ◌==◌, length, IfSome, MatchOption, [], ◌∷◌};
ghost use Rattle.std.specs.List.{slice_split, before_first, after_first, position};
ghost use Rattle.line_printer.specs.MoveText.{number_of, place_of_text, short_carry as short_carry_of};
ghost use Rattle.line_printer.specs.MoveText.{long_carry as long_carry_of, move_of_words, move_of_text};

use crate::write::shows_count;
use game_rules::{Move, Place};
use itoa::Buffer;

fn position_of(text: &[u8], byte: u8) -> Option<usize>
    ensures value { result ≡ position (λ b. b == byte) text.now }
    ensures within { IfSome result (λ at. at < length text.now) }
{
    text.iter().position(|b| *b == byte)
}

/// The text before the first such byte, and the text after it.
pub fn split_once(text: &[u8], byte: u8) -> Option<(&[u8], &[u8])>
    ensures parts { MatchOption result
        (slice_split (λ b. b == byte) text.now ≡ text.now ∷ [])
        (λ cut. slice_split (λ b. b == byte) text.now
        ≡ cut.0.now ∷ slice_split (λ b. b == byte) cut.1.now) }
    ensures before { MatchOption result
        (before_first (λ b. b == byte) text.now ≡ text.now)
        (λ cut. before_first (λ b. b == byte) text.now ≡ cut.0.now) }
    ensures after { IfSome result (λ cut. cut.1.now ≡ after_first (λ b. b == byte) text.now) }
    ensures shorter { IfSome result (λ cut. length cut.1.now < length text.now) }
{
    let at = position_of(text, byte)?;
    Some((&text[..at], &text[at + 1..]))
}

fn number(text: &[u8]) -> Option<u8>
    ensures { result ≡ number_of text.now }
{
    let Ok(text) = str::from_utf8(text) else {
        return None;
    };
    let Ok(number) = text.parse::<u8>() else {
        return None;
    };
    let mut buffer = Buffer::new();
    if buffer.format(number) == text {
        Some(number)
    } else {
        None
    }
}

fn place(text: &[u8]) -> Option<Place>
    ensures { result ≡ place_of_text text.now }
{
    let (letter, digits) = text.split_first()?;
    match letter {
        b't' => Some(Place::Tableau(number(digits)?)),
        b'c' => Some(Place::Cell(number(digits)?)),
        b'r' => Some(Place::Reserve(number(digits)?)),
        b'f' => Some(Place::Foundation(number(digits)?)),
        b's' => Some(Place::Slot(number(digits)?)),
        b'w' if digits.is_empty() => Some(Place::Waste),
        b'h' if digits.is_empty() => Some(Place::Hole),
        _ => None,
    }
}

fn stock_move(word: &[u8]) -> Option<Move>
    ensures { result ≡ move_of_words (word.now ∷ []) }
{
    if word == b"deal".as_slice() {
        Some(Move::Deal)
    } else if word == b"redeal".as_slice() {
        Some(Move::Redeal)
    } else {
        None
    }
}

fn short_carry(from: &[u8], to: &[u8]) -> Option<Move>
    ensures { result ≡ short_carry_of (place_of_text from.now) (place_of_text to.now) }
{
    let from = place(from)?;
    let to = place(to)?;
    if shows_count(from, to, 1) {
        None
    } else {
        Some(Move::Carry { from, to, count: 1 })
    }
}

fn long_carry(from: &[u8], to: &[u8], count: &[u8]) -> Option<Move>
    ensures { result ≡ long_carry_of (place_of_text from.now) (place_of_text to.now)
        (number_of count.now) }
{
    let from = place(from)?;
    let to = place(to)?;
    let count = number(count)?;
    if shows_count(from, to, count) {
        Some(Move::Carry { from, to, count })
    } else {
        None
    }
}

/// The move whose text this is.
pub fn move_of(text: &[u8]) -> Option<Move>
    ensures { result ≡ move_of_text text.now }
{
    let Some((from, rest)) = split_once(text, b' ') else {
        return stock_move(text);
    };
    let Some((to, count)) = split_once(rest, b' ') else {
        return short_carry(from, rest);
    };
    match split_once(count, b' ') {
        None => long_carry(from, to, count),
        Some(_) => None,
    }
}
