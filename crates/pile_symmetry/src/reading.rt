//! The parts that bytes say as a key, and the bytes of each.
ghost use Rattle.std.specs.Prelude.{◌≡◌, take, drop, slice_index_or, map};
ghost use Rattle.game_rules.specs.Belonging.{foundation_count};
ghost use Rattle.game_rules.specs.Position.{card_numbered};
ghost use Rattle.same_boards.specs.Bytes.{card_of_byte, entry_of_byte};
ghost use Rattle.pile_symmetry.specs.Reading.{counted_part, after_counted, pile_in, after_pile, hole_size, said};

use crate::Said;
use card_piles::Card;
use game_model::Rules;
use game_rules::suit_at;

/// The first bytes, as far as there are so many, and what follows them.
pub(crate) fn cut(bytes: &[u8], n: usize) -> (&[u8], &[u8])
    ensures part { result.0.now ≡ take n bytes.now }
    ensures after { result.1.now ≡ drop n bytes.now }
{
    if n < bytes.len() {
        bytes.split_at(n)
    } else {
        (bytes, &[])
    }
}

/// A part that begins with its number of bytes, and what follows it.
fn counted(bytes: &[u8]) -> (&[u8], &[u8])
    ensures part { result.0.now ≡ counted_part bytes.now }
    ensures after { result.1.now ≡ after_counted bytes.now }
{
    match bytes {
        [] => (bytes, bytes),
        [n, after @ ..] => cut(after, usize::from(*n)),
    }
}

/// The byte of a place, and 0 past the end.
pub(crate) fn byte_at(bytes: &[u8], at: usize) -> u8
    ensures { result ≡ slice_index_or bytes.now at 0 }
{
    if at < bytes.len() { bytes[at] } else { 0 }
}

/// How many bytes tell of the hole.
fn hole_size(rules: &Rules) -> usize
    ensures { result ≡ hole_size rules.now }
{
    if rules.has_hole() { 2 } else { 0 }
}

/// What bytes say as a key.
pub(crate) fn said<'a>(rules: &Rules, bytes: &'a [u8]) -> Said<'a>
    ensures { result ≡ said rules.now bytes.now }
{
    let (_, from_stock) = cut(bytes, 1);
    let (stock, from_waste) = counted(from_stock);
    let (waste, from_heights) = counted(from_waste);
    let (heights, from_hole) = cut(from_heights, usize::from(rules.foundation_count()));
    let (hole, from_cells) = cut(from_hole, hole_size(rules));
    let (cells, from_reserve) = counted(from_cells);
    let (reserve, rest) = counted(from_reserve);
    Said {
        redeals_left: byte_at(bytes, 0),
        stock,
        waste,
        heights,
        hole,
        cells,
        reserve,
        rest,
    }
}

/// The number of face-down cards of the pile at the front, the bytes of its cards, and what follows it.
pub(crate) fn first_pile(bytes: &[u8]) -> (u8, &[u8], &[u8])
    ensures face_down { result.0 ≡ (pile_in bytes.now).face_down }
    ensures cards { map card_of_byte result.1.now ≡ (pile_in bytes.now).cards }
    ensures after { result.2.now ≡ after_pile bytes.now }
{
    match bytes {
        [n, face_down, after @ ..] => {
            let (cards, next) = cut(after, usize::from(*n));
            (*face_down, cards, next)
        }
        _ => (0, &[], &[]),
    }
}

/// The card of a number.
pub(crate) fn card_numbered(number: u8) -> Card
    ensures { result ≡ card_numbered number }
{
    match Card::new(suit_at(number / 13), number % 13 + 1) {
        Some(card) => card,
        None => Card::default(),
    }
}

/// The card of a byte.
pub(crate) fn card_of_byte(byte: u8) -> Card
    ensures { result ≡ card_of_byte byte }
{
    card_numbered(byte.saturating_sub(1))
}

/// The entry of a byte.
pub(crate) fn entry_of_byte(byte: u8) -> Option<Card>
    ensures { result ≡ entry_of_byte byte }
{
    if byte == 0 {
        None
    } else {
        Some(card_of_byte(byte))
    }
}
