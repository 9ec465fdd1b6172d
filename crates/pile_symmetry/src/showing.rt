//! What a key shows of cards.
ghost use Rattle.std.specs.Prelude.{◌≡◌, ◌+◌, ◌≤◌, ◌++◌, map, length, reverse};
ghost use Rattle.std.specs.Option.{option_map};
ghost use Rattle.card_piles.specs.declared.Card.{Card};
ghost use Rattle.same_boards.specs.Keys.{card_byte, card_bytes, entry_byte};
ghost use Rattle.same_boards.specs.Colours.{coloured};

use crate::backwards::Backwards;
use crate::reader::Colours;
use card_piles::Card;
use game_model::Board;
use packed_state::{Cards, Packed};

/// The card that a key shows in the place of each card.
pub(crate) trait Shows {
    /// The card that is shown.
    ghost shown: { Card → Card };

    /// The byte of the card that is shown.
    fn byte_of(card: Card) -> u8
        ensures { result ≡ card_byte (shown card) };
}

impl Shows for Board {
    ghost shown = { λ card. card };

    fn byte_of(card: Card) -> u8 {
        card.number() + 1
    }
}

impl Shows for Packed {
    ghost shown = { λ card. card };

    fn byte_of(card: Card) -> u8 {
        card.number() + 1
    }
}

impl<'a> Shows for Colours<'a> {
    ghost shown = { coloured };

    fn byte_of(card: Card) -> u8
        ensures { result ≡ card_byte (coloured card) }
    {
        if card.is_red() {
            card.rank() + 13
        } else {
            card.rank()
        }
    }
}

/// The byte of what is shown of an entry.
pub(crate) fn entry_byte<S: Shows>(entry: Option<Card>) -> u8
    ensures { result ≡ entry_byte (option_map S.shown entry) }
{
    match entry {
        Some(card) => S::byte_of(card),
        None => 0,
    }
}

/// Puts what is shown of cards before the bytes.
pub(crate) fn put_cards<S: Shows>(cards: &[Card], bytes: &mut Backwards)
    requires { length cards.now + length bytes.old ≤ 176 }
    ensures { bytes.new ≡ card_bytes (map S.shown cards.now) ++ bytes.old }
{
    for back in 0..cards.len() {
        bytes.put(S::byte_of(cards[cards.len() - 1 - back]));
    }
}

/// Puts what is shown of cards before the bytes, each card before the one that came ahead of it.
pub(crate) fn put_turned<S: Shows>(cards: Cards<'_>, bytes: &mut Backwards)
    requires { length cards + length bytes.old ≤ 176 }
    ensures { bytes.new ≡ reverse (card_bytes (map S.shown cards.entry)) ++ bytes.old }
{
    for card in cards {
        bytes.put(S::byte_of(card));
    }
}
