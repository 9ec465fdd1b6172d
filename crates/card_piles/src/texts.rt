//! The texts of cards: the letter of a rank, and then the letter of a suit.

ghost use Rattle.std.specs.Prelude.{[], ◌∷◌, ◌≡◌, ◌⊎◌, ℕ, IfSome, List};
ghost use Rattle.card_piles.specs.Cards.{CardValue};
ghost use Rattle.card_piles.specs.Ranks.{IsRank};
ghost use Rattle.card_piles.specs.CardText.{card_of_text, rank_letter, rank_of_letter, suit_letter};
ghost use Rattle.card_piles.specs.CardText.{suit_of_letter, text_of_card};

use crate::{Card, Suit};

fn letter_of_suit(suit: Suit) -> u8
    ensures { result ≡ suit_letter suit }
{
    match suit {
        Suit::Clubs => b'C',
        Suit::Diamonds => b'D',
        Suit::Hearts => b'H',
        Suit::Spades => b'S',
    }
}

fn suit_of_letter(letter: u8) -> Option<Suit>
    ensures { result ≡ suit_of_letter letter }
{
    match letter {
        b'C' => Some(Suit::Clubs),
        b'D' => Some(Suit::Diamonds),
        b'H' => Some(Suit::Hearts),
        b'S' => Some(Suit::Spades),
        _ => None,
    }
}

fn letter_of_rank(rank: u8) -> u8
    requires { IsRank rank }
    ensures { result ≡ rank_letter rank }
{
    match rank {
        1 => b'A',
        10 => b'T',
        11 => b'J',
        12 => b'Q',
        13 => b'K',
        _ => b'0' + rank,
    }
}

fn rank_of_letter(letter: u8) -> Option<u8>
    ensures value { result ≡ rank_of_letter letter }
    ensures in_range { IfSome result IsRank }
{
    match letter {
        b'A' => Some(1),
        b'T' => Some(10),
        b'J' => Some(11),
        b'Q' => Some(12),
        b'K' => Some(13),
        b'2'..=b'9' => Some(letter - b'0'),
        _ => None,
    }
}

/// The card that a text names, as `AS`, `TH` or `10H`. `None` exactly for any other bytes.
pub fn card_of(text: &[u8]) -> Option<Card>
    ensures { result ≡ card_of_text text.now }
{
    match text {
        [rank, suit] => Card::new(suit_of_letter(*suit)?, rank_of_letter(*rank)?),
        [b'1', b'0', suit] => Card::new(suit_of_letter(*suit)?, 10),
        _ => None,
    }
}

/// The text of a card in two bytes, with rank ten as `T`.
pub fn text_of(card: Card) -> [u8; 2]
    ensures { result ≡ text_of_card card }
{
    [letter_of_rank(card.rank()), letter_of_suit(card.suit())]
}

/// A law of the texts: a card's text names that card, and beside it only `10` in place of `T` does.
pub fn texts_name_cards()
    ensures names_its_card { (card : CardValue) → IsRank card.rank
        → card_of_text (text_of_card card) ≡ Some card }
    ensures names_real_cards { (text : List ℕ) (card : CardValue) → card_of_text text ≡ Some card
        → IsRank card.rank }
    ensures no_other_two_bytes { (a b : ℕ) (card : CardValue)
        → card_of_text (a ∷ b ∷ []) ≡ Some card → a ∷ b ∷ [] ≡ text_of_card card }
    ensures no_other_text { (text : List ℕ) (card : CardValue)
        → card_of_text text ≡ Some card → (text ≡ text_of_card card)
        ⊎ ((card.rank ≡ 10) × (text ≡ 49 ∷ 48 ∷ suit_letter card.suit ∷ [])) }
{}
