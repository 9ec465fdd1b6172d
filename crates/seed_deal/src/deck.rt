//! The deck in order.
ghost use Rattle.std.specs.Prelude.{◌≡◌, ◌+◌, ◌≤◌, ◌++◌, IfOk, OnOk};
ghost use Rattle.seed_deal.specs.Shuffle.{suit_in_order, one_deck, deck_in_order};

use card_piles::{Card, Suit};
use game_model::Rules;
use game_rules::suit_at;
use std::alloc::{AllocError, Global};

/// The card of a suit at a place of its order, from the ace on.
fn card_at(suit: Suit, place: u8) -> Card
    requires { place + 1 ≤ 13 }
    ensures { result ≡ record { suit = suit; rank = place + 1 } }
{
    match Card::new(suit, place + 1) {
        Some(card) => card,
        None => unreachable!(),
    }
}

fn push_suit(deck: &mut Vec<Card>, max_rank: u8, suit: Suit) -> Result<(), AllocError>
    requires { max_rank ≤ 13 }
    ensures { OnOk result (deck.new.items ≡ deck.old.items ++ suit_in_order max_rank suit) }
{
    for place in 0..max_rank {
        deck.push(card_at(suit, place))?;
    }
    Ok(())
}

fn push_deck(deck: &mut Vec<Card>, max_rank: u8) -> Result<(), AllocError>
    requires { max_rank ≤ 13 }
    ensures { OnOk result (deck.new.items ≡ deck.old.items ++ one_deck max_rank) }
{
    for suit in 0..4 {
        push_suit(deck, max_rank, suit_at(suit))?;
    }
    Ok(())
}

/// The decks of the game in order, one after the other.
pub fn deck_in_order(alloc: Global, rules: &Rules) -> Result<Vec<Card>, AllocError>
    ensures { IfOk result (λ deck. deck.items ≡ deck_in_order rules.now) }
{
    let mut deck = Vec::new(alloc);
    for _ in 0..rules.decks() {
        push_deck(&mut deck, rules.max_rank())?;
    }
    Ok(deck)
}
