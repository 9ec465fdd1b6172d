//! The cards of the hole below its top: no key tells them, but they stand nowhere else.
ghost use Rattle.std.specs.Prelude.{◌≡◌, ℕ, ◌-◌, ◌<◌, ◌++◌, replicate, IfOk, OnOk};
ghost use Rattle.card_piles.specs.Cards.{place_of};
ghost use Rattle.card_piles.specs.Builds.{same_suit};
ghost use Rattle.game_rules.specs.Rules.{is_hole_goal};
ghost use Rattle.game_rules.specs.Belonging.{same_card, copies_of, copies_in, copies_due};
ghost use Rattle.game_rules.specs.Position.{deck_size};
ghost use Rattle.pile_symmetry.specs.Reading.{copies_in_lists, lacking, lacking_cards, hole_in};

use crate::reading::card_numbered;
use card_piles::Card;
use game_model::{BoardParts, Goal, Items, Rules};
use std::alloc::{AllocError, Global};

fn same_card(a: Card, b: Card) -> bool
    ensures { result ≡ same_card a b }
{
    a.suit().place() == b.suit().place() && a.rank() == b.rank()
}

/// What is left of a number when each copy of the card in the list is taken off.
fn less(due: u8, card: Card, cards: &[Card]) -> u8
    ensures { result ≡ due - copies_of card cards.now }
{
    let mut left = due;
    for other in cards {
        if same_card(card, *other) {
            left = left.saturating_sub(1);
        }
    }
    left
}

fn less_entries(due: u8, card: Card, entries: &[Option<Card>]) -> u8
    ensures { result ≡ due - copies_in card entries.now }
{
    let mut left = due;
    for entry in entries {
        if let Some(other) = entry {
            if same_card(card, *other) {
                left = left.saturating_sub(1);
            }
        }
    }
    left
}

fn less_lists(due: u8, card: Card, lists: &[Items<Card>]) -> u8
    ensures { result ≡ due - copies_in_lists card lists.now }
{
    let mut left = due;
    for cards in lists {
        left = less(left, card, cards.items());
    }
    left
}

/// How often the card should stand.
fn due(rules: &Rules, card: Card) -> u8
    ensures { result ≡ copies_due rules.now card }
{
    let ace_of_sequences = matches!(rules.goal(), Goal::Sequences) && card.rank() == 1;
    if card.rank() <= rules.max_rank() && !ace_of_sequences {
        rules.decks()
    } else {
        0
    }
}

/// How many copies of the card are due that stand nowhere, in a game with a hole.
fn lacking(rules: &Rules, parts: &BoardParts, card: Card) -> u8
    ensures { result ≡ lacking rules.now parts.now card }
{
    let left = due(rules, card);
    let left = less_lists(left, card, parts.tableau.items());
    let left = less_entries(left, card, parts.cells.items());
    let left = less_entries(left, card, parts.reserve.items());
    let left = less(left, card, parts.stock.items());
    let left = less(left, card, parts.waste.items());
    less(left, card, parts.hole.items())
}

/// How many cards a deck of all ranks has.
fn deck_size() -> u8
    ensures { result ≡ deck_size }
{
    52
}

/// Puts n copies of the card at the end. For want of memory some of them may stand there.
fn push_copies(cards: &mut Items<Card>, card: Card, n: u8) -> Result<(), AllocError>
    ensures { OnOk result (cards.new ≡ cards.old ++ replicate n card) }
{
    for i in 0..n {
        let _ = i;
        cards.push(card)?;
    }
    Ok(())
}

/// The cards that stand nowhere, in ascending order.
fn lacking_cards(
    alloc: Global,
    rules: &Rules,
    parts: &BoardParts,
) -> Result<Items<Card>, AllocError>
    ensures { IfOk result (λ cards. cards ≡ lacking_cards rules.now parts.now) }
{
    let mut cards = Items::new(alloc);
    for number in 0..deck_size() {
        let card = card_numbered(number);
        push_copies(&mut cards, card, lacking(rules, parts, card))?;
    }
    Ok(cards)
}

/// The cards that stand nowhere, and the top of the hole on them.
fn filled(alloc: Global, rules: &Rules, parts: &BoardParts) -> Result<Items<Card>, AllocError>
    ensures { IfOk result (λ hole. hole ≡ lacking_cards rules.now parts.now ++ parts.now.hole) }
{
    let mut hole = lacking_cards(alloc, rules, parts)?;
    for card in parts.hole.items() {
        hole.push(*card)?;
    }
    Ok(hole)
}

/// The hole of parts that have its top alone.
pub(crate) fn hole_in(
    alloc: Global,
    rules: &Rules,
    parts: &BoardParts,
) -> Result<Items<Card>, AllocError>
    ensures { IfOk result (λ hole. hole ≡ hole_in rules.now parts.now) }
{
    if rules.has_hole() {
        filled(alloc, rules, parts)
    } else {
        Items::from_slice(alloc, parts.hole.items())
    }
}
