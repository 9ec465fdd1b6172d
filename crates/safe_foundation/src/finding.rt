//! The first place that gives a card.
ghost use Rattle.std.specs.Prelude.{◌≡◌, ◌<◌, ◌≤◌, length, IsTrue, if◌then◌else◌};
ghost use Rattle.game_rules.specs.declared.Place.TheVariants.{Tableau, Cell, Reserve};
ghost use Rattle.game_rules.specs.Belonging.{Belongs, holds};
ghost use Rattle.safe_foundation.specs.Giving.{gives, IsLeast, IsFirstGiving};

use card_piles::Card;
use game_model::{Rules, Table};
use game_rules::Place;
use legal_moves::single_at;

/// Whether an entry holds the card.
fn holds(card: Card, entry: Option<Card>) -> bool
    ensures { result ≡ holds card entry }
{
    match entry {
        None => false,
        Some(other) => card.suit().place() == other.suit().place() && card.rank() == other.rank(),
    }
}

/// The first pile that has the card on top.
fn first_pile<T: Table>(rules: &Rules, table: &T, card: Card) -> Option<u8>
    requires { Belongs rules.now (T.board table.now) }
    ensures { IsLeast (λ i. gives rules.now (T.board table.now) card (Tableau i)) result }
{
    for i in 0..rules.piles() {
        if holds(card, table.top(table.pile(i))) {
            return Some(i);
        }
    }
    None
}

/// The first cell that holds the card.
fn first_cell<T: Table>(rules: &Rules, table: &T, card: Card) -> Option<u8>
    requires { Belongs rules.now (T.board table.now) }
    ensures { IsLeast (λ i. gives rules.now (T.board table.now) card (Cell i)) result }
{
    for i in 0..rules.cells() {
        if holds(card, single_at(rules, table, Place::Cell(i))) {
            return Some(i);
        }
    }
    None
}

/// The number of places of the reserve.
fn entry_count(rules: &Rules) -> u8
    ensures { result ≡ (if rules.now.stacked then 1 else rules.now.reserve) }
{
    if rules.stacked() { 1 } else { rules.reserve() }
}

/// The first place of the reserve that gives the card.
fn first_entry<T: Table>(rules: &Rules, table: &T, card: Card) -> Option<u8>
    requires { Belongs rules.now (T.board table.now) }
    ensures { IsLeast (λ i. gives rules.now (T.board table.now) card (Reserve i)) result }
{
    for i in 0..entry_count(rules) {
        if holds(card, single_at(rules, table, Place::Reserve(i))) {
            return Some(i);
        }
    }
    None
}

/// The first place among tableau, cells and reserve that gives the card.
pub(crate) fn first_giving<T: Table>(rules: &Rules, table: &T, card: Card) -> Option<Place>
    requires { Belongs rules.now (T.board table.now) }
    ensures { IsFirstGiving rules.now (T.board table.now) card result }
{
    if let Some(i) = first_pile(rules, table, card) {
        return Some(Place::Tableau(i));
    }
    if let Some(i) = first_cell(rules, table, card) {
        return Some(Place::Cell(i));
    }
    if let Some(i) = first_entry(rules, table, card) {
        return Some(Place::Reserve(i));
    }
    None
}
