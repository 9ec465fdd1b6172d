//! Where cards can be put.
ghost use Rattle.std.specs.Prelude.{◌≡◌, ◌≤◌, ◌<◌, ◌==◌, ◌&&◌, true, length, IsTrue};
ghost use Rattle.card_piles.specs.Cards.{place_of};
ghost use Rattle.game_rules.specs.Rules.{takes_complete_runs, foundation_suit};
ghost use Rattle.game_rules.specs.Board.{pile_at, top_part, height_at, has_place};
ghost use Rattle.game_rules.specs.Taking.{taken};
ghost use Rattle.game_rules.specs.Putting.{falls_in_suit, is_complete_run, can_put};
ghost use Rattle.legal_moves.specs.Fits.{takes_groups, is_asked_card_by_card};
ghost use Rattle.game_rules.specs.Play.{is_legal_move};
ghost use Rattle.legal_moves.specs.Offers.{IsGiven, carry_of};

use crate::fit::fit_of;
use crate::offers::Offer;
use crate::places::are_apart;
use card_piles::Card;
use card_sets::CardSet;
use game_model::{Rules, Table};
use game_rules::{Place, suit_at};

/// Whether several cards may be put on the place at once.
pub(crate) fn takes_groups(to: Place) -> bool
    ensures { result ≡ takes_groups to }
{
    matches!(to, Place::Tableau(_))
}

/// Whether the first card alone says what may be put on the place.
pub(crate) fn is_asked_card_by_card(rules: &Rules, to: Place) -> bool
    ensures { result ≡ is_asked_card_by_card rules.now to }
{
    match to {
        Place::Foundation(_) => !rules.takes_complete_runs(),
        _ => true,
    }
}

/// Whether the card has the suit of a foundation, and the rank.
fn is_of(f: u8, rank: u8, card: Card) -> bool
    ensures { result ≡ ((place_of card.suit == foundation_suit f) && (card.rank == rank)) }
{
    card.suit().place() == f % 4 && card.rank() == rank
}

/// Whether the last cards of a pile fall to the ace in the suit of a foundation.
fn falls_in_suit<T: Table>(table: &T, i: u8, f: u8, count: u8) -> bool
    requires here { i < length (T.board table.now).piles }
    requires enough { count ≤ length (pile_at (T.board table.now) i).cards }
    ensures { result ≡ falls_in_suit f count
        (top_part count (pile_at (T.board table.now) i).cards) }
{
    let mut left = table.pile(i);
    for depth in 0..count {
        match table.top(left) {
            None => return false,
            Some(card) => {
                if !is_of(f, depth + 1, card) {
                    return false;
                }
            }
        }
        left = table.under(left);
    }
    true
}

/// Whether the cards are a whole run for an empty foundation.
fn is_complete_run<T: Table>(rules: &Rules, table: &T, given: Offer, f: u8, height: u8) -> bool
    requires { IsGiven rules.now (T.board table.now) given }
    ensures { result ≡ is_complete_run rules.now f height
        (taken rules.now (T.board table.now) given.from given.count) }
{
    height == 0
        && given.count == rules.max_rank()
        && match given.from {
            Place::Tableau(i) => falls_in_suit(table, i, f, given.count),
            _ => CardSet::none().with(suit_at(f % 4), 1).has_bit(given.bit),
        }
}

/// Whether what the table gives can be put on the place.
pub(crate) fn can_put<T: Table>(rules: &Rules, table: &T, given: Offer, to: Place) -> bool
    requires given { IsGiven rules.now (T.board table.now) given }
    requires here { IsTrue (has_place rules.now (T.board table.now) to) }
    ensures { result ≡ can_put rules.now (T.board table.now) to
        (taken rules.now (T.board table.now) given.from given.count) }
{
    if !is_asked_card_by_card(rules, to) {
        return match to {
            Place::Foundation(f) => is_complete_run(rules, table, given, f, table.height(f)),
            _ => false,
        };
    }
    (takes_groups(to) || given.count == 1) && fit_of(rules, table, to).has_bit(given.bit)
}

/// Whether what the table gives may go to the place.
pub(crate) fn can_go<T: Table>(rules: &Rules, table: &T, given: Offer, to: Place) -> bool
    requires given { IsGiven rules.now (T.board table.now) given }
    requires here { IsTrue (has_place rules.now (T.board table.now) to) }
    ensures { result ≡ is_legal_move rules.now (T.board table.now) (carry_of to given) }
{
    let Offer { from, .. } = given;
    are_apart(from, to) && can_put(rules, table, given, to)
}
