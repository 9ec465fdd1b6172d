//! Which card a foundation takes next, and whether another card can still need it.
ghost use Rattle.std.specs.Prelude.{◌≡◌, ◌≤◌, ◌<◌, length, IsTrue, IfSome};
ghost use Rattle.game_rules.specs.Board.{height_at};
ghost use Rattle.game_rules.specs.Belonging.{Belongs};
ghost use Rattle.safe_moves.specs.Safe.{rules_allow, is_not_needed};
ghost use Rattle.safe_moves.specs.Need.{home_place, is_no_bar, upper_rank};
ghost use Rattle.safe_foundation.specs.Giving.{next_card, unneeded, free_card};

use card_piles::{Card, suits_fit};
use game_model::{Goal, Rules, Table, Target};
use game_rules::suit_at;

/// Whether the rules allow forced moves to foundations: the goal is foundations, there is one deck,
/// no card may be taken back, foundations take single cards, and the stock does not deal to the
/// tableau.
pub fn rules_allow(rules: &Rules) -> bool
    ensures { result ≡ rules_allow rules.now }
{
    matches!(rules.goal(), Goal::Foundations { .. })
        && rules.decks() == 1
        && !rules.takes_back()
        && !rules.takes_complete_runs()
        && !matches!(rules.target(), Target::ToTableau)
}

/// The place of a rank on a foundation, counted from 0 at the bottom.
fn home_place(rules: &Rules, rank: u8) -> u8
    requires { rank ≤ 13 }
    ensures { result ≡ home_place rules.now rank }
{
    let max_rank = rules.max_rank();
    (rank + max_rank).saturating_sub(rules.goal().base()) % max_rank
}

/// The rank of the cards that build on a card of this rank.
fn upper_rank(rules: &Rules, rank: u8) -> Option<u8>
    ensures { result ≡ upper_rank rules.now rank }
{
    if 1 < rank {
        Some(rank - 1)
    } else if rules.wrap() {
        Some(rules.max_rank())
    } else {
        None
    }
}

/// Whether the foundation of a suit is higher than the place, or the suit does not build on the card.
fn is_no_bar<T: Table>(rules: &Rules, table: &T, card: Card, place: u8, suit: u8) -> bool
    requires { suit < length (T.board table.now).heights }
    ensures { result ≡ is_no_bar rules.now (T.board table.now) card place suit }
{
    !suits_fit(rules.build(), suit_at(suit), card.suit()) || place < table.height(suit)
}

/// Whether each card that builds on the card lies on a foundation. Those cards have one rank, so
/// that each foundation of a suit that fits must be higher than the one place of that rank.
fn is_not_needed<T: Table>(rules: &Rules, table: &T, card: Card) -> bool
    requires allows { IsTrue (rules_allow rules.now) }
    requires belongs { Belongs rules.now (T.board table.now) }
    requires low { 1 ≤ card.rank }
    requires high { card.rank ≤ rules.now.max_rank }
    ensures { result ≡ is_not_needed rules.now (T.board table.now) card }
{
    let _ = rules.parts();
    let place = match upper_rank(rules, card.rank()) {
        None => return true,
        Some(rank) => home_place(rules, rank),
    };
    for suit in 0..4 {
        if !is_no_bar(rules, table, card, place, suit) {
            return false;
        }
    }
    true
}

/// The card that a foundation of this height takes next.
fn next_card(rules: &Rules, f: u8, height: u8) -> Option<Card>
    ensures card { result ≡ next_card rules.now f height }
    ensures low { IfSome result (λ card. 1 ≤ card.rank) }
    ensures high { IfSome result (λ card. card.rank ≤ rules.now.max_rank) }
{
    if height < rules.max_rank() {
        Card::new(suit_at(f % 4), rules.foundation_rank(height))
    } else {
        None
    }
}

/// The card that a foundation takes next, if no other card can still need it.
pub(crate) fn free_card<T: Table>(rules: &Rules, table: &T, f: u8) -> Option<Card>
    requires allows { IsTrue (rules_allow rules.now) }
    requires belongs { Belongs rules.now (T.board table.now) }
    requires here { f < length (T.board table.now).heights }
    ensures { result ≡ free_card rules.now (T.board table.now) f }
{
    let _ = rules.max_rank();
    let card = match next_card(rules, f, table.height(f)) {
        None => return None,
        Some(card) => card,
    };
    if is_not_needed(rules, table, card) {
        Some(card)
    } else {
        None
    }
}
