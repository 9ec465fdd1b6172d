//! Which cards a place accepts: a set of cards, made once for the place.
ghost use Rattle.std.specs.Prelude.{◌≡◌, ℕ, ◌≤◌, ◌<◌, ◌+◌, ◌==◌, ◌||◌, ◌&&◌, true, IsTrue, length};
ghost use Rattle.card_piles.specs.declared.Card.{Card};
ghost use Rattle.card_piles.specs.Ranks.{IsRank};
ghost use Rattle.card_piles.specs.Builds.{same_suit, suits_fit, ranks_fit, builds_on};
ghost use Rattle.card_sets.specs.Sets.{has};
ghost use Rattle.game_rules.specs.Rules.{hole_wraps};
ghost use Rattle.game_rules.specs.Board.{has_place};
ghost use Rattle.game_rules.specs.Putting.{fills_space, goes_on_pile, is_next_on, are_neighbours, goes_in_hole};
ghost use Rattle.game_rules.specs.Putting.{follows, fits_slot};
ghost use Rattle.legal_moves.specs.Fits.{Fits, is_asked_card_by_card};

use card_piles::{Card, Suit, suits_fit};
use card_sets::CardSet;
use game_model::{Rules, Spaces, Table};
use game_rules::{Place, suit_at};

/// The set with the cards of a rank.
fn with_rank(set: CardSet, rank: u8) -> CardSet
    requires { rank < 16 }
    ensures { (c : Card) → IsRank c.rank → has result c ≡ ((rank == c.rank) || has set c) }
{
    set.with(Suit::Clubs, rank)
        .with(Suit::Diamonds, rank)
        .with(Suit::Hearts, rank)
        .with(Suit::Spades, rank)
}

/// The one rank that builds on a rank, or 0 if none does.
fn rank_on(rules: &Rules, lower: u8) -> u8
    requires { IsRank lower }
    ensures low { result < 16 }
    ensures fits { (rank : ℕ) → IsRank rank
        → ranks_fit rules.now.wrap rules.now.max_rank rank lower ≡ (result == rank) }
{
    if lower == 1 {
        if rules.wrap() { rules.max_rank() } else { 0 }
    } else {
        lower - 1
    }
}

/// The set with the card of this suit and rank, if the suit builds on the lower one.
fn with_suit(rules: &Rules, set: CardSet, suit: Suit, rank: u8, lower: Suit) -> CardSet
    requires { rank < 16 }
    ensures { (c : Card) → IsRank c.rank → has result c ≡ ((same_suit suit c.suit &&
        ((rank == c.rank) && suits_fit rules.now.build c.suit lower)) || has set c) }
{
    if suits_fit(rules.build(), suit, lower) {
        set.with(suit, rank)
    } else {
        set
    }
}

/// The cards that build on the card.
fn on_card(rules: &Rules, lower: Card) -> CardSet
    ensures { (c : Card) → IsRank c.rank
        → has result c ≡ builds_on rules.now.build rules.now.wrap rules.now.max_rank c lower }
{
    let suit = lower.suit();
    let rank = rank_on(rules, lower.rank());
    let clubs = with_suit(rules, CardSet::none(), Suit::Clubs, rank, suit);
    let diamonds = with_suit(rules, clubs, Suit::Diamonds, rank, suit);
    let hearts = with_suit(rules, diamonds, Suit::Hearts, rank, suit);
    with_suit(rules, hearts, Suit::Spades, rank, suit)
}

/// The cards that fill a space.
fn on_space(rules: &Rules) -> CardSet
    ensures { (c : Card) → IsRank c.rank
        → has result c ≡ fills_space rules.now.spaces rules.now.max_rank c.rank }
{
    let max_rank = rules.max_rank();
    match rules.spaces() {
        Spaces::Any => CardSet::all(),
        Spaces::King => with_rank(CardSet::none(), max_rank),
        Spaces::NoFill => CardSet::none(),
    }
}

/// The cards that go on a pile with this top.
fn on_pile(rules: &Rules, top: Option<Card>) -> CardSet
    ensures { (c : Card) → IsRank c.rank → has result c ≡ goes_on_pile rules.now top c }
{
    match top {
        None => on_space(rules),
        Some(top) => on_card(rules, top),
    }
}

/// The next card of a foundation.
fn on_foundation(rules: &Rules, f: u8, height: u8) -> CardSet
    ensures { (c : Card) → IsRank c.rank → has result c ≡ is_next_on rules.now f height c }
{
    if height < rules.max_rank() {
        CardSet::none().with(suit_at(f % 4), rules.foundation_rank(height))
    } else {
        CardSet::none()
    }
}

/// The cards that go in the hole on a card of this rank.
fn on_rank(rules: &Rules, rank: u8) -> CardSet
    requires { IsRank rank }
    ensures { (c : Card) → IsRank c.rank
        → has result c ≡ are_neighbours (hole_wraps rules.now.goal) rules.now.max_rank c.rank rank }
{
    let max_rank = rules.max_rank();
    let near = with_rank(with_rank(CardSet::none(), rank - 1), rank + 1);
    if !rules.hole_wraps() {
        return near;
    }
    let with_king = if rank == 1 {
        with_rank(near, max_rank)
    } else {
        near
    };
    if rank == max_rank {
        with_rank(with_king, 1)
    } else {
        with_king
    }
}

/// The cards that go in the hole.
fn in_hole(rules: &Rules, top: Option<Card>) -> CardSet
    ensures { (c : Card) → IsRank c.rank → has result c ≡ goes_in_hole rules.now top c }
{
    match top {
        None => CardSet::all(),
        Some(top) => on_rank(rules, top.rank()),
    }
}

/// The card that goes right of another in a row.
fn after(left: Option<Card>) -> CardSet
    ensures { (c : Card) → IsRank c.rank → has result c ≡ follows left c }
{
    match left {
        None => CardSet::none(),
        Some(left) => CardSet::none().with(left.suit(), left.rank() + 1),
    }
}

/// The cards that fit a gap.
fn in_gap<T: Table>(rules: &Rules, table: &T, i: u8) -> CardSet
    requires { i < length (T.board table.now).slots }
    ensures { (c : Card) → IsRank c.rank
        → has result c ≡ fits_slot rules.now (T.board table.now) i c }
{
    if i % rules.max_rank() == 0 {
        with_rank(CardSet::none(), 2)
    } else {
        after(table.slot(i - 1))
    }
}

/// The cards that a place accepts, each as the first of those that are put there. A foundation that
/// takes complete runs is asked another way.
pub(crate) fn fit_of<T: Table>(rules: &Rules, table: &T, to: Place) -> CardSet
    requires here { IsTrue (has_place rules.now (T.board table.now) to) }
    requires by_card { is_asked_card_by_card rules.now to ≡ true }
    ensures { Fits rules.now (T.board table.now) to result }
{
    match to {
        Place::Tableau(i) => on_pile(rules, table.top(table.pile(i))),
        Place::Cell(i) => {
            if table.cell(i).is_none() {
                CardSet::all()
            } else {
                CardSet::none()
            }
        }
        Place::Foundation(f) => on_foundation(rules, f, table.height(f)),
        Place::Hole => in_hole(rules, table.hole_top()),
        Place::Slot(i) => {
            if table.slot(i).is_none() {
                in_gap(rules, table, i)
            } else {
                CardSet::none()
            }
        }
        Place::Reserve(_) => CardSet::none(),
        Place::Waste => CardSet::none(),
    }
}
