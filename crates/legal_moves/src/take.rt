//! Which cards can be taken from a place.
ghost use Rattle.std.specs.Prelude.{◌≡◌, ◌≤◌, ◌<◌, length, IsTrue};
ghost use Rattle.card_piles.specs.declared.Card.{Card};
ghost use Rattle.game_rules.specs.Board.{pile_at, foundation_top, has_place};
ghost use Rattle.game_rules.specs.Taking.{single_at};
ghost use Rattle.game_rules.specs.Belonging.{Belongs};
ghost use Rattle.legal_moves.specs.Runs.{next_down, most_given};

use card_piles::{Card, builds};
use game_model::{Groups, Rules, Table};
use game_rules::{Place, suit_at};

/// Whether the board has this place.
pub(crate) fn has_place<T: Table>(rules: &Rules, table: &T, place: Place) -> bool
    requires { Belongs rules.now (T.board table.now) }
    ensures { result ≡ has_place rules.now (T.board table.now) place }
{
    match place {
        Place::Tableau(i) => i < rules.piles(),
        Place::Cell(i) => i < rules.cells(),
        Place::Reserve(i) => {
            if rules.stacked() {
                i == 0
            } else {
                usize::from(i) < table.entry_count()
            }
        }
        Place::Waste => true,
        Place::Foundation(f) => f < rules.foundation_count(),
        Place::Hole => rules.has_hole(),
        Place::Slot(i) => i < rules.slot_count(),
    }
}

/// How many cards a pile gives at most, if they are a run: those that lie face up, and one if groups
/// do not move.
pub(crate) fn most_given<T: Table>(rules: &Rules, table: &T, i: u8) -> usize
    requires { i < length (T.board table.now).piles }
    ensures { result ≡ most_given rules.now (pile_at (T.board table.now) i) }
{
    let up = table
        .size(i)
        .saturating_sub(usize::from(table.face_down(i)));
    match rules.groups() {
        Groups::Run => up,
        Groups::One => up.min(1),
    }
}

/// The next card of a run that is followed from its top: the upmost card that is left, if the card
/// before it builds on it.
pub(crate) fn next_down<T: Table>(
    rules: &Rules,
    table: &T,
    left: T::Stack,
    upper: Card,
) -> Option<Card>
    requires { T.stands table.now left }
    ensures { result ≡ next_down rules.now (T.cards table.now left) upper }
{
    match table.top(left) {
        None => None,
        Some(lower) => {
            if builds(
                rules.group_build(),
                rules.wrap(),
                rules.max_rank(),
                upper,
                lower,
            ) {
                Some(lower)
            } else {
                None
            }
        }
    }
}

/// The top card of a foundation.
fn foundation_top(rules: &Rules, f: u8, height: u8) -> Option<Card>
    ensures { result ≡ foundation_top rules.now f height }
{
    if height == 0 {
        None
    } else {
        Card::new(suit_at(f % 4), rules.foundation_rank(height - 1))
    }
}

/// The one card that a place other than a pile gives. None for a pile, and where the place gives
/// no card.
pub fn single_at<T: Table>(rules: &Rules, table: &T, place: Place) -> Option<Card>
    requires { IsTrue (has_place rules.now (T.board table.now) place) }
    ensures { result ≡ single_at rules.now (T.board table.now) place }
{
    match place {
        Place::Tableau(_) => None,
        Place::Cell(i) => table.cell(i),
        Place::Reserve(i) => {
            if rules.stacked() {
                table.last_entry()
            } else {
                table.entry(i)
            }
        }
        Place::Waste => table.waste_top(),
        Place::Foundation(f) => {
            if rules.takes_back() {
                foundation_top(rules, f, table.height(f))
            } else {
                None
            }
        }
        Place::Hole => None,
        Place::Slot(i) => table.slot(i),
    }
}
