//! Whether two boards show the same.
ghost use Rattle.game_rules.specs.Belonging.{Belongs};

use game_model::{Board, Rules};

fn same_piles(rules: &Rules, a: &Board, b: &Board) -> bool
    requires a { Belongs rules.now a.now }
    requires b { Belongs rules.now b.now }
{
    for i in 0..rules.piles() {
        if a.pile(i) != b.pile(i) || a.face_down(i) != b.face_down(i) {
            return false;
        }
    }
    for i in 0..rules.cells() {
        if a.cell(i) != b.cell(i) {
            return false;
        }
    }
    true
}

fn same_goals(rules: &Rules, a: &Board, b: &Board) -> bool
    requires a { Belongs rules.now a.now }
    requires b { Belongs rules.now b.now }
{
    for f in 0..rules.foundation_count() {
        if a.height(f) != b.height(f) {
            return false;
        }
    }
    for i in 0..rules.slot_count() {
        if a.slot(i) != b.slot(i) {
            return false;
        }
    }
    a.hole() == b.hole()
}

/// Whether two boards of a game have the same cards in each place, the same cards face down and
/// the same redeals left.
pub fn same_boards(rules: &Rules, a: &Board, b: &Board) -> bool
    requires a { Belongs rules.now a.now }
    requires b { Belongs rules.now b.now }
{
    same_piles(rules, a, b)
        && same_goals(rules, a, b)
        && a.reserve() == b.reserve()
        && a.stock() == b.stock()
        && a.waste() == b.waste()
        && a.redeals_left() == b.redeals_left()
}
