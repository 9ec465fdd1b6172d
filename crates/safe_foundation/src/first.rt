//! The first safe move.
ghost use Rattle.std.specs.Prelude.{◌≡◌, ◌<◌, length, IsTrue};
ghost use Rattle.game_rules.specs.Belonging.{Belongs};
ghost use Rattle.packed_state.specs.Packed.{board_of};
ghost use Rattle.safe_moves.specs.Safe.{first_safe, rules_allow};
ghost use Rattle.safe_foundation.specs.Giving.{IsFirstOnto};

use crate::finding::first_giving;
use crate::need::{free_card, rules_allow};
use game_model::{Rules, Table};
use game_rules::{Move, Place};
use packed_state::Packed;

/// The first place that gives the card which a foundation takes next, if no card can still need it.
fn first_onto<T: Table>(rules: &Rules, table: &T, f: u8) -> Option<Place>
    requires allows { IsTrue (rules_allow rules.now) }
    requires belongs { Belongs rules.now (T.board table.now) }
    requires here { f < length (T.board table.now).heights }
    ensures { IsFirstOnto rules.now (T.board table.now) f result }
{
    match free_card(rules, table, f) {
        None => None,
        Some(card) => first_giving(rules, table, card),
    }
}

/// The first safe move of a table of cards in the order of moves. None exactly where there is none.
pub fn first_safe_of<T: Table>(rules: &Rules, table: &T) -> Option<Move>
    requires { Belongs rules.now (T.board table.now) }
    ensures { result ≡ first_safe rules.now (T.board table.now) }
{
    let _ = rules.max_rank();
    if !rules_allow(rules) {
        return None;
    }
    for f in 0..rules.foundation_count() {
        if let Some(from) = first_onto(rules, table, f) {
            return Some(Move::Carry {
                from,
                to: Place::Foundation(f),
                count: 1,
            });
        }
    }
    None
}

/// The first safe move of a packed board in the order of moves. None exactly where there is none.
pub fn first_safe(rules: &Rules, packed: &Packed) -> Option<Move>
    requires { Belongs rules.now (board_of packed.now) }
    ensures { result ≡ first_safe rules.now (board_of packed.now) }
{
    first_safe_of(rules, packed)
}
