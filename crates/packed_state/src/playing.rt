//! Which moves are legal, and whether a board is won.
ghost use Rattle.std.specs.Prelude.{◌≡◌, OnOk, OnErr, ◌++◌};
ghost use Rattle.game_rules.specs.Belonging.{Belongs};
ghost use Rattle.game_rules.specs.Order.{legal_moves};
ghost use Rattle.game_rules.specs.Play.{is_legal_move};
ghost use Rattle.game_rules.specs.Winning.{is_won};
ghost use Rattle.packed_state.specs.Packed.{board_of};

use crate::Packed;
use card_piles::NoMemory;
use game_model::{Goal, Rules, is_won};
use game_rules::Move;
use legal_moves::{is_legal, list_moves_of};
use std::alloc::Global;

impl Packed {
    /// Appends each legal move once, in the order of moves, and nothing else. After a refusal `out`
    /// is as before.
    pub fn list_moves(
        &self,
        _alloc: Global,
        rules: &Rules,
        out: &mut Vec<Move>,
    ) -> Result<(), NoMemory>
        requires { Belongs rules.now (board_of self.now) }
        ensures ok { OnOk result
            (out.new.items ≡ out.old.items ++ legal_moves rules.now (board_of self.now)) }
        ensures err { OnErr result (out.new.items ≡ out.old.items) }
    {
        list_moves_of(rules, self, out)
    }

    /// Whether the move is legal. Any move may be asked for.
    pub fn is_legal(&self, rules: &Rules, m: Move) -> bool
        requires { Belongs rules.now (board_of self.now) }
        ensures { result ≡ is_legal_move rules.now (board_of self.now) m }
    {
        is_legal(rules, self, m)
    }

    /// Whether the board is won. Where the goal is no sequence this is one comparison.
    pub fn is_won(&self, rules: &Rules) -> bool
        requires { Belongs rules.now (board_of self.now) }
        ensures { result ≡ is_won rules.now (board_of self.now) }
    {
        match rules.goal() {
            Goal::Sequences => is_won(rules, self),
            Goal::Foundations { .. } | Goal::Hole { .. } => self.is_cleared(rules),
        }
    }
}
