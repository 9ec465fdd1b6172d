//! Whether a board is won, where the goal is no sequence.
ghost use Rattle.std.specs.Prelude.{◌≡◌, false};
ghost use Rattle.game_rules.specs.Rules.{is_sequence_goal};
ghost use Rattle.game_rules.specs.Winning.{is_won};
ghost use Rattle.packed_state.specs.Packed.{board_of};

use crate::Packed;
use game_model::Rules;

impl Packed {
    /// Whether no card lies in tableau, cells, reserve, stock or waste.
    pub(crate) fn is_cleared(&self, rules: &Rules) -> bool
        requires { is_sequence_goal rules.now.goal ≡ false }
        ensures { result ≡ is_won rules.now (board_of self.now) }
    {
        let _ = rules.parts();
        self.keep();
        self.links.low() == 0
    }
}
