//! Whether a board is won.
ghost use Rattle.std.specs.Prelude.{◌≡◌};
ghost use Rattle.game_rules.specs.Belonging.{Belongs};
ghost use Rattle.game_rules.specs.Winning.{is_won};

use super::Board;
use crate::rules::Rules;
use crate::winning::is_won;

impl Board {
    /// Whether the board is won: in a game of sequences each row holds the cards of one suit in
    /// order from the two, in all columns but the last; in every other game no card lies in
    /// tableau, cells, reserve, stock or waste.
    pub fn is_won(&self, rules: &Rules) -> bool
        requires { Belongs rules.now self.now }
        ensures { result ≡ is_won rules.now self.now }
    {
        is_won(rules, self)
    }
}
