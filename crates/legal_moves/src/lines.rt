//! A list of moves.
ghost use Rattle.std.specs.Prelude.{◌≡◌};

use game_rules::Move;
use std::marker::Model;

/// Moves, one after the other.
#[derive(Debug, Drop)]
pub struct Line {
    moves: Vec<Move>,
}

impl Model for Line {
    ghost use Rattle.std.specs.Prelude.{List};
    ghost use Rattle.game_rules.specs.declared.Move.{Move};

    ghost Value = { List Move };

    ghost view = { λ line. line.moves.items };
}

impl Line {
    /// The line of these moves, in their order. It takes no memory.
    pub fn from_vec(items: Vec<Move>) -> Line
        ensures { result ≡ items.items }
    {
        Line { moves: items }
    }

    /// The moves, in their order.
    pub fn items(&self) -> &[Move]
        ensures { result.now ≡ self.now }
    {
        self.moves.as_slice()
    }
}
