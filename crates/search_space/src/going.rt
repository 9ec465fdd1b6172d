//! A step on a packed board, and the way back.
ghost use Rattle.std.specs.Prelude.{◌≡◌, Some, IsSome};
ghost use Rattle.game_rules.specs.Belonging.{Belongs};
ghost use Rattle.packed_state.specs.Packed.{board_of};
ghost use Rattle.stock_steps.specs.Steps.{after_step};
ghost use Rattle.stock_steps.specs.Making.{CanBeMade};
ghost use Rattle.search_space.specs.Undoing.{before_step};

use game_model::Rules;
use packed_state::{Packed, StockUndo, Undo};
use stock_moves::Step;

/// What it takes to come back over a step: over its stock moves, and over its last move.
#[derive(Debug, Drop)]
pub struct StepUndo {
    stock: StockUndo,
    last: Undo,
}

/// Makes the stock moves of a step, and then its last move.
pub(crate) fn go_step(rules: &Rules, packed: &mut Packed, step: Step) -> StepUndo
    requires belongs { Belongs rules.now (board_of packed.old) }
    requires made { CanBeMade rules.now (board_of packed.old) step }
    ensures moved { board_of packed.new ≡ after_step rules.now (board_of packed.old) step }
    ensures can_go_back { before_step result packed.new ≡ Some packed.old }
    ensures belongs { Belongs rules.now (board_of packed.new) }
{
    let stock = packed.run_stock(rules, step.deals);
    let last = packed.go(rules, step.last);
    StepUndo { stock, last }
}

/// Takes a step back: gives the one earlier packed board that the undo and this one determine.
pub(crate) fn back_step(packed: &mut Packed, undo: StepUndo)
    requires { IsSome (before_step undo packed.old) }
    ensures { before_step undo packed.old ≡ Some packed.new }
{
    packed.back(undo.last);
    packed.unrun_stock(undo.stock);
}
