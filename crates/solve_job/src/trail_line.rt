//! The line of a trail: the single moves of its steps.
ghost use Rattle.std.specs.Prelude.{◌≡◌, IfOk};
ghost use Rattle.game_rules.specs.Belonging.{Belongs};
ghost use Rattle.stock_steps.specs.Steps.{expand_trail};
ghost use Rattle.stock_steps.specs.Making.{CanAllBeMade};

use card_piles::NoMemory;
use game_model::{Board, Rules};
use legal_moves::Line;
use packed_state::Packed;
use std::alloc::Global;
use stock_moves::{Step, expand};

/// The single moves of steps that are made from the start, one after the other: those of each step,
/// on the board where it is made.
pub(crate) fn line_of(
    alloc: Global,
    rules: &Rules,
    start: &Board,
    trail: &[Step],
) -> Result<Line, NoMemory>
    requires belongs { Belongs rules.now start.now }
    requires made { CanAllBeMade rules.now start.now trail.now }
    ensures { IfOk result (λ line. line ≡ expand_trail rules.now start.now trail.now) }
{
    let mut packed = Packed::from_board(rules, start);
    let mut moves = Vec::new(alloc);
    for step in trail {
        expand(alloc, rules, &packed, *step, &mut moves)?;
        let _ = packed.run_stock(rules, step.deals);
        let _ = packed.go(rules, step.last);
    }
    Ok(Line::from_vec(moves))
}
