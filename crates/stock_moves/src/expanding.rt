//! The single moves of a step.
ghost use Rattle.std.specs.Prelude.{◌≡◌, ◌++◌, OnOk, OnErr};
ghost use Rattle.game_rules.specs.Belonging.{Belongs};
ghost use Rattle.packed_state.specs.Packed.{board_of};
ghost use Rattle.stock_steps.specs.Steps.{expand, stock_moves};
ghost use Rattle.stock_steps.specs.Making.{CanBeMade};
ghost use Rattle.legal_moves.specs.Offers.{StartsWith};

use card_piles::NoMemory;
use game_model::Rules;
use game_rules::Move;
use packed_state::{Packed, Spot};
use std::alloc::{AllocError, Global};
use stock_steps::Step;

/// Appends the stock moves of a step, and then its last move.
fn push_moves(
    rules: &Rules,
    before: &Packed,
    step: Step,
    out: &mut Vec<Move>,
) -> Result<(), AllocError>
    requires belongs { Belongs rules.now (board_of before.now) }
    requires made { CanBeMade rules.now (board_of before.now) step }
    ensures expanded { OnOk result
        (out.new.items ≡ out.old.items ++ expand rules.now (board_of before.now) step) }
    ensures begun { OnErr result (StartsWith out.new.items out.old.items) }
{
    // This call brings that the rules are playable, and so that stock and waste have few cards.
    let _ = rules.parts();
    let cards = before.size(Spot::Stock) + before.size(Spot::Waste);
    let mut stock = before.size(Spot::Stock);
    for made in 0..step.deals {
        let _ = made;
        if stock == 0 {
            out.push(Move::Redeal)?;
            stock = cards;
        } else {
            out.push(Move::Deal)?;
            stock = stock.saturating_sub(rules.draw());
        }
    }
    out.push(step.last)?;
    Ok(())
}

/// Appends the single moves of a step that can be made from the board: its stock moves, and then its
/// last move. After a refusal `out` is as before.
pub fn expand(
    _alloc: Global,
    rules: &Rules,
    before: &Packed,
    step: Step,
    out: &mut Vec<Move>,
) -> Result<(), NoMemory>
    requires belongs { Belongs rules.now (board_of before.now) }
    requires made { CanBeMade rules.now (board_of before.now) step }
    ensures expanded { OnOk result
        (out.new.items ≡ out.old.items ++ expand rules.now (board_of before.now) step) }
    ensures refused { OnErr result (out.new.items ≡ out.old.items) }
{
    let size = out.len();
    match push_moves(rules, before, step, out) {
        Ok(()) => Ok(()),
        Err(refused) => {
            out.truncate(size);
            Err(NoMemory::from(refused))
        }
    }
}
