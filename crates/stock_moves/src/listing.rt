//! The list of stock steps.
//!
//! The stock is dealt out move by move, and each board on the way gives its carries from the waste.
//! If redeals are unlimited, the run ends at the first board that comes again: stock moves only
//! shift the border between stock and waste, so the length of the stock tells the board.
ghost use Rattle.std.specs.Prelude.{◌≡◌, ◌≢◌, ◌↔◌, ◌++◌, IsTrue, OnOk, OnErr};
ghost use Rattle.game_rules.specs.Belonging.{Belongs};
ghost use Rattle.game_rules.specs.Rules.{deals_to_waste};
ghost use Rattle.packed_state.specs.declared.stock.StockUndo.{StockUndo};
ghost use Rattle.packed_state.specs.Packed.{board_of};
ghost use Rattle.packed_state.specs.StockRuns.{before_run};
ghost use Rattle.stock_steps.specs.Steps.{stock_steps};
ghost use Rattle.stock_moves.specs.GoesOn.{GoesOn, next_stock};
ghost use Rattle.legal_moves.specs.Offers.{StartsWith};

use crate::onto::push_waste_carries;
use card_piles::NoMemory;
use game_model::Rules;
use game_rules::{Move, Redeals, Target};
use packed_state::{Packed, Spot};
use std::alloc::{AllocError, Global};
use stock_steps::Step;

/// The number of cards in the stock after the next stock move, if there is one.
fn next_stock(rules: &Rules, packed: &Packed) -> Option<u8>
    requires belongs { Belongs rules.now (board_of packed.now) }
    requires to_waste { IsTrue (deals_to_waste rules.now.target) }
    ensures { result ≡ next_stock rules.now (board_of packed.now) }
{
    let stock = packed.size(Spot::Stock);
    if stock != 0 {
        return Some(stock.saturating_sub(rules.draw()));
    }
    if packed.is_legal(rules, Move::Redeal) {
        return Some(packed.size(Spot::Waste));
    }
    None
}

/// Whether the length of a stock is other than the first one, and not 0 after an empty stock.
fn is_other_length(next: u8, first: u8, emptied: bool) -> bool
    ensures { IsTrue result ↔ ((next ≢ first) × (IsTrue emptied → next ≢ 0)) }
{
    if emptied && next == 0 {
        return false;
    }
    next != first
}

/// Whether a stock move leads to a board that the run does not have. `first` is the number of cards
/// in the first stock, and `emptied` says whether a stock of the run was empty.
fn goes_on(rules: &Rules, packed: &Packed, first: u8, emptied: bool) -> bool
    requires belongs { Belongs rules.now (board_of packed.now) }
    requires to_waste { IsTrue (deals_to_waste rules.now.target) }
    ensures { IsTrue result ↔ GoesOn rules.now (board_of packed.now) first emptied }
{
    let Some(next) = next_stock(rules, packed) else {
        return false;
    };
    match rules.redeals() {
        Redeals::Times(_) => true,
        Redeals::Unlimited => is_other_length(next, first, emptied),
    }
}

/// Appends the stock steps, and makes stock moves on the way, which earlier notes take back too.
fn list_along(rules: &Rules, packed: &mut Packed, out: &mut Vec<Step>) -> Result<(), AllocError>
    requires belongs { Belongs rules.now (board_of packed.old) }
    requires to_waste { IsTrue (deals_to_waste rules.now.target) }
    ensures listed { OnOk result
        (out.new.items ≡ out.old.items ++ stock_steps rules.now (board_of packed.old)) }
    ensures begun { OnErr result (StartsWith out.new.items out.old.items) }
    ensures same_notes { (undo : StockUndo) → before_run undo packed.new ≡ before_run undo packed.old }
{
    // This call brings that the rules are playable.
    let _ = rules.parts();
    let first = packed.size(Spot::Stock);
    let mut emptied = first == 0;
    let mut deals = 0;
    push_waste_carries(rules, packed, deals, out)?;
    while goes_on(rules, packed, first, emptied) {
        let _ = packed.run_stock(rules, 1);
        emptied = emptied || packed.size(Spot::Stock) == 0;
        deals += 1;
        push_waste_carries(rules, packed, deals, out)?;
    }
    Ok(())
}

/// Appends the stock steps of a stock that deals to the waste, and goes back.
fn list_and_return(rules: &Rules, packed: &mut Packed, out: &mut Vec<Step>) -> Result<(), NoMemory>
    requires belongs { Belongs rules.now (board_of packed.old) }
    requires to_waste { IsTrue (deals_to_waste rules.now.target) }
    ensures listed { OnOk result
        (out.new.items ≡ out.old.items ++ stock_steps rules.now (board_of packed.old)) }
    ensures refused { OnErr result (out.new.items ≡ out.old.items) }
    ensures as_before { packed.new ≡ packed.old }
{
    let size = out.len();
    // No stock move yet: this notes where the stock ends.
    let undo = packed.run_stock(rules, 0);
    let listed = list_along(rules, packed, out);
    packed.unrun_stock(undo);
    match listed {
        Ok(()) => Ok(()),
        Err(refused) => {
            out.truncate(size);
            Err(NoMemory::from(refused))
        }
    }
}

/// Appends each stock step of the board once, by the number of stock moves and then in the order of
/// moves. The packed board is the earlier one afterwards. After a refusal `out` is as before too.
pub fn list_stock_steps(
    _alloc: Global,
    rules: &Rules,
    packed: &mut Packed,
    out: &mut Vec<Step>,
) -> Result<(), NoMemory>
    requires { Belongs rules.now (board_of packed.old) }
    ensures listed { OnOk result
        (out.new.items ≡ out.old.items ++ stock_steps rules.now (board_of packed.old)) }
    ensures refused { OnErr result (out.new.items ≡ out.old.items) }
    ensures as_before { packed.new ≡ packed.old }
{
    if rules.target() != Target::ToWaste {
        return Ok(());
    }
    list_and_return(rules, packed, out)
}
