//! The steps that the search tries of a board.
ghost use Rattle.std.specs.Prelude.{◌≡◌, [], ◌∷◌, ◌++◌, ◌||◌, IfOk, OnOk, OnErr, length, take};
ghost use Rattle.std.specs.List.{filter};
ghost use Rattle.game_rules.specs.Belonging.{Belongs};
ghost use Rattle.game_rules.specs.Order.{legal_moves};
ghost use Rattle.game_rules.specs.Rules.{deals_to_waste};
ghost use Rattle.packed_state.specs.Packed.{board_of};
ghost use Rattle.stock_steps.specs.Steps.{free_steps, is_from_elsewhere, steps, steps_from};

use game_model::{Rules, Target};
use game_rules::{Move, Place};
use packed_state::Packed;
use safe_foundation::first_safe;
use std::alloc::Global;
use stock_moves::{Step, list_stock_steps};
use transposition::NoMemory;

/// Whether the move is a carry from another place than the waste.
fn is_from_elsewhere(m: Move) -> bool
    ensures { result ≡ is_from_elsewhere m }
{
    match m {
        Move::Carry { from, .. } => !matches!(from, Place::Waste),
        Move::Deal | Move::Redeal => false,
    }
}

/// Whether the move is listed: each move, or a carry from another place than the waste alone.
fn is_listed(all: bool, m: Move) -> bool
    ensures { result ≡ (all || is_from_elsewhere m) }
{
    all || is_from_elsewhere(m)
}

/// Whether the stock deals to the waste.
fn deals_to_waste(rules: &Rules) -> bool
    ensures { result ≡ deals_to_waste rules.now.target }
{
    match rules.target() {
        Target::ToWaste => true,
        Target::ToTableau | Target::ToHole => false,
    }
}

/// Appends a move as a step of its own.
pub(crate) fn push_single(last: Move, out: &mut Vec<Step>) -> Result<(), NoMemory>
    ensures ok { OnOk result (out.new.items ≡ out.old.items ++ steps_from 0 (last ∷ [])) }
    ensures begun { OnErr result (take (length out.old.items) out.new.items ≡ out.old.items) }
{
    match out.push(Step { deals: 0, last }) {
        Ok(()) => Ok(()),
        Err(_) => Err(NoMemory),
    }
}

/// Appends moves as steps of their own: all of them, or the carries from other places than the waste alone.
fn push_singles(moves: &[Move], all: bool, out: &mut Vec<Step>) -> Result<(), NoMemory>
    ensures ok { OnOk result (out.new.items ≡ out.old.items ++ steps_from 0
        (filter (λ m. all || is_from_elsewhere m) moves.now)) }
    ensures begun { OnErr result (take (length out.old.items) out.new.items ≡ out.old.items) }
{
    for m in moves {
        if is_listed(all, *m) {
            push_single(*m, out)?;
        }
    }
    Ok(())
}

/// Appends the steps of a board without a safe move, of which the legal moves are listed: every legal move, or, where
/// the stock deals to the waste, the carries from other places and then the stock steps.
pub(crate) fn list_free_steps(
    alloc: Global,
    rules: &Rules,
    packed: &mut Packed,
    moves: &[Move],
    out: &mut Vec<Step>,
) -> Result<(), NoMemory>
    requires belongs { Belongs rules.now (board_of packed.old) }
    requires moves { moves.now ≡ legal_moves rules.now (board_of packed.old) }
    ensures listed { OnOk result
        (out.new.items ≡ out.old.items ++ free_steps rules.now (board_of packed.old)) }
    ensures begun { OnErr result (take (length out.old.items) out.new.items ≡ out.old.items) }
    ensures as_before { packed.new ≡ packed.old }
{
    if !deals_to_waste(rules) {
        return push_singles(moves, true, out);
    }
    push_singles(moves, false, out)?;
    match list_stock_steps(alloc, rules, packed, out) {
        Ok(()) => Ok(()),
        Err(_) => Err(NoMemory),
    }
}

/// The legal moves of the board in their order.
pub(crate) fn moves_of(alloc: Global, rules: &Rules, packed: &Packed) -> Result<Vec<Move>, NoMemory>
    requires { Belongs rules.now (board_of packed.now) }
    ensures { IfOk result (λ moves. moves.items ≡ legal_moves rules.now (board_of packed.now)) }
{
    let mut moves = Vec::new(alloc);
    match packed.list_moves(alloc, rules, &mut moves) {
        Ok(()) => Ok(moves),
        Err(_) => Err(NoMemory),
    }
}

/// Appends the steps of the board in their order: its first safe move alone, if it has one, else its
/// free steps. The packed board is as before.
pub(crate) fn list_steps(
    alloc: Global,
    rules: &Rules,
    packed: &mut Packed,
    out: &mut Vec<Step>,
) -> Result<(), NoMemory>
    requires { Belongs rules.now (board_of packed.old) }
    ensures listed { OnOk result
        (out.new.items ≡ out.old.items ++ steps rules.now (board_of packed.old)) }
    ensures begun { OnErr result (take (length out.old.items) out.new.items ≡ out.old.items) }
    ensures as_before { packed.new ≡ packed.old }
{
    match first_safe(rules, packed) {
        Some(forced) => push_single(forced, out),
        None => {
            let moves = moves_of(alloc, rules, packed)?;
            list_free_steps(alloc, rules, packed, moves.as_slice(), out)
        }
    }
}
