//! The legal carries from the waste, place by place.
ghost use Rattle.std.specs.Prelude.{◌≡◌, [], ◌∷◌, ◌++◌, map, OnOk, OnErr};
ghost use Rattle.std.specs.List.{filter, flat_map, range_with_len};
ghost use Rattle.game_rules.specs.Belonging.{Belongs};
ghost use Rattle.game_rules.specs.Order.{hole_place};
ghost use Rattle.packed_state.specs.Packed.{board_of};
ghost use Rattle.stock_steps.specs.Steps.{steps_from, waste_carries};
ghost use Rattle.legal_moves.specs.Offers.{StartsWith};
ghost use Rattle.stock_moves.specs.Onto.{place_in, steps_onto};

use game_model::Rules;
use game_rules::{Move, Place};
use packed_state::{Packed, Spot};
use std::alloc::AllocError;
use stock_steps::Step;

/// A kind of numbered places that cards are put on.
#[derive(Clone, Copy)]
pub(crate) enum Kind {
    Foundations,
    Slots,
    Piles,
    Cells,
}

fn place_in(kind: Kind, i: u8) -> Place
    ensures { result ≡ place_in kind i }
{
    match kind {
        Kind::Foundations => Place::Foundation(i),
        Kind::Slots => Place::Slot(i),
        Kind::Piles => Place::Tableau(i),
        Kind::Cells => Place::Cell(i),
    }
}

/// Appends the carry from the waste to a place, if it is legal.
fn push_onto(
    rules: &Rules,
    packed: &Packed,
    deals: u16,
    to: Place,
    out: &mut Vec<Step>,
) -> Result<(), AllocError>
    requires { Belongs rules.now (board_of packed.now) }
    ensures ok { OnOk result
        (out.new.items ≡ out.old.items ++ steps_onto rules.now (board_of packed.now) deals to) }
    ensures err { OnErr result (StartsWith out.new.items out.old.items) }
{
    let last = Move::Carry {
        from: Place::Waste,
        to,
        count: 1,
    };
    if packed.is_legal(rules, last) {
        out.push(Step { deals, last })?;
    }
    Ok(())
}

/// Appends the legal carries from the waste to the places of a kind.
fn push_onto_each(
    rules: &Rules,
    packed: &Packed,
    deals: u16,
    kind: Kind,
    n: u8,
    out: &mut Vec<Step>,
) -> Result<(), AllocError>
    requires { Belongs rules.now (board_of packed.now) }
    ensures ok { OnOk result (out.new.items ≡ out.old.items
        ++ flat_map (steps_onto rules.now (board_of packed.now) deals)
        (map (place_in kind) (range_with_len 0 n))) }
    ensures err { OnErr result (StartsWith out.new.items out.old.items) }
{
    for i in 0..n {
        push_onto(rules, packed, deals, place_in(kind, i), out)?;
    }
    Ok(())
}

/// Appends the legal carry from the waste to the hole, if the game has one.
fn push_into_hole(
    rules: &Rules,
    packed: &Packed,
    deals: u16,
    out: &mut Vec<Step>,
) -> Result<(), AllocError>
    requires { Belongs rules.now (board_of packed.now) }
    ensures ok { OnOk result (out.new.items ≡ out.old.items ++ flat_map
        (steps_onto rules.now (board_of packed.now) deals) (hole_place rules.now)) }
    ensures err { OnErr result (StartsWith out.new.items out.old.items) }
{
    if rules.has_hole() {
        push_onto(rules, packed, deals, Place::Hole, out)?;
    }
    Ok(())
}

/// Appends the legal carries from the waste, each as the last move after so many stock moves.
pub(crate) fn push_waste_carries(
    rules: &Rules,
    packed: &Packed,
    deals: u16,
    out: &mut Vec<Step>,
) -> Result<(), AllocError>
    requires { Belongs rules.now (board_of packed.now) }
    ensures ok { OnOk result (out.new.items ≡ out.old.items ++ steps_from deals
        (waste_carries rules.now (board_of packed.now))) }
    ensures err { OnErr result (StartsWith out.new.items out.old.items) }
{
    // A game without a stock asks no place for a card that is not there.
    if packed.size(Spot::Waste) == 0 {
        return Ok(());
    }
    let foundations = rules.foundation_count();
    push_onto_each(rules, packed, deals, Kind::Foundations, foundations, out)?;
    push_into_hole(rules, packed, deals, out)?;
    push_onto_each(rules, packed, deals, Kind::Slots, rules.slot_count(), out)?;
    push_onto_each(rules, packed, deals, Kind::Piles, rules.piles(), out)?;
    push_onto_each(rules, packed, deals, Kind::Cells, rules.cells(), out)?;
    Ok(())
}
