//! From the bytes of a file to a board.
ghost use Rattle.std.specs.Prelude.{◌≡◌, ◌&&◌, not, ◌⊎◌, ◌-◌, min, map, length, nat_lt, IsErrOf, IfOk};
ghost use Rattle.std.specs.List.{list_any};
ghost use Rattle.serde_json.specs.View.{view};
ghost use Rattle.game_rules.specs.Belonging.{Belongs};
ghost use Rattle.game_rules.specs.Position.{tableau_full};
ghost use Rattle.deal_reader.specs.ReadAs.{IsReadAs};
ghost use Rattle.deal_reader.specs.Position.{default_face_down, face_down_or_default, has_great_number, parts_of_deal};
ghost use Rattle.deal_reader.specs.Position.{position_of_deal, position_of_tree, position_of};
ghost use Rattle.deal_reader.specs.Bytes.{narrow, narrowed};

use crate::deal::DealParts;
use crate::fault::{DealFault, deal_fault, file_fault};
use crate::parts::{deal_of, keys_known};
use card_piles::Card;
use game_model::{Board, Rules};
use game_rules::{BoardParts, Face, Part};
use item_list::Items;
use json_tree::read_object;
use serde_json::Value;
use std::alloc::{AllocError, Global};

// A number as a byte. One above 255 is too great for every part, as 255 is for all but a high pile.
fn narrow(number: u64) -> u8
    ensures { result ≡ narrow number }
{
    number.min(255) as u8
}

fn narrow_all(alloc: Global, numbers: &[u64]) -> Result<Items<u8>, AllocError>
    ensures { IfOk result (λ bytes. bytes ≡ map narrow numbers.now) }
{
    let bytes = numbers
        .iter()
        .map(|number| narrow(*number))
        .collect::<Vec<u8>>(alloc)?;
    Ok(Items::from_vec(bytes))
}

// All but the top of each pile.
fn all_but_tops(alloc: Global, tableau: &[Items<Card>]) -> Result<Items<u8>, AllocError>
    ensures { IfOk result
        (λ bytes. bytes ≡ map narrow (map (λ cards. length cards - 1) tableau.now)) }
{
    let mut bytes = Items::new(alloc);
    for cards in tableau {
        bytes.push(narrow(cards.len().saturating_sub(1) as u64))?;
    }
    Ok(bytes)
}

fn default_face_down(
    alloc: Global,
    face: Face,
    tableau: &[Items<Card>],
) -> Result<Items<u8>, AllocError>
    ensures { IfOk result (λ bytes. bytes ≡ map narrow (default_face_down face tableau.now)) }
{
    match face {
        Face::AllUp => Ok(Items::new(alloc)),
        Face::TopUp => all_but_tops(alloc, tableau),
    }
}

fn face_down_of(alloc: Global, face: Face, deal: &DealParts) -> Result<Items<u8>, AllocError>
    ensures { IfOk result (λ bytes. bytes ≡ map narrow
        (face_down_or_default face deal.now.tableau deal.now.face_down)) }
{
    match &deal.face_down {
        Some(numbers) => narrow_all(alloc, numbers.items()),
        None => default_face_down(alloc, face, deal.tableau.items()),
    }
}

fn parts_of(alloc: Global, rules: &Rules, deal: DealParts) -> Result<BoardParts, AllocError>
    ensures { IfOk result (λ parts. parts ≡ narrowed (parts_of_deal rules.now deal)) }
{
    let face_down = face_down_of(alloc, rules.face(), &deal)?;
    let foundations = narrow_all(alloc, deal.foundations.items())?;
    Ok(BoardParts {
        tableau: deal.tableau,
        face_down,
        cells: deal.cells,
        reserve: deal.reserve,
        stock: deal.stock,
        waste: deal.waste,
        redeals_left: narrow(deal.redeals_left),
        foundations,
        hole: deal.hole,
        rows: deal.rows,
    })
}

fn is_great(number: u64) -> bool
    ensures { result ≡ nat_lt 255 number }
{
    number > 255
}

fn is_any_great(numbers: &[u64]) -> bool
    ensures { result ≡ list_any (λ number. nat_lt 255 number) numbers.now }
{
    numbers.iter().any(|number| is_great(*number))
}

fn has_great_number(deal: &DealParts) -> bool
    ensures { result ≡ has_great_number deal.now.face_down }
{
    match &deal.face_down {
        Some(numbers) => is_any_great(numbers.items()),
        None => false,
    }
}

fn is_tableau_full(rules: &Rules, deal: &DealParts) -> bool
    ensures { result ≡ tableau_full rules.now (parts_of_deal rules.now deal.now) }
{
    usize::from(rules.piles()) < deal.tableau.len()
}

// Whether a number above 255 makes the face-down cards the first part that is full.
fn fills_face_down(rules: &Rules, deal: &DealParts) -> bool
    ensures { result ≡ (has_great_number deal.now.face_down
        && not (tableau_full rules.now (parts_of_deal rules.now deal.now))) }
{
    has_great_number(deal) && !is_tableau_full(rules, deal)
}

fn board_of_deal(alloc: Global, rules: &Rules, deal: DealParts) -> Result<Board, DealFault>
    ensures belongs { IfOk result (λ board. Belongs rules.now board) }
    ensures value { IsReadAs result (position_of_deal rules.now deal) }
{
    // The call says that the rules can be played, on which the proof rests.
    let _ = rules.parts();
    if fills_face_down(rules, &deal) {
        return Err(DealFault::PlaceFull(Part::FaceDown));
    }
    let parts = parts_of(alloc, rules, deal)?;
    match Board::new(alloc, rules, parts) {
        Ok(board) => Ok(board),
        Err(fault) => Err(deal_fault(fault)),
    }
}

#[tactic(auto, unfolding(crate::specs::Position::position_of_tree))]
fn board_of_tree(alloc: Global, rules: &Rules, top: &Value) -> Result<Board, DealFault>
    ensures belongs { IfOk result (λ board. Belongs rules.now board) }
    ensures value { IsReadAs result (position_of_tree rules.now (view top.now)) }
{
    keys_known(top)?;
    let deal = deal_of(alloc, rules, top)?;
    board_of_deal(alloc, rules, deal)
}

/// The board that the bytes of a deal file give, or their first fault.
#[tactic(auto, unfolding(crate::specs::Position::position_of))]
pub fn read_position(alloc: Global, rules: &Rules, bytes: &[u8]) -> Result<Board, DealFault>
    ensures belongs { IfOk result (λ board. Belongs rules.now board) }
    ensures value { ¬ (IsErrOf result DealFault.Memory) → result ≡ position_of rules.now bytes.now }
{
    match read_object(alloc, bytes) {
        Ok(top) => board_of_tree(alloc, rules, &top),
        Err(fault) => Err(file_fault(fault)),
    }
}
