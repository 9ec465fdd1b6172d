//! Boards in words.
ghost use Rattle.std.specs.Prelude.{IfOk};
ghost use Rattle.game_rules.specs.Belonging.{Belongs};

use card_piles::{Card, card_of};
use game_model::{Board, BoardFault, BoardParts, Items, Part, Rules};
use std::alloc::{AllocError, Global};

/// The parts of a board with no card and no number, to be filled in.
pub fn no_parts(alloc: Global) -> BoardParts {
    BoardParts {
        tableau: Items::new(alloc),
        face_down: Items::new(alloc),
        cells: Items::new(alloc),
        reserve: Items::new(alloc),
        stock: Items::new(alloc),
        waste: Items::new(alloc),
        redeals_left: 0,
        foundations: Items::new(alloc),
        hole: Items::new(alloc),
        rows: Items::new(alloc),
    }
}

fn part_named(word: &str) -> Option<Part> {
    if word == "pile" {
        Some(Part::Tableau)
    } else if word == "down" {
        Some(Part::FaceDown)
    } else if word == "cells" {
        Some(Part::Cells)
    } else if word == "reserve" {
        Some(Part::Reserve)
    } else if word == "stock" {
        Some(Part::Stock)
    } else if word == "waste" {
        Some(Part::Waste)
    } else if word == "left" {
        Some(Part::RedealsLeft)
    } else if word == "home" {
        Some(Part::Foundations)
    } else if word == "hole" {
        Some(Part::Hole)
    } else if word == "row" {
        Some(Part::Rows)
    } else {
        None
    }
}

fn digit(word: &str) -> u8 {
    match word.as_bytes() {
        [byte] => byte.saturating_sub(b'0'),
        _ => 0,
    }
}

/// Begins a pile or a row.
fn begin(alloc: Global, parts: &mut BoardParts, part: Part) -> Result<(), AllocError> {
    match part {
        Part::Tableau => parts.tableau.push(Items::new(alloc)),
        Part::Rows => parts.rows.push(Items::new(alloc)),
        _ => Ok(()),
    }
}

fn push_card(cards: &mut Items<Card>, card: Option<Card>) -> Result<(), AllocError> {
    match card {
        Some(card) => cards.push(card),
        None => Ok(()),
    }
}

fn add_to_pile(parts: &mut BoardParts, card: Option<Card>) -> Result<(), AllocError> {
    if let Some(mut pile) = parts.tableau.pop() {
        push_card(&mut pile, card)?;
        parts.tableau.push(pile)?;
    }
    Ok(())
}

fn add_to_row(parts: &mut BoardParts, entry: Option<Card>) -> Result<(), AllocError> {
    if let Some(mut row) = parts.rows.pop() {
        row.push(entry)?;
        parts.rows.push(row)?;
    }
    Ok(())
}

/// Adds a card, an empty entry or a number to a part.
fn add(parts: &mut BoardParts, part: Part, word: &str) -> Result<(), AllocError> {
    let card = card_of(word.as_bytes());
    match part {
        Part::Tableau => add_to_pile(parts, card),
        Part::FaceDown => parts.face_down.push(digit(word)),
        Part::Cells => parts.cells.push(card),
        Part::Reserve => parts.reserve.push(card),
        Part::Stock => push_card(&mut parts.stock, card),
        Part::Waste => push_card(&mut parts.waste, card),
        Part::RedealsLeft => {
            parts.redeals_left = digit(word);
            Ok(())
        }
        Part::Foundations => parts.foundations.push(digit(word)),
        Part::Hole => push_card(&mut parts.hole, card),
        Part::Rows => add_to_row(parts, card),
    }
}

fn parts_of(alloc: Global, text: &str) -> Result<BoardParts, AllocError> {
    let mut parts = no_parts(alloc);
    let mut part = Part::Tableau;
    for word in text.split_whitespace() {
        match part_named(word) {
            Some(named) => {
                part = named;
                begin(alloc, &mut parts, named)?;
            }
            None => add(&mut parts, part, word)?,
        }
    }
    Ok(parts)
}

/// The board of a text: the name of each part, and then its cards, empty entries (`-`) or numbers,
/// as `pile AC 3C down 1 cells - 2C stock 3D home 0 1 3 3`. Each pile and each row is named anew.
/// Fails as `Board::new` does.
pub fn board_of(alloc: Global, rules: &Rules, text: &str) -> Result<Board, BoardFault>
    ensures { IfOk result (λ board. Belongs rules.now board) }
{
    match parts_of(alloc, text) {
        Ok(parts) => Board::new(alloc, rules, parts),
        Err(AllocError) => Err(BoardFault::Memory),
    }
}
