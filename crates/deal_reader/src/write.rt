//! From a board to its one spelling.
ghost use Rattle.std.specs.Prelude.{◌≡◌, ◌+◌, ◌*◌, ◌≤◌, ◌<◌, map, length, take, drop, Ok, IfOk};
ghost use Rattle.serde_json.specs.View.{view};
ghost use Rattle.game_rules.specs.Belonging.{Belongs, slot_count};
ghost use Rattle.game_rules.specs.Position.{row_count, parts_of};
ghost use Rattle.game_rules.specs.Winning.{row_at};
ghost use Rattle.std.specs.List.{range_with_len};
ghost use Rattle.deal_reader.specs.Spelling.{card_tree, entry_tree, number_tree, list_tree, parts_tree, position_text};
ghost use Rattle.deal_reader.specs.Position.{position_of};

use crate::names::card_name;
use card_piles::{Card, NoMemory, text_of};
use game_model::{Board, Rules};
use serde_json::{Map, Value, put};
use std::alloc::{AllocError, Global};

fn card_value(alloc: Global, card: Card) -> Result<Value, AllocError>
    ensures { IfOk result (λ value. view value ≡ card_tree card) }
{
    let text = text_of(card);
    Value::try_from_str(alloc, card_name(card, &text))
}

fn entry_value(alloc: Global, entry: Option<Card>) -> Result<Value, AllocError>
    ensures { IfOk result (λ value. view value ≡ entry_tree entry) }
{
    match entry {
        Some(card) => card_value(alloc, card),
        None => Ok(Value::Null),
    }
}

fn cards_value(alloc: Global, cards: &[Card]) -> Result<Value, AllocError>
    ensures { IfOk result (λ value. view value ≡ list_tree card_tree cards.now) }
{
    let mut list = Vec::new(alloc);
    for card in cards {
        list.push(card_value(alloc, *card)?)?;
    }
    Ok(Value::Array(list))
}

fn entries_value(alloc: Global, entries: &[Option<Card>]) -> Result<Value, AllocError>
    ensures { IfOk result (λ value. view value ≡ list_tree entry_tree entries.now) }
{
    let mut list = Vec::new(alloc);
    for entry in entries {
        list.push(entry_value(alloc, *entry)?)?;
    }
    Ok(Value::Array(list))
}

fn numbers_value(alloc: Global, numbers: &[u8]) -> Result<Value, AllocError>
    ensures { IfOk result (λ value. view value ≡ list_tree number_tree numbers.now) }
{
    let mut list = Vec::new(alloc);
    for number in numbers {
        list.push(Value::from(*number))?;
    }
    Ok(Value::Array(list))
}

fn piles_value(alloc: Global, rules: &Rules, board: &Board) -> Result<Value, AllocError>
    requires { Belongs rules.now board.now }
    ensures { IfOk result (λ value. view value ≡ list_tree (list_tree card_tree)
        (map (λ pile. pile.cards) board.now.piles)) }
{
    let mut list = Vec::new(alloc);
    for i in 0..rules.piles() {
        list.push(cards_value(alloc, board.pile(i))?)?;
    }
    Ok(Value::Array(list))
}

fn face_down_of(alloc: Global, rules: &Rules, board: &Board) -> Result<Vec<u8>, AllocError>
    requires { Belongs rules.now board.now }
    ensures { IfOk result
        (λ numbers. numbers.items ≡ map (λ pile. pile.face_down) board.now.piles) }
{
    let mut numbers = Vec::new(alloc);
    for i in 0..rules.piles() {
        numbers.push(board.face_down(i))?;
    }
    Ok(numbers)
}

fn cells_of(alloc: Global, rules: &Rules, board: &Board) -> Result<Vec<Option<Card>>, AllocError>
    requires { Belongs rules.now board.now }
    ensures { IfOk result (λ cells. cells.items ≡ board.now.cells) }
{
    let mut cells = Vec::new(alloc);
    for i in 0..rules.cells() {
        cells.push(board.cell(i))?;
    }
    Ok(cells)
}

fn heights_of(alloc: Global, rules: &Rules, board: &Board) -> Result<Vec<u8>, AllocError>
    requires { Belongs rules.now board.now }
    ensures { IfOk result (λ heights. heights.items ≡ board.now.heights) }
{
    let mut heights = Vec::new(alloc);
    for f in 0..rules.foundation_count() {
        heights.push(board.height(f))?;
    }
    Ok(heights)
}

fn slots_of(alloc: Global, rules: &Rules, board: &Board) -> Result<Vec<Option<Card>>, AllocError>
    requires { Belongs rules.now board.now }
    ensures { IfOk result (λ slots. slots.items ≡ board.now.slots) }
{
    let mut slots = Vec::new(alloc);
    for i in 0..rules.slot_count() {
        slots.push(board.slot(i))?;
    }
    Ok(slots)
}

// The slots of a row.
fn row<'s>(rules: &Rules, slots: &'s [Option<Card>], r: u8) -> &'s [Option<Card>]
    requires there { r < row_count rules.now }
    requires all { length slots.now ≡ slot_count rules.now }
    ensures { result.now ≡ take rules.now.max_rank (drop (r * rules.now.max_rank) slots.now) }
{
    let ranks = usize::from(rules.max_rank());
    let start = usize::from(r) * ranks;
    &slots[start..start + ranks]
}

fn rows_value(alloc: Global, rules: &Rules, board: &Board) -> Result<Value, AllocError>
    requires { Belongs rules.now board.now }
    ensures { IfOk result (λ value. view value ≡ list_tree (list_tree entry_tree)
        (map (row_at rules.now board.now) (range_with_len 0 (row_count rules.now)))) }
{
    let slots = slots_of(alloc, rules, board)?;
    let mut list = Vec::new(alloc);
    for r in 0..rules.row_count() {
        list.push(entries_value(alloc, row(rules, slots.as_slice(), r))?)?;
    }
    Ok(Value::Array(list))
}

fn cells_value(alloc: Global, rules: &Rules, board: &Board) -> Result<Value, AllocError>
    requires { Belongs rules.now board.now }
    ensures { IfOk result (λ value. view value ≡ list_tree entry_tree board.now.cells) }
{
    let cells = cells_of(alloc, rules, board)?;
    entries_value(alloc, cells.as_slice())
}

fn face_down_value(alloc: Global, rules: &Rules, board: &Board) -> Result<Value, AllocError>
    requires { Belongs rules.now board.now }
    ensures { IfOk result (λ value.
        view value ≡ list_tree number_tree (map (λ pile. pile.face_down) board.now.piles)) }
{
    let numbers = face_down_of(alloc, rules, board)?;
    numbers_value(alloc, numbers.as_slice())
}

fn foundations_value(alloc: Global, rules: &Rules, board: &Board) -> Result<Value, AllocError>
    requires { Belongs rules.now board.now }
    ensures { IfOk result (λ value. view value ≡ list_tree number_tree board.now.heights) }
{
    let heights = heights_of(alloc, rules, board)?;
    numbers_value(alloc, heights.as_slice())
}

fn tree_of(alloc: Global, rules: &Rules, board: &Board) -> Result<Value, AllocError>
    requires { Belongs rules.now board.now }
    ensures { IfOk result (λ tree. view tree ≡ parts_tree (parts_of rules.now board.now)) }
{
    let mut members = Map::new(alloc);
    let cells = cells_value(alloc, rules, board)?;
    put(&mut members, alloc, "cells", cells)?;
    let face_down = face_down_value(alloc, rules, board)?;
    put(&mut members, alloc, "face down", face_down)?;
    let foundations = foundations_value(alloc, rules, board)?;
    put(&mut members, alloc, "foundations", foundations)?;
    let hole = cards_value(alloc, board.hole())?;
    put(&mut members, alloc, "hole", hole)?;
    let redeals_left = Value::from(board.redeals_left());
    put(&mut members, alloc, "redeals left", redeals_left)?;
    let reserve = entries_value(alloc, board.reserve())?;
    put(&mut members, alloc, "reserve", reserve)?;
    let rows = rows_value(alloc, rules, board)?;
    put(&mut members, alloc, "rows", rows)?;
    let stock = cards_value(alloc, board.stock())?;
    put(&mut members, alloc, "stock", stock)?;
    let tableau = piles_value(alloc, rules, board)?;
    put(&mut members, alloc, "tableau", tableau)?;
    let waste = cards_value(alloc, board.waste())?;
    put(&mut members, alloc, "waste", waste)?;
    Ok(Value::Object(members))
}

/// The one spelling of a board, which is read as this board.
pub fn write_position(alloc: Global, rules: &Rules, board: &Board) -> Result<Vec<u8>, NoMemory>
    requires { Belongs rules.now board.now }
    ensures text { IfOk result (λ text. text.items ≡ position_text rules.now board.now) }
    ensures reads_back { IfOk result (λ text. position_of rules.now text.items ≡ Ok board.now) }
{
    // The call says that the rules can be played, on which the proof rests.
    let _ = rules.parts();
    let tree = tree_of(alloc, rules, board)?;
    let text = tree.to_vec(alloc)?;
    Ok(text)
}
