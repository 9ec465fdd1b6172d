//! The parts of a board from the bytes of a key.
ghost use Rattle.std.specs.Prelude.{◌≡◌, ℕ, ◌≤◌, map, IfOk, None};
ghost use Rattle.std.specs.Option.{option_to_list};
ghost use Rattle.std.specs.List.{range_with_len};
ghost use Rattle.game_rules.specs.Position.{filled};
ghost use Rattle.same_boards.specs.Bytes.{card_of_byte, entry_of_byte};
ghost use Rattle.pile_symmetry.specs.Reading.{card_entry, piles_in, reserve_in, heights_in, rows_in};
ghost use Rattle.pile_symmetry.specs.Reading.{top_in, parts_said};

use crate::Said;
use crate::reading::{byte_at, card_of_byte, cut, entry_of_byte, first_pile};
use card_piles::Card;
use game_model::{BoardParts, Items, Rules};
use std::alloc::{AllocError, Global};

fn cards_in(alloc: Global, bytes: &[u8]) -> Result<Items<Card>, AllocError>
    ensures { IfOk result (λ cards. cards ≡ map card_of_byte bytes.now) }
{
    let mut cards = Items::new(alloc);
    for byte in bytes {
        cards.push(card_of_byte(*byte))?;
    }
    Ok(cards)
}

/// One filled entry a byte.
fn held(alloc: Global, bytes: &[u8]) -> Result<Items<Option<Card>>, AllocError>
    ensures { IfOk result (λ entries. entries ≡ map card_entry bytes.now) }
{
    let mut entries = Items::new(alloc);
    for byte in bytes {
        entries.push(Some(card_of_byte(*byte)))?;
    }
    Ok(entries)
}

/// One filled entry a byte, and empty ones after them up to n.
fn filled(alloc: Global, n: u8, bytes: &[u8]) -> Result<Items<Option<Card>>, AllocError>
    ensures { IfOk result (λ entries. entries ≡ filled n None (map card_entry bytes.now)) }
{
    let mut entries = held(alloc, bytes)?;
    let gaps = usize::from(n).saturating_sub(bytes.len());
    for gap in 0..gaps {
        let _ = gap;
        entries.push(None)?;
    }
    Ok(entries)
}

fn reserve_in(alloc: Global, rules: &Rules, bytes: &[u8]) -> Result<Items<Option<Card>>, AllocError>
    ensures { IfOk result (λ entries. entries ≡ reserve_in rules.now bytes.now) }
{
    if rules.stacked() {
        held(alloc, bytes)
    } else {
        filled(alloc, rules.reserve(), bytes)
    }
}

fn heights_in(alloc: Global, rules: &Rules, bytes: &[u8]) -> Result<Items<u8>, AllocError>
    ensures { IfOk result (λ heights. heights ≡ heights_in rules.now bytes.now) }
{
    let _ = rules.max_rank();
    let mut heights = Items::new(alloc);
    for f in 0..rules.foundation_count() {
        let at = f % 4 * rules.decks() + f / 4;
        heights.push(byte_at(bytes, usize::from(at)))?;
    }
    Ok(heights)
}

/// The cards of each pile, and the numbers of face-down cards.
fn piles_in(
    alloc: Global,
    n: u8,
    bytes: &[u8],
) -> Result<(Items<Items<Card>>, Items<u8>), AllocError>
    ensures tableau { IfOk result (λ piles. piles.0 ≡ map (λ pile. pile.cards) (piles_in n bytes.now)) }
    ensures face_down { IfOk result
        (λ piles. piles.1 ≡ map (λ pile. pile.face_down) (piles_in n bytes.now)) }
{
    let mut tableau = Items::new(alloc);
    let mut downs = Items::new(alloc);
    let mut after = bytes;
    for i in 0..n {
        let _ = i;
        let (face_down, cards, next) = first_pile(after);
        tableau.push(cards_in(alloc, cards)?)?;
        downs.push(face_down)?;
        after = next;
    }
    Ok((tableau, downs))
}

fn entries_in(alloc: Global, bytes: &[u8]) -> Result<Items<Option<Card>>, AllocError>
    ensures { IfOk result (λ entries. entries ≡ map entry_of_byte bytes.now) }
{
    let mut entries = Items::new(alloc);
    for byte in bytes {
        entries.push(entry_of_byte(*byte))?;
    }
    Ok(entries)
}

fn rows_in(
    alloc: Global,
    rules: &Rules,
    bytes: &[u8],
) -> Result<Items<Items<Option<Card>>>, AllocError>
    ensures { IfOk result (λ rows. rows ≡ rows_in rules.now bytes.now) }
{
    let mut rows = Items::new(alloc);
    let mut after = bytes;
    for r in 0..rules.row_count() {
        let _ = r;
        let (row, next) = cut(after, usize::from(rules.max_rank()));
        rows.push(entries_in(alloc, row)?)?;
        after = next;
    }
    Ok(rows)
}

/// The top of the hole.
fn top_in(alloc: Global, bytes: &[u8]) -> Result<Items<Card>, AllocError>
    ensures { IfOk result (λ cards. cards ≡ top_in bytes.now) }
{
    let mut cards = Items::new(alloc);
    if let Some(card) = entry_of_byte(byte_at(bytes, 1)) {
        cards.push(card)?;
    }
    Ok(cards)
}

/// The parts of a board, of whose hole the top alone is said.
pub(crate) fn parts_said(
    alloc: Global,
    rules: &Rules,
    said: &Said<'_>,
) -> Result<BoardParts, AllocError>
    ensures { IfOk result (λ parts. parts ≡ parts_said rules.now said.now) }
{
    let (tableau, face_down) = piles_in(alloc, rules.piles(), said.rest)?;
    Ok(BoardParts {
        tableau,
        face_down,
        cells: filled(alloc, rules.cells(), said.cells)?,
        reserve: reserve_in(alloc, rules, said.reserve)?,
        stock: cards_in(alloc, said.stock)?,
        waste: cards_in(alloc, said.waste)?,
        redeals_left: said.redeals_left,
        foundations: heights_in(alloc, rules, said.heights)?,
        hole: top_in(alloc, said.hole)?,
        rows: rows_in(alloc, rules, said.rest)?,
    })
}
