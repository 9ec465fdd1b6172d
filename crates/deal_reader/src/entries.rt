//! The entries of a part, each read at its place.

ghost use Rattle.std.specs.Prelude.{◌≡◌};
ghost use Rattle.serde_json.specs.View.{view, items_view};
ghost use Rattle.deal_reader.specs.Entries.{card_at, entry_at, number_at, place_after as place_after_count};
ghost use Rattle.deal_reader.specs.ReadAs.{IsReadAs};
ghost use Rattle.deal_reader.specs.Entries.{entries_from, list_at, lists_from, lists_at};

use crate::fault::DealFault;
use card_piles::{Card, card_of};
use game_rules::Part;
use item_list::Items;
use serde_json::Value;
use std::alloc::Global;

/// An entry of a part.
pub trait Entry: Drop {
    ghost use Rattle.std.specs.Prelude.{ℕ, Result};
    ghost use Rattle.serde_json.specs.Data.{Data};
    ghost use Rattle.game_rules.specs.declared.Part.{Part};
    ghost use Rattle.deal_reader.specs.declared.fault.DealFault.{DealFault};

    /// What a value gives at its place in the part, or its fault.
    ghost read: { Part → ℕ → Data → Result Self DealFault };

    /// The entry that a value gives.
    fn read_at(part: Part, place: u64, value: &Value) -> Result<Self, DealFault>
        ensures { result ≡ read part place (view value.now) };
}

impl Entry for Card {
    ghost read = { card_at };

    fn read_at(part: Part, place: u64, value: &Value) -> Result<Card, DealFault> {
        let Some(text) = value.as_str() else {
            return Err(DealFault::WrongType(part));
        };
        match card_of(text.as_bytes()) {
            Some(card) => Ok(card),
            None => Err(DealFault::NotACard(part, place)),
        }
    }
}

impl Entry for Option<Card> {
    ghost read = { entry_at };

    fn read_at(part: Part, place: u64, value: &Value) -> Result<Option<Card>, DealFault> {
        if value.is_null() {
            return Ok(None);
        }
        match Card::read_at(part, place, value) {
            Ok(card) => Ok(Some(card)),
            Err(fault) => Err(fault),
        }
    }
}

impl Entry for u64 {
    ghost read = { number_at };

    fn read_at(part: Part, _place: u64, value: &Value) -> Result<u64, DealFault> {
        match value.as_u64() {
            Some(number) => Ok(number),
            None => Err(DealFault::WrongType(part)),
        }
    }
}

/// The place so many entries later. A file is too short for this to pass the greatest `u64`.
fn place_after(place: u64, count: usize) -> u64
    ensures { result ≡ place_after_count place count }
{
    place.saturating_add(count as u64)
}

fn entries_from<E: Entry>(
    alloc: Global,
    part: Part,
    place: u64,
    list: &[Value],
) -> Result<Items<E>, DealFault>
    ensures { IsReadAs result (entries_from (E.read part) place (items_view list.now)) }
{
    let mut entries = Items::new(alloc);
    let mut at = place;
    for value in list {
        let entry = E::read_at(part, at, value)?;
        entries.push(entry)?;
        at = place_after(at, 1);
    }
    Ok(entries)
}

/// The entries of a list.
pub fn list_at<E: Entry>(
    alloc: Global,
    part: Part,
    place: u64,
    value: &Value,
) -> Result<Items<E>, DealFault>
    ensures { IsReadAs result (list_at part (E.read part) place (view value.now)) }
{
    match value.as_array() {
        Some(list) => entries_from(alloc, part, place, list),
        None => Err(DealFault::WrongType(part)),
    }
}

fn lists_from<E: Entry>(
    alloc: Global,
    part: Part,
    list: &[Value],
) -> Result<Items<Items<E>>, DealFault>
    ensures { IsReadAs result (lists_from part (E.read part) 0 (items_view list.now)) }
{
    let mut lists = Items::new(alloc);
    let mut at = 0;
    for value in list {
        let entries = list_at(alloc, part, at, value)?;
        at = place_after(at, entries.len());
        lists.push(entries)?;
    }
    Ok(lists)
}

/// The entries of lists, whose places go on from one list to the next.
pub fn lists_at<E: Entry>(
    alloc: Global,
    part: Part,
    value: &Value,
) -> Result<Items<Items<E>>, DealFault>
    ensures { IsReadAs result (lists_at part (E.read part) (view value.now)) }
{
    match value.as_array() {
        Some(list) => lists_from(alloc, part, list),
        None => Err(DealFault::WrongType(part)),
    }
}
