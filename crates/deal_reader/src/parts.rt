//! The parts that the object of a deal file gives.
ghost use Rattle.std.specs.Prelude.{◌≡◌, [], IfOk, codes, replicate, option_map, map};
ghost use Rattle.serde_json.specs.View.{view};
ghost use Rattle.game_rules.specs.Rules.{is_started};
ghost use Rattle.game_rules.specs.Belonging.{most_redeals};
ghost use Rattle.deal_reader.specs.Entries.{card_at, entry_at, number_at, list_at, lists_at};
ghost use Rattle.deal_reader.specs.ReadAs.{IsReadAs};
ghost use Rattle.deal_reader.specs.Position.{or_default, if_there, default_foundations, keys_known, deal_of_tree};

use crate::deal::DealParts;
use crate::entries::{self, Entry};
use crate::fault::DealFault;
use game_model::Rules;
use game_rules::{Goal, Part, Redeals};
use item_list::Items;
use json_tree::has_only_keys;
use serde_json::Value;
use std::alloc::{AllocError, Global};

fn list<E: Entry>(alloc: Global, part: Part, value: Option<&Value>) -> Result<Items<E>, DealFault>
    ensures { IsReadAs result
        (or_default [] (list_at part (E.read part) 0) (option_map (λ v. view v.now) value.entry)) }
{
    match value {
        Some(value) => entries::list_at(alloc, part, 0, value),
        None => Ok(Items::new(alloc)),
    }
}

fn lists<E: Entry>(
    alloc: Global,
    part: Part,
    value: Option<&Value>,
) -> Result<Items<Items<E>>, DealFault>
    ensures { IsReadAs result
        (or_default [] (lists_at part (E.read part)) (option_map (λ v. view v.now) value.entry)) }
{
    match value {
        Some(value) => entries::lists_at(alloc, part, value),
        None => Ok(Items::new(alloc)),
    }
}

fn face_down(alloc: Global, value: Option<&Value>) -> Result<Option<Items<u64>>, DealFault>
    ensures { IsReadAs result (if_there (list_at Part.FaceDown (number_at Part.FaceDown) 0)
        (option_map (λ v. view v.now) value.entry)) }
{
    let Some(value) = value else {
        return Ok(None);
    };
    let numbers = entries::list_at(alloc, Part::FaceDown, 0, value)?;
    Ok(Some(numbers))
}

fn most_redeals(redeals: Redeals) -> u8
    ensures { result ≡ most_redeals redeals }
{
    match redeals {
        Redeals::Times(redeals) => redeals,
        Redeals::Unlimited => 0,
    }
}

fn redeals_left(rules: &Rules, value: Option<&Value>) -> Result<u64, DealFault>
    ensures { result ≡ or_default (most_redeals rules.now.redeals) (number_at Part.RedealsLeft 0)
        (option_map (λ v. view v.now) value.entry) }
{
    match value {
        Some(value) => u64::read_at(Part::RedealsLeft, 0, value),
        None => Ok(u64::from(most_redeals(rules.redeals()))),
    }
}

fn is_started(goal: Goal) -> bool
    ensures { result ≡ is_started goal }
{
    match goal {
        Goal::Foundations { started, .. } => started,
        Goal::Hole { .. } => false,
        Goal::Sequences => false,
    }
}

fn default_foundations(alloc: Global, rules: &Rules) -> Result<Items<u64>, AllocError>
    ensures { IfOk result (λ heights. heights ≡ default_foundations rules.now) }
{
    if is_started(rules.goal()) {
        let heights = vec![in alloc; 1; usize::from(rules.foundation_count())]?;
        Ok(Items::from_vec(heights))
    } else {
        Ok(Items::new(alloc))
    }
}

fn foundations(alloc: Global, rules: &Rules, value: Option<&Value>) -> Result<Items<u64>, DealFault>
    ensures { IsReadAs result (or_default (default_foundations rules.now) (list_at Part.Foundations
        (number_at Part.Foundations) 0) (option_map (λ v. view v.now) value.entry)) }
{
    match value {
        Some(value) => entries::list_at(alloc, Part::Foundations, 0, value),
        None => {
            let heights = default_foundations(alloc, rules)?;
            Ok(heights)
        }
    }
}

/// Whether each key of the object is a part of a position.
pub fn keys_known(top: &Value) -> Result<(), DealFault>
    ensures { result ≡ keys_known (view top.now) }
{
    let keys = [
        "tableau",
        "face down",
        "cells",
        "reserve",
        "stock",
        "waste",
        "redeals left",
        "foundations",
        "hole",
        "rows",
    ];
    if has_only_keys(top, &keys) {
        Ok(())
    } else {
        Err(DealFault::UnknownKey)
    }
}

/// The parts that the object gives, or the first fault of a key.
#[tactic(auto, unfolding(crate::specs::Position::deal_of_tree))]
pub fn deal_of(alloc: Global, rules: &Rules, top: &Value) -> Result<DealParts, DealFault>
    ensures { IsReadAs result (deal_of_tree rules.now (view top.now)) }
{
    let tableau = lists(alloc, Part::Tableau, top.get("tableau"))?;
    let face_down = face_down(alloc, top.get("face down"))?;
    let cells = list(alloc, Part::Cells, top.get("cells"))?;
    let reserve = list(alloc, Part::Reserve, top.get("reserve"))?;
    let stock = list(alloc, Part::Stock, top.get("stock"))?;
    let waste = list(alloc, Part::Waste, top.get("waste"))?;
    let redeals_left = redeals_left(rules, top.get("redeals left"))?;
    let foundations = foundations(alloc, rules, top.get("foundations"))?;
    let hole = list(alloc, Part::Hole, top.get("hole"))?;
    let rows = lists(alloc, Part::Rows, top.get("rows"))?;
    Ok(DealParts {
        tableau,
        face_down,
        cells,
        reserve,
        stock,
        waste,
        redeals_left,
        foundations,
        hole,
        rows,
    })
}
