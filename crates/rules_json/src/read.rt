//! From bytes to rules.
ghost use Rattle.std.specs.Prelude.{◌≡◌, IsErrOf, Bool};
ghost use Rattle.serde_json.specs.View.{view};
ghost use Rattle.rules_json.specs.RulesFile.{rules_of, rules_of_tree, parts_of_tree, chosen_goal as chosen_goal_of};

use crate::RulesFault;
use crate::parts::{
    cells_of, foundations_of, hole_of, reserve_of, sequences_of, stock_of, tableau_of, top_of,
};
use game_model::Rules;
use game_rules::{Goal, RuleParts};
use json_tree::read_object;
use serde_json::Value;
use std::alloc::Global;

// Which of the three parts that choose the goal are there.
fn chosen_goal(
    has_foundations: bool,
    has_hole: bool,
    has_sequences: bool,
    foundations: Goal,
    hole: Goal,
) -> Result<Goal, RulesFault>
    ensures { result ≡ chosen_goal_of has_foundations has_hole has_sequences foundations hole }
{
    match (has_foundations, has_hole, has_sequences) {
        (_, false, false) => Ok(foundations),
        (false, true, false) => Ok(hole),
        (false, false, true) => Ok(Goal::Sequences),
        _ => Err(RulesFault::Conflict(1)),
    }
}

#[tactic(auto, unfolding(crate::specs::RulesFile::parts_of_tree))]
fn parts_of_value(top: &Value) -> Result<RuleParts, RulesFault>
    ensures { result ≡ parts_of_tree (view top.now) }
{
    let numbers = top_of(top)?;
    let tableau = tableau_of(top.get("tableau"))?;
    let foundations = foundations_of(top.get("foundations"))?;
    let hole = hole_of(top.get("hole"))?;
    sequences_of(top.get("sequences"))?;
    let cells = cells_of(top.get("cells"))?;
    let reserve = reserve_of(top.get("reserve"))?;
    let stock = stock_of(top.get("stock"))?;
    let goal = chosen_goal(
        top.get("foundations").is_some(),
        top.get("hole").is_some(),
        top.get("sequences").is_some(),
        foundations,
        hole,
    )?;
    Ok(RuleParts {
        decks: numbers.decks,
        max_rank: numbers.max_rank,
        piles: tableau.piles,
        layout: tableau.layout,
        face: tableau.face,
        build: tableau.build,
        wrap: tableau.wrap,
        groups: tableau.groups,
        group_build: tableau.group_build,
        spaces: tableau.spaces,
        goal,
        cells: cells.count,
        cells_filled: cells.filled,
        reserve: reserve.size,
        stacked: reserve.stacked,
        stock: stock.size,
        target: stock.target,
        draw: stock.draw,
        redeals: stock.redeals,
    })
}

fn rules_of_value(top: &Value) -> Result<Rules, RulesFault>
    ensures { result ≡ rules_of_tree (view top.now) }
{
    let parts = parts_of_value(top)?;
    match Rules::new(parts) {
        Ok(rules) => Ok(rules),
        Err(conflict) => Err(RulesFault::Conflict(conflict.number)),
    }
}

/// The rules that the bytes of a file give, or the first of their faults.
pub fn read_rules(alloc: Global, bytes: &[u8]) -> Result<Rules, RulesFault>
    ensures value { (IsErrOf result RulesFault.Memory → ⊥) → result ≡ rules_of bytes.now }
{
    let top = read_object(alloc, bytes)?;
    rules_of_value(&top)
}
