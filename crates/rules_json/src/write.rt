//! From rules to their one spelling.
ghost use Rattle.std.specs.Prelude.{◌≡◌, IfOk, Ok, Some};
ghost use Rattle.serde_json.specs.Data.{string};
ghost use Rattle.serde_json.specs.View.{view, members_view};
ghost use Rattle.rules_json.specs.RulesFile.{rules_of};
ghost use Rattle.rules_json.specs.Spelling.{rules_text, rules_tree, tableau_tree as tableau_tree_of};
ghost use Rattle.rules_json.specs.Spelling.{cells_tree as cells_tree_of, reserve_tree as reserve_tree_of};
ghost use Rattle.rules_json.specs.Spelling.{redeals_tree as redeals_tree_of, stock_tree as stock_tree_of};
ghost use Rattle.rules_json.specs.Spelling.{goal_key as goal_key_of, goal_tree as goal_tree_of};
ghost use Rattle.rules_json.specs.Spelling.{common_parts as common_parts_of};
ghost use Rattle.rules_json.specs.Words.{start_named, start_word};
ghost use Rattle.rules_json.specs.NamedStart.{HasNamedStart};

use crate::words::{build_word, face_word, groups_word, layout_word, spaces_word, target_word};
use card_piles::{NoMemory, text_of};
use game_model::Rules;
use game_rules::{Goal, HoleStart, Redeals, RuleParts};
use serde_json::{Map, Value, json, put};
use std::alloc::{AllocError, Global};

fn tableau_tree(alloc: Global, rules: &RuleParts) -> Result<Value, AllocError>
    ensures { IfOk result (λ tree. view tree ≡ tableau_tree_of rules.now) }
{
    let piles = rules.piles;
    let layout = layout_word(rules.layout);
    let face = face_word(rules.face);
    let build = build_word(rules.build);
    let wrap = rules.wrap;
    let groups = groups_word(rules.groups);
    let group_build = build_word(rules.group_build);
    let spaces = spaces_word(rules.spaces);
    json!(in alloc; {
        "piles": piles,
        "layout": layout,
        "face": face,
        "build": build,
        "wrap": wrap,
        "groups": groups,
        "group build": group_build,
        "spaces": spaces
    })
}

fn cells_tree(alloc: Global, rules: &RuleParts) -> Result<Value, AllocError>
    ensures { IfOk result (λ tree. view tree ≡ cells_tree_of rules.now) }
{
    let count = rules.cells;
    let filled = rules.cells_filled;
    json!(in alloc; {"count": count, "filled": filled})
}

fn reserve_tree(alloc: Global, rules: &RuleParts) -> Result<Value, AllocError>
    ensures { IfOk result (λ tree. view tree ≡ reserve_tree_of rules.now) }
{
    let size = rules.reserve;
    let stacked = rules.stacked;
    json!(in alloc; {"size": size, "stacked": stacked})
}

fn redeals_tree(alloc: Global, redeals: Redeals) -> Result<Value, AllocError>
    ensures { IfOk result (λ tree. view tree ≡ redeals_tree_of redeals) }
{
    match redeals {
        Redeals::Times(times) => Ok(Value::from(times)),
        Redeals::Unlimited => Value::try_from_str(alloc, "unlimited"),
    }
}

fn stock_tree(alloc: Global, rules: &RuleParts) -> Result<Value, AllocError>
    ensures { IfOk result (λ tree. view tree ≡ stock_tree_of rules.now) }
{
    let size = rules.stock;
    let target = target_word(rules.target);
    let draw = rules.draw;
    let redeals = redeals_tree(alloc, rules.redeals)?;
    json!(in alloc; {"size": size, "to": target, "draw": draw, "redeals": redeals})
}

fn start_tree(alloc: Global, start: HoleStart) -> Result<Value, AllocError>
    ensures tree { IfOk result (λ tree. view tree ≡ string (start_word start)) }
    ensures named { start_named (start_word start) ≡ Some start }
{
    match start {
        HoleStart::Dealt => Value::try_from_str(alloc, "deal"),
        HoleStart::Named(card) => {
            let text = text_of(card);
            Value::try_from_str(alloc, std::str::from_utf8(&text).unwrap())
        }
    }
}

fn goal_key(goal: Goal) -> &'static str
    ensures { result.now ≡ goal_key_of goal }
{
    match goal {
        Goal::Foundations { .. } => "foundations",
        Goal::Hole { .. } => "hole",
        Goal::Sequences => "sequences",
    }
}

fn goal_tree(alloc: Global, goal: Goal) -> Result<Value, AllocError>
    ensures tree { IfOk result (λ tree. view tree ≡ goal_tree_of goal) }
    ensures named { IfOk result (λ tree. HasNamedStart goal) }
{
    match goal {
        Goal::Foundations {
            base,
            started,
            take_back,
            complete_runs,
        } => json!(in alloc; {
            "base": base,
            "started": started,
            "take back": take_back,
            "complete runs": complete_runs
        }),
        Goal::Hole { wrap, start } => {
            let start = start_tree(alloc, start)?;
            json!(in alloc; {"wrap": wrap, "start": start})
        }
        Goal::Sequences => json!(in alloc; {}),
    }
}

fn common_parts(alloc: Global, rules: &RuleParts) -> Result<Map<String, Value>, AllocError>
    ensures { IfOk result (λ parts. members_view parts.entries ≡ common_parts_of rules.now) }
{
    let tableau = tableau_tree(alloc, rules)?;
    let cells = cells_tree(alloc, rules)?;
    let reserve = reserve_tree(alloc, rules)?;
    let stock = stock_tree(alloc, rules)?;
    let mut parts = Map::new(alloc);
    put(&mut parts, alloc, "decks", Value::from(rules.decks))?;
    put(&mut parts, alloc, "max rank", Value::from(rules.max_rank))?;
    put(&mut parts, alloc, "tableau", tableau)?;
    put(&mut parts, alloc, "cells", cells)?;
    put(&mut parts, alloc, "reserve", reserve)?;
    put(&mut parts, alloc, "stock", stock)?;
    Ok(parts)
}

fn tree_of(alloc: Global, rules: &RuleParts) -> Result<Value, AllocError>
    ensures tree { IfOk result (λ tree. view tree ≡ rules_tree rules.now) }
    ensures named { IfOk result (λ tree. HasNamedStart rules.now.goal) }
{
    let mut parts = common_parts(alloc, rules)?;
    let goal = goal_tree(alloc, rules.goal)?;
    put(&mut parts, alloc, goal_key(rules.goal), goal)?;
    Ok(Value::Object(parts))
}

/// The one spelling of the rules, which is read as these rules.
pub fn write_rules(alloc: Global, rules: &Rules) -> Result<Vec<u8>, NoMemory>
    ensures text { IfOk result (λ text. text.items ≡ rules_text rules.now) }
    ensures reads_back { IfOk result (λ text. rules_of text.items ≡ Ok rules.now) }
{
    let parts = rules.parts();
    let tree = tree_of(alloc, &parts)?;
    let text = tree.to_vec(alloc)?;
    Ok(text)
}
