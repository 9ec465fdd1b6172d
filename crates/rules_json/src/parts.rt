//! The parts of a rules file, each with its keys in order.
ghost use Rattle.std.specs.Prelude.{◌≡◌, option_map};
ghost use Rattle.serde_json.specs.View.{view};
ghost use Rattle.rules_json.specs.Parts.{top_of as top_part, tableau_of as tableau_part};
ghost use Rattle.rules_json.specs.Parts.{foundations_of as foundations_part, hole_of as hole_part};
ghost use Rattle.rules_json.specs.Parts.{sequences_of as sequences_part, cells_of as cells_part};
ghost use Rattle.rules_json.specs.Parts.{reserve_of as reserve_part, stock_of as stock_part};

use crate::values::{check_part, number, redeals, truth, word};
use crate::{RulePart, RulesFault};
use card_piles::Build;
use game_rules::{Face, Goal, Groups, HoleStart, Layout, Redeals, Spaces, Target};
use json_tree::field;
use serde_json::Value;

#[derive(Clone, Copy)]
pub struct TopKeys {
    pub decks: u8,
    pub max_rank: u8,
}

#[derive(Clone, Copy)]
pub struct TableauKeys {
    pub piles: u8,
    pub layout: Layout,
    pub face: Face,
    pub build: Build,
    pub wrap: bool,
    pub groups: Groups,
    pub group_build: Build,
    pub spaces: Spaces,
}

#[derive(Clone, Copy)]
pub struct CellsKeys {
    pub count: u8,
    pub filled: u8,
}

#[derive(Clone, Copy)]
pub struct ReserveKeys {
    pub size: u8,
    pub stacked: bool,
}

#[derive(Clone, Copy)]
pub struct StockKeys {
    pub size: u8,
    pub target: Target,
    pub draw: u8,
    pub redeals: Redeals,
}

#[tactic(auto, unfolding(crate::specs::Parts::top_of))]
pub fn top_of(top: &Value) -> Result<TopKeys, RulesFault>
    ensures { result ≡ top_part (view top.now) }
{
    let keys = [
        "decks",
        "max rank",
        "tableau",
        "foundations",
        "hole",
        "sequences",
        "cells",
        "reserve",
        "stock",
    ];
    check_part(Some(top), RulePart::Top, &keys)?;
    let decks = number(top.get("decks"), RulePart::Top, 1, 2, 1)?;
    let max_rank = number(top.get("max rank"), RulePart::Top, 1, 13, 13)?;
    Ok(TopKeys { decks, max_rank })
}

#[tactic(auto, unfolding(crate::specs::Parts::tableau_of))]
pub fn tableau_of(part: Option<&Value>) -> Result<TableauKeys, RulesFault>
    ensures { result ≡ tableau_part (option_map (λ v. view v.now) part.entry) }
{
    let keys = [
        "piles",
        "layout",
        "face",
        "build",
        "wrap",
        "groups",
        "group build",
        "spaces",
    ];
    check_part(part, RulePart::Tableau, &keys)?;
    let piles = number(field(part, "piles"), RulePart::Tableau, 0, 20, 0)?;
    let layout = word(field(part, "layout"), RulePart::Tableau, Layout::Even)?;
    let face = word(field(part, "face"), RulePart::Tableau, Face::AllUp)?;
    let build = word(field(part, "build"), RulePart::Tableau, Build::NoBuild)?;
    let wrap = truth(field(part, "wrap"), RulePart::Tableau, false)?;
    let groups = word(field(part, "groups"), RulePart::Tableau, Groups::One)?;
    let group_build = word(field(part, "group build"), RulePart::Tableau, build)?;
    let spaces = word(field(part, "spaces"), RulePart::Tableau, Spaces::Any)?;
    Ok(TableauKeys {
        piles,
        layout,
        face,
        build,
        wrap,
        groups,
        group_build,
        spaces,
    })
}

#[tactic(auto, unfolding(crate::specs::Parts::foundations_of))]
pub fn foundations_of(part: Option<&Value>) -> Result<Goal, RulesFault>
    ensures { result ≡ foundations_part (option_map (λ v. view v.now) part.entry) }
{
    let keys = ["base", "started", "take back", "complete runs"];
    check_part(part, RulePart::Foundations, &keys)?;
    let base = number(field(part, "base"), RulePart::Foundations, 1, 13, 1)?;
    let started = truth(field(part, "started"), RulePart::Foundations, false)?;
    let take_back = truth(field(part, "take back"), RulePart::Foundations, false)?;
    let complete_runs = truth(field(part, "complete runs"), RulePart::Foundations, false)?;
    Ok(Goal::Foundations {
        base,
        started,
        take_back,
        complete_runs,
    })
}

#[tactic(auto, unfolding(crate::specs::Parts::hole_of))]
pub fn hole_of(part: Option<&Value>) -> Result<Goal, RulesFault>
    ensures { result ≡ hole_part (option_map (λ v. view v.now) part.entry) }
{
    check_part(part, RulePart::Hole, &["wrap", "start"])?;
    let wrap = truth(field(part, "wrap"), RulePart::Hole, true)?;
    let start = word(field(part, "start"), RulePart::Hole, HoleStart::Dealt)?;
    Ok(Goal::Hole { wrap, start })
}

#[tactic(auto, unfolding(crate::specs::Parts::sequences_of))]
pub fn sequences_of(part: Option<&Value>) -> Result<Goal, RulesFault>
    ensures { result ≡ sequences_part (option_map (λ v. view v.now) part.entry) }
{
    check_part(part, RulePart::Sequences, &[])?;
    Ok(Goal::Sequences)
}

#[tactic(auto, unfolding(crate::specs::Parts::cells_of))]
pub fn cells_of(part: Option<&Value>) -> Result<CellsKeys, RulesFault>
    ensures { result ≡ cells_part (option_map (λ v. view v.now) part.entry) }
{
    check_part(part, RulePart::Cells, &["count", "filled"])?;
    let count = number(field(part, "count"), RulePart::Cells, 0, 16, 0)?;
    let filled = number(field(part, "filled"), RulePart::Cells, 0, 16, 0)?;
    Ok(CellsKeys { count, filled })
}

#[tactic(auto, unfolding(crate::specs::Parts::reserve_of))]
pub fn reserve_of(part: Option<&Value>) -> Result<ReserveKeys, RulesFault>
    ensures { result ≡ reserve_part (option_map (λ v. view v.now) part.entry) }
{
    check_part(part, RulePart::Reserve, &["size", "stacked"])?;
    let size = number(field(part, "size"), RulePart::Reserve, 0, 52, 0)?;
    let stacked = truth(field(part, "stacked"), RulePart::Reserve, false)?;
    Ok(ReserveKeys { size, stacked })
}

#[tactic(auto, unfolding(crate::specs::Parts::stock_of))]
pub fn stock_of(part: Option<&Value>) -> Result<StockKeys, RulesFault>
    ensures { result ≡ stock_part (option_map (λ v. view v.now) part.entry) }
{
    check_part(part, RulePart::Stock, &["size", "to", "draw", "redeals"])?;
    let size = number(field(part, "size"), RulePart::Stock, 0, 84, 0)?;
    let target = word(field(part, "to"), RulePart::Stock, Target::ToWaste)?;
    let draw = number(field(part, "draw"), RulePart::Stock, 1, 10, 1)?;
    let redeals = redeals(field(part, "redeals"))?;
    Ok(StockKeys {
        size,
        target,
        draw,
        redeals,
    })
}
