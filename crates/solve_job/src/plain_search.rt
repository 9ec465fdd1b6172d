//! The plain search, which judges a start.
ghost use Rattle.std.specs.Prelude.{◌≡◌, ◌≤◌, IfOk, min};
ghost use Rattle.game_rules.specs.Belonging.{Belongs};
ghost use Rattle.solve_job.specs.Verdicts.{IsVerdict, IsPassed, IsDecided, IsSmall};

use crate::limits::Limits;
use crate::search_anew::{Searched, search_anew};
use crate::trail_line::line_of;
use card_piles::NoMemory;
use dfs_core::Found;
use game_model::{Board, Rules};
use line_printer::Verdict;
use search_space::PlainSpace;
use std::alloc::Global;

/// Searches for a line to a won board, where the restricted search came first with so many nodes or none came.
pub fn search_plain(
    alloc: Global,
    rules: &Rules,
    start: &Board,
    limits: &Limits,
    narrow_nodes: u64,
) -> Result<Verdict, NoMemory>
    requires belongs { Belongs rules.now start.now }
    requires some_cache { 1 ≤ limits.now.cache }
    requires passed { IsPassed rules.now start.now limits.now narrow_nodes }
    ensures verdict { IfOk result (IsVerdict rules.now start.now limits.now) }
    ensures decides { IsSmall rules.now start.now (min limits.now.nodes limits.now.cache)
        → IfOk result IsDecided }
{
    // This call brings that the rules are playable.
    let _ = rules.parts();
    let mut space = PlainSpace::new(rules, start);
    let Ok(searched) = search_anew(alloc, &mut space, limits.memo, limits.cache, limits.nodes)
    else {
        return Err(NoMemory);
    };
    let Searched { found, nodes } = searched;
    match found {
        Found::Won(trail) => Ok(Verdict::Winnable {
            line: line_of(alloc, rules, start, trail.items())?,
            nodes,
            narrow_nodes,
        }),
        Found::Exhausted => Ok(Verdict::Unwinnable {
            nodes,
            narrow_nodes,
        }),
        Found::SpentAll => Ok(Verdict::Undecided {
            nodes,
            narrow_nodes,
        }),
    }
}
