//! The restricted search, which can only find wins.
ghost use Rattle.std.specs.Prelude.{◌≡◌, ◌≤◌, IfOk};
ghost use Rattle.game_rules.specs.Belonging.{Belongs};
ghost use Rattle.solve_job.specs.Narrowing.{IsNarrowed};

use crate::limits::Limits;
use crate::search_anew::{Searched, search_anew};
use crate::trail_line::line_of;
use card_piles::NoMemory;
use dfs_core::Found;
use game_model::{Board, Rules};
use legal_moves::Line;
use search_space::NarrowSpace;
use std::alloc::Global;

/// What came of the restricted search, and how many boards it expanded.
#[derive(Debug, Drop)]
pub enum Narrowed {
    /// The line leads to a won board.
    Won { line: Line, nodes: u64 },
    /// None came, or it found no win. Whatever else it found is put aside.
    Passed { nodes: u64 },
}

/// Searches the restricted game, where the limits ask for it.
pub fn search_narrow(
    alloc: Global,
    rules: &Rules,
    start: &Board,
    limits: &Limits,
) -> Result<Narrowed, NoMemory>
    requires belongs { Belongs rules.now start.now }
    requires some_cache { 1 ≤ limits.now.cache }
    ensures { IfOk result (IsNarrowed rules.now start.now limits.now) }
{
    if limits.narrow == 0 {
        return Ok(Narrowed::Passed { nodes: 0 });
    }
    // This call brings that the rules are playable.
    let _ = rules.parts();
    let mut space = NarrowSpace::new(rules, start, limits.way);
    let Ok(searched) = search_anew(alloc, &mut space, limits.memo, limits.cache, limits.narrow)
    else {
        return Err(NoMemory);
    };
    let Searched { found, nodes } = searched;
    match found {
        Found::Won(trail) => {
            let line = line_of(alloc, rules, start, trail.items())?;
            Ok(Narrowed::Won { line, nodes })
        }
        Found::Exhausted => Ok(Narrowed::Passed { nodes }),
        Found::SpentAll => Ok(Narrowed::Passed { nodes }),
    }
}
