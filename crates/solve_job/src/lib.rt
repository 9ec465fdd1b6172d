//! The solver: a depth-first search over the steps that lose no win, with a memo of a stated size.
//!
//! Means: a verdict speaks of one start under its rules. `Limits` are what the searches may spend and remember. A
//! restricted search may come first; it can only find wins.
//! Above: `solve` answers winnable with a line of legal moves to a won board, unwinnable only where no
//! such line of any length exists, and undecided only where all nodes are spent. A walk stands behind each.
//! Refuses: for want of memory alone.
//! Not promised: speed, that a line is short, and how many nodes are spent once the memo forgot a board.
#![tactic(auto)]

pub mod laws;
mod limits;
mod narrow_search;
mod plain_search;
mod search_anew;
#[cfg(test)]
mod tests;
mod trail_line;

ghost use Rattle.std.specs.Prelude.{◌≤◌, IfOk, min};
ghost use Rattle.game_rules.specs.Belonging.{Belongs};
ghost use Rattle.solve_job.specs.Verdicts.{IsVerdict, IsDecided, IsSmall};

use card_piles::NoMemory;
use game_model::{Board, Rules};
pub use limits::{Limits, MemoKind};
use line_printer::Verdict;
use narrow_search::{Narrowed, search_narrow};
use plain_search::search_plain;
use std::alloc::Global;

/// Searches for a line to a won board: first as the limits restrict it, if they do, and then, unless that found a win,
/// with every step that may be needed. Only the plain search says that no line wins, or that it does not know.
pub fn solve(
    alloc: Global,
    rules: &Rules,
    start: &Board,
    limits: &Limits,
) -> Result<Verdict, NoMemory>
    requires belongs { Belongs rules.now start.now }
    requires some_cache { 1 ≤ limits.now.cache }
    requires some_nodes { 1 ≤ limits.now.nodes }
    ensures verdict { IfOk result (IsVerdict rules.now start.now limits.now) }

    // Where so few boards cover the game, the verdict is not undecided.
    ensures decides { IsSmall rules.now start.now (min limits.now.nodes limits.now.cache)
        → IfOk result IsDecided }
{
    match search_narrow(alloc, rules, start, limits)? {
        Narrowed::Won { line, nodes } => Ok(Verdict::Winnable {
            line,
            nodes: 0,
            narrow_nodes: nodes,
        }),
        Narrowed::Passed { nodes } => search_plain(alloc, rules, start, limits, nodes),
    }
}
