//! A shortest line to a won board, by levels: first all boards after one move, then all after two, and so on.
//!
//! Means: an answer speaks of one start under its rules. Boards that differ in the order of like places alone count as
//! one, and a level is made from the one before it by every legal move.
//! Above: `shortest` answers with a line of the fewest moves, with no line only where there is none of any length, and
//! open only where so many boards are kept as may be and a further one was met.
//! Refuses: for want of memory alone.
//! Not promised: speed. Each kept board takes the bytes of its key and at most 32 bytes beside them, but the lists that
//! hold them double where they are full.
#![tactic(auto)]

mod answer;
mod kept;
mod searching;
#[cfg(test)]
mod tests;
mod text;
mod walking;

ghost use Rattle.std.specs.Prelude.{◌≤◌, IfOk};
ghost use Rattle.game_rules.specs.Belonging.{Belongs};
ghost use Rattle.shortest_line.specs.LineEnds.{HasFewEnds};
ghost use Rattle.shortest_line.specs.Answers.{IsAnswer, IsDecided};

pub use answer::Shortest;
use card_piles::NoMemory;
use game_model::{Board, Rules};
use legal_moves::Line;
use searching::search_levels;
use std::alloc::Global;
pub use text::write_shortest;

/// Looks for a line of the fewest moves from the start to a won board. At most `nodes` boards are kept, which is from 1
/// to 4,000,000.
///
/// A start that is won has a line of no moves, and no board is kept. Where a further board is met and the limit is
/// reached, the rest of its level is still reached and tested for a win.
pub fn shortest(
    alloc: Global,
    rules: &Rules,
    start: &Board,
    nodes: u64,
) -> Result<Shortest, NoMemory>
    requires belongs { Belongs rules.now start.now }
    requires some_nodes { 1 ≤ nodes }
    requires few_nodes { nodes ≤ 4000000 }
    ensures answer { IfOk result (IsAnswer rules.now start.now nodes) }

    // Where the ends of all lines are the same as so few boards, the answer is not open.
    ensures decides { HasFewEnds rules.now start.now nodes → IfOk result IsDecided }
{
    if start.is_won(rules) {
        return Ok(Shortest::Least {
            line: Line::from_vec(Vec::new(alloc)),
            nodes: 0,
        });
    }
    search_levels(alloc, rules, start, nodes)
}
