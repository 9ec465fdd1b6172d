//! The search.

ghost use Rattle.std.specs.Prelude.{false, ◌≡◌, ℕ, List, [], IfOk};
ghost use Rattle.dfs_core.specs.Play.{game_of};
ghost use Rattle.dfs_core.specs.Laid.{LeadsBack};
ghost use Rattle.dfs_core.specs.Answer.{IsAnswer};
ghost use Rattle.trails.specs.Complete.{IsComplete};

use crate::advance::{Met, advance};
use crate::expand::{expand, step_on};
use crate::space::Space;
use crate::stack::{Level, Stack, rewind, trail_of};
use crate::trail::{Found, Trail};
use node_budget::Budget;
use std::alloc::Global;
use transposition::{Memo, NoMemory};

/// Searches depth first from where the space stands, with a memo that may forget, and comes back to it. A state is
/// tested for a win, then the memo is asked, then a node is spent. After an `Err` the space is back too.
pub fn search<S: Space, M: Memo<S::Key> + Drop>(
    alloc: Global,
    space: &mut S,
    mut memo: M,
    budget: &mut Budget,
) -> Result<Found<S::Step>, NoMemory>
    requires not_live { M.live memo ≡ [] }
    requires not_finished { M.finished memo ≡ [] }

    // After every answer the space is back at its start.
    ensures back { space.new ≡ space.old }
    ensures limit { budget.new.limit ≡ budget.old.limit }

    // The answer ends a walk of as many trails as were spent.
    ensures answer { IfOk result (IsAnswer (game_of (S.play space.old) S.Key.eq) (S.state space.old)
        (M.capacity memo) budget.old.spent budget.new.spent budget.new.limit) }

    // In a complete space no win exists where the search is exhausted.
    ensures no_win { IfOk result (λ found. found ≡ Found.Exhausted
        → IsComplete (game_of (S.play space.old) S.Key.eq) (S.wins space.old) (S.state space.old)
        → (n : ℕ) → ¬ S.wins space.old n (S.state space.old)) }
{
    if space.is_won() {
        let steps = Vec::new(alloc);
        return Ok(Found::Won(Trail::from_vec(steps)));
    }
    let mut stack = Stack {
        frames: Vec::new(alloc),
        steps: Vec::new(alloc),
        top: Level { begin: 0, next: 0 },
    };
    let found = run(alloc, space, &mut memo, &mut stack, budget);
    rewind(space, &mut stack.frames);
    found
}

/// Searches from a start that is not won. The frames lead from the start to where the space then stands.
fn run<S: Space, M: Memo<S::Key>>(
    alloc: Global,
    space: &mut S,
    memo: &mut M,
    stack: &mut Stack<S::Step, S::Undo>,
    budget: &mut Budget,
) -> Result<Found<S::Step>, NoMemory>
    requires not_won { (S.play space.old).won (S.state space.old) ≡ false }
    requires no_frames { stack.old.frames.items ≡ [] }
    requires no_steps { stack.old.steps.items ≡ [] }
    requires at_begin { stack.old.top.begin ≡ 0 }
    requires none_tried { stack.old.top.next ≡ 0 }
    requires not_live { M.live memo.old ≡ [] }
    requires not_finished { M.finished memo.old ≡ [] }
    ensures leads { LeadsBack S.Space stack.new.frames.items space.new space.old }
    ensures limit { budget.new.limit ≡ budget.old.limit }
    ensures answer { IfOk result (IsAnswer (game_of (S.play space.old) S.Key.eq) (S.state space.old)
        (M.capacity memo.old) budget.old.spent budget.new.spent budget.new.limit) }
{
    let key = space.key();
    if !expand(alloc, space, memo, &mut stack.steps, key, budget)? {
        return Ok(Found::SpentAll);
    }
    'boards: loop {
        match advance(space, memo, stack)? {
            Met::Won(step) => {
                let trail = trail_of(alloc, &stack.frames, step)?;
                return Ok(Found::Won(trail));
            }
            Met::New(met) => {
                if !step_on(alloc, space, memo, stack, met, budget)? {
                    return Ok(Found::SpentAll);
                }
            }
            Met::Exhausted => return Ok(Found::Exhausted),
        }
    }
}
