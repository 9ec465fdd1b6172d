//! Expanding a new state.

ghost use Rattle.std.specs.Prelude.{◌≡◌, IfOk};
ghost use Rattle.std.specs.Bool.{OnTrue};
ghost use Rattle.transposition.specs.Memo.{IsAbsent};
ghost use Rattle.dfs_core.specs.Standing.{IsNew, IsExpanded, IsSpent};
ghost use Rattle.dfs_core.specs.Laid.{ShowsSome, ComesBack, Expands, memory_of, values};

use crate::advance::NewState;
use crate::space::Space;
use crate::stack::{Stack, descend};
use node_budget::Budget;
use std::alloc::Global;
use transposition::{Memo, NoMemory};

/// Expands the state where the space stands: spends a node, lists the steps and enters the key.
/// The answer is false, and nothing is done, where the budget is spent.
pub(crate) fn expand<S: Space, M: Memo<S::Key>>(
    alloc: Global,
    space: &mut S,
    memo: &mut M,
    steps: &mut Vec<S::Step>,
    key: S::Key,
    budget: &mut Budget,
) -> Result<bool, NoMemory>
    requires not_live { IsAbsent S.Key.eq key (M.live memo.old) }
    requires not_finished { IsAbsent S.Key.eq key (M.finished memo.old) }
    ensures same { space.new ≡ space.old }
    ensures capacity { M.capacity memo.new ≡ M.capacity memo.old }
    ensures limit { budget.new.limit ≡ budget.old.limit }
    ensures spent { IfOk result (IsSpent budget.old.spent budget.new.spent budget.new.limit) }
    ensures expanded { IfOk result (λ expanded. OnTrue expanded
        (IsExpanded ((S.play space.old).steps (S.state space.old)) key
        steps.old.items (memory_of M.Memo memo.old) steps.new.items (memory_of M.Memo memo.new))) }
{
    if budget.spend().is_err() {
        return Ok(false);
    }
    memo.make_room()?;
    space.steps(alloc, steps)?;
    memo.enter(key);
    Ok(true)
}

/// Goes on to a new state and expands it.
pub(crate) fn step_on<S: Space, M: Memo<S::Key>>(
    alloc: Global,
    space: &mut S,
    memo: &mut M,
    stack: &mut Stack<S::Step, S::Undo>,
    met: NewState<S::Step, S::Undo, S::Key>,
    budget: &mut Budget,
) -> Result<bool, NoMemory>
    requires { ShowsSome (IsNew S.Space S.Key.eq met) (values M.Memo space.old stack.old memo.old) }
    ensures leads { ComesBack S.Space (IsNew S.Space S.Key.eq met)
        (values M.Memo space.old stack.old memo.old) (values M.Memo space.new stack.new memo.new) }
    ensures capacity { M.capacity memo.new ≡ M.capacity memo.old }
    ensures limit { budget.new.limit ≡ budget.old.limit }
    ensures spent { IfOk result (IsSpent budget.old.spent budget.new.spent budget.new.limit) }
    ensures expands { IfOk result (λ expanded. OnTrue expanded
        (Expands S.Space S.Key.eq met
        (values M.Memo space.old stack.old memo.old) (values M.Memo space.new stack.new memo.new))) }
{
    let NewState { step, undo, key } = met;
    descend(space, stack, step, undo)?;
    expand(alloc, space, memo, &mut stack.steps, key, budget)
}
