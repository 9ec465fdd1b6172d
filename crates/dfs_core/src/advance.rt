//! Going on to what is met next: a win, a state that is not known, or the end.

ghost use Rattle.std.specs.Prelude.{◌≡◌, ◌+◌, ◌<◌, OnErr, IfOk, IfSome, IfNone, length};
ghost use Rattle.dfs_core.specs.Standing.{IsSearch};
ghost use Rattle.dfs_core.specs.Laid.{ShowsSome, GoesOn, Meets, ComesBack, values};

use crate::space::Space;
use crate::stack::{Frame, Stack};
use transposition::{Known, Memo, NoMemory};

/// A state that a step led to. It is not won, and the memo does not know its key.
#[derive(Drop)]
pub(crate) struct NewState<T, U, K> {
    pub(crate) step: T,
    pub(crate) undo: U,
    pub(crate) key: K,
}

/// What is met next.
#[derive(Drop)]
pub(crate) enum Met<T, U, K> {
    /// The next step leads to a won state. It was taken back.
    Won(T),
    /// The step led to a new state, and the space stands there.
    New(NewState<T, U, K>),
    /// Every step of the start was tried.
    Exhausted,
}

/// Tries the next step of the current state. A state that is known already is left again.
fn try_step<S: Space, M: Memo<S::Key>>(
    space: &mut S,
    memo: &mut M,
    stack: &mut Stack<S::Step, S::Undo>,
) -> Option<Met<S::Step, S::Undo, S::Key>>
    requires untried { stack.old.top.next < length stack.old.steps.items }
    requires searching { ShowsSome (IsSearch S.Space S.Key.eq)
        (values M.Memo space.old stack.old memo.old) }
    ensures capacity { M.capacity memo.new ≡ M.capacity memo.old }
    ensures frames { stack.new.frames.items ≡ stack.old.frames.items }
    ensures items { stack.new.steps.items ≡ stack.old.steps.items }
    ensures begin { stack.new.top.begin ≡ stack.old.top.begin }
    ensures tried { IfNone result (stack.new.top.next ≡ stack.old.top.next + 1) }
    ensures known { IfNone result (GoesOn S.Space S.Key.eq
        (values M.Memo space.old stack.old memo.old) (values M.Memo space.new stack.new memo.new)) }
    ensures met { IfSome result (λ met. Meets S.Space S.Key.eq met
        (values M.Memo space.old stack.old memo.old) (values M.Memo space.new stack.new memo.new)) }
{
    let step = stack.steps[stack.top.next];
    let undo = space.go(step);
    // A win comes before the memo: a won state may share its key with a known one.
    if space.is_won() {
        space.back(undo);
        return Some(Met::Won(step));
    }
    let key = space.key();
    match memo.look(&key) {
        Known::New => Some(Met::New(NewState { step, undo, key })),
        Known::Live | Known::Finished => {
            space.back(undo);
            stack.top.next += 1;
            None
        }
    }
}

/// Goes on to the next state that is not known, or ends.
pub(crate) fn advance<S: Space, M: Memo<S::Key>>(
    space: &mut S,
    memo: &mut M,
    stack: &mut Stack<S::Step, S::Undo>,
) -> Result<Met<S::Step, S::Undo, S::Key>, NoMemory>
    requires { ShowsSome (IsSearch S.Space S.Key.eq) (values M.Memo space.old stack.old memo.old) }
    ensures capacity { M.capacity memo.new ≡ M.capacity memo.old }
    ensures met { IfOk result (λ met. Meets S.Space S.Key.eq met
        (values M.Memo space.old stack.old memo.old) (values M.Memo space.new stack.new memo.new)) }
    ensures err { OnErr result (ComesBack S.Space (IsSearch S.Space S.Key.eq)
        (values M.Memo space.old stack.old memo.old) (values M.Memo space.new stack.new memo.new)) }
{
    'turns: loop {
        if stack.top.next < stack.steps.len() {
            if let Some(met) = try_step(space, memo, stack) {
                return Ok(met);
            }
        } else {
            let Some(frame) = stack.frames.pop() else {
                return Ok(Met::Exhausted);
            };
            let Frame { level, undo, .. } = frame;
            space.back(undo);
            stack.steps.truncate(stack.top.begin);
            stack.top = level;
            memo.leave()?;
        }
    }
}
