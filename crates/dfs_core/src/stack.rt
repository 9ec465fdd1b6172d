//! The stack of the search, from its start to where it stands, and the steps of the states on it.

ghost use Rattle.std.specs.Prelude.{◌≡◌, ◌+◌, ◌<◌, [], ◌∷◌, ◌++◌, OnOk, OnErr, IfOk, IsSome, length};
ghost use Rattle.dfs_core.specs.Undoing.{taken_back, before_frame};
ghost use Rattle.dfs_core.specs.Laid.{Descends, stack_view, steps_of};

use crate::space::Space;
use crate::trail::Trail;
use std::alloc::Global;
use transposition::NoMemory;

/// Where the steps of an expanded state begin among those of the stack, and the next one to try.
#[derive(Clone, Copy)]
pub(crate) struct Level {
    pub(crate) begin: usize,
    pub(crate) next: usize,
}

/// An expanded state below the current one, and the step that leads on from it.
#[derive(Drop)]
pub(crate) struct Frame<T, U> {
    pub(crate) level: Level,
    pub(crate) step: T,
    pub(crate) undo: U,
}

/// The stack of the search: the states below, the steps of all of them one after the other, and the current one.
#[derive(Drop)]
pub(crate) struct Stack<T, U> {
    pub(crate) frames: Vec<Frame<T, U>>,
    pub(crate) steps: Vec<T>,
    pub(crate) top: Level,
}

/// Takes back the step of each frame, the last one first.
pub(crate) fn rewind<S: Space>(space: &mut S, frames: &mut Vec<Frame<S::Step, S::Undo>>)
    requires { IsSome (taken_back (before_frame S.before) frames.old.items space.old) }
    ensures { taken_back (before_frame S.before) frames.old.items space.old ≡ Some space.new }
{
    while let Some(frame) = frames.pop() {
        let Frame { undo, .. } = frame;
        space.back(undo);
    }
}

/// Goes on from the state that the step led to. An `Err` takes the step back.
pub(crate) fn descend<S: Space>(
    space: &mut S,
    stack: &mut Stack<S::Step, S::Undo>,
    step: S::Step,
    undo: S::Undo,
) -> Result<(), NoMemory>
    requires room { stack.old.top.next < length stack.old.steps.items }
    requires back { IsSome (S.before undo space.old) }
    ensures ok { OnOk result (Descends (stack_view stack.old) step undo (stack_view stack.new)) }
    ensures ok_space { OnOk result (space.new ≡ space.old) }
    ensures err_frames { OnErr result (stack.new.frames.items ≡ stack.old.frames.items) }
    ensures err { OnErr result (S.before undo space.old ≡ Some space.new) }
{
    let level = Level {
        begin: stack.top.begin,
        next: stack.top.next + 1,
    };
    match stack.frames.push(Frame { level, step, undo }) {
        Ok(()) => {
            let begin = stack.steps.len();
            stack.top = Level { begin, next: begin };
            Ok(())
        }
        Err(refused) => {
            let Frame { undo, .. } = refused.value;
            space.back(undo);
            Err(NoMemory)
        }
    }
}

/// The steps of the frames, and one more.
pub(crate) fn trail_of<T: Copy, U>(
    alloc: Global,
    frames: &[Frame<T, U>],
    last: T,
) -> Result<Trail<T>, NoMemory>
    ensures { IfOk result (λ trail. trail ≡ steps_of frames.now ++ last ∷ []) }
{
    let mut steps = Vec::new(alloc);
    for frame in frames {
        steps.push(frame.step)?;
    }
    steps.push(last)?;
    Ok(Trail::from_vec(steps))
}
