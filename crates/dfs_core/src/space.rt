//! What is searched.

ghost use Rattle.std.specs.Prelude.{◌≡◌, ◌≢◌, ◌↔◌, ℕ, Option, List, ◌++◌, OnOk, OnErr, IsSome, Contains, AllPairs};
ghost use Rattle.dfs_core.specs.Play.{Play};

use std::alloc::Global;
use std::hash::Hash;
use transposition::NoMemory;

/// What is searched: states, with steps that lead from one to another and are taken back. It may be `complete`: then
/// every win has a step that comes nearer to it.
pub trait Space {
    /// What the memo keeps of a state.
    type Key: Eq + Hash + Drop;

    /// What leads from a state to another.
    type Step: Copy;

    /// What it takes to come back.
    type Undo: Drop;

    /// A state as clauses see it. No code makes one.
    type State;

    /// Where the space stands.
    ghost state: { Self → Self.State };

    /// What it plays. No call changes it.
    ghost play: { Self → Play Self.State Self.Step Self.Key };

    /// What an undo and a space together determine: the space before the step.
    ghost before: { Self.Undo → Self → Option Self };

    /// Which states win within a number of moves. No call changes it.
    ghost wins: { Self → ℕ → Self.State → Type 0 };

    /// Appends the steps of the state in their order. No step stands twice. The space stays as it is, also after an
    /// `Err`, and then the list is as before too.
    fn steps(&mut self, alloc: Global, out: &mut Vec<Self::Step>) -> Result<(), NoMemory>
        ensures same { self.new ≡ self.old }
        ensures ok { OnOk result
            (out.new.items ≡ out.old.items ++ (play self.old).steps (state self.old)) }
        ensures as_before { OnErr result (out.new.items ≡ out.old.items) }
        ensures differ { AllPairs (λ a b. a ≢ b) ((play self.old).steps (state self.old)) };

    /// Makes a step of the state.
    fn go(&mut self, step: Self::Step) -> Self::Undo
        requires { Contains ((play self.old).steps (state self.old)) step }
        ensures state { state self.new ≡ (play self.old).after (state self.old) step }
        ensures undo { before result self.new ≡ Some self.old }
        ensures play { play self.new ≡ play self.old }
        ensures wins { (n : ℕ) (s : Self.State) → wins self.new n s ↔ wins self.old n s };

    /// Takes a step back, to the very space before it.
    fn back(&mut self, undo: Self::Undo)
        requires { IsSome (before undo self.old) }
        ensures undone { before undo self.old ≡ Some self.new }
        ensures play { play self.new ≡ play self.old }
        ensures wins { (n : ℕ) (s : Self.State) → wins self.new n s ↔ wins self.old n s };

    /// Whether the state is won.
    fn is_won(&self) -> bool
        ensures { result ≡ (play self.now).won (state self.now) };

    /// The key of the state. States with equal keys count as the same.
    fn key(&self) -> Self::Key
        ensures { result ≡ (play self.now).key (state self.now) };
}
