//! One search with a memo and a budget of its own.

ghost use Rattle.std.specs.Prelude.{◌≡◌, ◌≤◌, ℕ, IfOk};
ghost use Rattle.dfs_core.specs.Play.{game_of};
ghost use Rattle.dfs_core.specs.Answer.{IsAnswer};
ghost use Rattle.trails.specs.Complete.{IsComplete};

use crate::limits::MemoKind;
use dfs_core::{Found, Space, search};
use node_budget::Budget;
use std::alloc::Global;
use transposition::{LinkedMemo, LruMemo, NoMemory};

/// What a search found, and how many boards it expanded.
#[derive(Debug, Drop)]
pub struct Searched<T> {
    pub found: Found<T>,
    pub nodes: u64,
}

/// Searches from where the space stands with an empty memo of this capacity and with so many nodes.
pub fn search_anew<S: Space>(
    alloc: Global,
    space: &mut S,
    kind: MemoKind,
    capacity: u32,
    limit: u64,
) -> Result<Searched<S::Step>, NoMemory>
    requires { 1 ≤ capacity }
    ensures within { IfOk result (λ searched. searched.nodes ≤ limit) }
    ensures answer { IfOk result (λ searched. IsAnswer (game_of (S.play space.old) S.Key.eq)
        (S.state space.old) capacity 0 searched.nodes limit searched.found) }

    // In a complete space no win exists where the search is exhausted.
    ensures no_win { IfOk result (λ searched. searched.found ≡ Found.Exhausted
        → IsComplete (game_of (S.play space.old) S.Key.eq) (S.wins space.old) (S.state space.old)
        → (n : ℕ) → ¬ S.wins space.old n (S.state space.old)) }
{
    let mut budget = Budget::new(limit);
    let found = match kind {
        MemoKind::Linked => search(alloc, space, LinkedMemo::new(alloc, capacity)?, &mut budget)?,
        MemoKind::Lru => search(alloc, space, LruMemo::new(alloc, capacity)?, &mut budget)?,
    };
    Ok(Searched {
        found,
        nodes: budget.spent(),
    })
}
