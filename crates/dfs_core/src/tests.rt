//! Searches over numbers: a step adds one, or halves, on every number below the last. So there are cycles.
//! The counts are those of a plain program over the same numbers, written apart.
ghost use Rattle.std.specs.Prelude.{◌≡◌, ℕ, ◌+◌, ◌/◌, Some, List, [], ◌∷◌, true, false};
ghost use Rattle.std.specs.Prelude.{nat_lt, nat_eq, max, if◌then◌else◌};

use super::*;
use node_budget::Budget;
use std::alloc::Global;
use std::marker::Model;
use std::test::Fail;
use transposition::{LruMemo, NoMemory};

/// Where the numbers end, which one is won, and up to which one all have the same key.
#[derive(Clone, Copy)]
struct Course {
    last: u32,
    won: u32,
    floor: u32,
}

/// A number on its way.
#[derive(Drop)]
struct Walker<'a> {
    course: &'a Course,
    at: u32,
}

impl<'a> Model for Walker<'a> {
    ghost use Rattle.std.specs.Prelude.{ℕ};

    ghost Value = { ℕ × ℕ × ℕ × ℕ };

    ghost view = { λ w. (w.course.now.last, w.course.now.won, w.course.now.floor, w.at) };
}

impl<'a> Space for Walker<'a> {
    type Key = u32;

    type Step = bool;

    type Undo = u32;

    type State = u32;

    ghost state = { λ w. w.3 };

    ghost play = { λ w. record {
      steps = λ n. if nat_lt n w.0 then false ∷ true ∷ [] else [];
      after = λ n halves. if halves then n / 2 else (if nat_lt n w.0 then n + 1 else n);
      won = λ n. nat_eq n w.1;
      key = λ n. max n w.2;
    } };

    ghost before = { λ undo w. Some (w.0, w.1, w.2, undo) };

    ghost wins = { λ w within n. n ≡ w.1 };

    fn steps(&mut self, _alloc: Global, out: &mut Vec<bool>) -> Result<(), NoMemory> {
        if self.at >= self.course.last {
            return Ok(());
        }
        let size = out.len();
        if out.push(false).is_ok() && out.push(true).is_ok() {
            return Ok(());
        }
        out.truncate(size);
        Err(NoMemory)
    }

    fn go(&mut self, step: bool) -> u32 {
        let before = self.at;
        self.at = if step {
            before / 2
        } else if before < self.course.last {
            before + 1
        } else {
            before
        };
        before
    }

    fn back(&mut self, undo: u32) {
        self.at = undo;
    }

    fn is_won(&self) -> bool {
        self.at == self.course.won
    }

    fn key(&self) -> u32 {
        self.at.max(self.course.floor)
    }
}

#[test]
fn finds_a_trail(rt: HostRuntime) -> Result<(), Fail> {
    let alloc = rt.alloc();
    let course = Course {
        last: 8,
        won: 0,
        floor: 0,
    };
    let mut walker = Walker {
        course: &course,
        at: 5,
    };
    let mut budget = Budget::new(100);
    let memo = LruMemo::new(alloc, 100)?;
    let found = search(alloc, &mut walker, memo, &mut budget)?;
    let steps = [false, false, true, false, true, true, true];
    assert!(rt; matches!(&found, Found::Won(trail) if trail.items() == steps.as_slice()));
    assert_eq!(rt; budget.spent(), 8);
    assert_eq!(rt; walker.at, 5);
    Ok(())
}

#[test]
fn a_won_state_is_met_before_the_memo_is_asked(rt: HostRuntime) -> Result<(), Fail> {
    let alloc = rt.alloc();
    let course = Course {
        last: 5,
        won: 1,
        floor: 1,
    };
    let mut walker = Walker {
        course: &course,
        at: 0,
    };
    let mut budget = Budget::new(1);
    let memo = LruMemo::new(alloc, 1)?;
    let found = search(alloc, &mut walker, memo, &mut budget)?;
    assert!(rt; matches!(&found, Found::Won(trail) if trail.items() == [false].as_slice()));
    assert_eq!(rt; budget.spent(), 1);
    Ok(())
}

#[test]
fn known_states_spend_nothing(rt: HostRuntime) -> Result<(), Fail> {
    let alloc = rt.alloc();
    let course = Course {
        last: 8,
        won: 100,
        floor: 0,
    };
    for (capacity, limit, spent, exhausted) in [
        (100, 9, 9, true),
        (100, 8, 8, false),
        (1, 1000, 27, true),
    ] {
        let mut walker = Walker {
            course: &course,
            at: 5,
        };
        let mut budget = Budget::new(limit);
        let memo = LruMemo::new(alloc, capacity)?;
        let found = search(alloc, &mut walker, memo, &mut budget)?;
        assert_eq!(rt;
            matches!(&found, Found::Exhausted),
            exhausted,
            "{capacity}, {limit}"
        );
        assert_eq!(rt;
            matches!(&found, Found::SpentAll),
            !exhausted,
            "{capacity}, {limit}"
        );
        assert_eq!(rt; budget.spent(), spent, "{capacity}, {limit}");
        assert_eq!(rt; walker.at, 5);
    }
    Ok(())
}

#[test]
fn a_long_path_needs_no_calls_of_itself(rt: HostRuntime) -> Result<(), Fail> {
    let alloc = rt.alloc();
    let course = Course {
        last: 99_999,
        won: 200_000,
        floor: 0,
    };
    let mut walker = Walker {
        course: &course,
        at: 0,
    };
    let mut budget = Budget::new(1_000_000);
    let memo = LruMemo::new(alloc, 1)?;
    let found = search(alloc, &mut walker, memo, &mut budget)?;
    assert!(rt; matches!(&found, Found::Exhausted));
    assert_eq!(rt; budget.spent(), 100_000);
    Ok(())
}
