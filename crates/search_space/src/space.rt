//! The space that a solver searches.
ghost use Rattle.std.specs.Prelude.{◌≡◌, ℕ, ◌++◌, OnOk, OnErr, nat_eq};
ghost use Rattle.game_rules.specs.Belonging.{Belongs};
ghost use Rattle.game_rules.specs.Winning.{Wins};
ghost use Rattle.packed_state.specs.Packed.{board_of};
ghost use Rattle.trails.specs.Complete.{IsComplete};
ghost use Rattle.dfs_core.specs.Play.{game_of};
ghost use Rattle.std.specs.Cmp.Lexicographic.{pointwise};
ghost use Rattle.stock_steps.specs.Steps.{steps};
ghost use Rattle.search_space.specs.Plain.{play_of, before_of};

use crate::going::{StepUndo, back_step, go_step};
use crate::listing::list_steps;
use dfs_core::Space;
use game_model::{Board, Rules};
use packed_state::Packed;
use pile_symmetry::{Key, key_of};
use std::alloc::Global;
use std::marker::Model;
use stock_moves::Step;
use transposition::NoMemory;

/// A packed board that belongs to its rules. Its steps are its first safe move alone, if it has one, else every
/// legal move, where stock moves to the waste are joined with the carry that follows them.
#[derive(Drop)]
pub struct PlainSpace<'a> {
    rules: &'a Rules,
    packed: Packed,
}

impl<'a> Model for PlainSpace<'a> {
    ghost use Rattle.game_rules.specs.Playable.{IsPlayable};
    ghost use Rattle.game_rules.specs.Belonging.{Belongs};
    ghost use Rattle.packed_state.specs.Packed.{board_of};
    ghost use Rattle.search_space.specs.Plain.{Standing};

    ghost Value = { Standing };

    ghost view = { λ s. record { rules = s.rules.now; packed = s.packed } };

    ghost invariant = { λ s. IsPlayable s.rules.now × Belongs s.rules.now (board_of s.packed) };
}

impl<'a> PlainSpace<'a> {
    /// The space that stands on the start.
    pub fn new(rules: &'a Rules, start: &Board) -> PlainSpace<'a>
        requires { Belongs rules.now start.now }
        ensures rules { result.rules ≡ rules.now }
        ensures stands { board_of result.packed ≡ start.now }
        ensures complete { IsComplete (game_of (play_of rules.now) (pointwise nat_eq))
            (Wins rules.now) start.now }
    {
        // This call brings that the rules are playable, which the space keeps.
        let _ = rules.parts();
        PlainSpace {
            rules,
            packed: Packed::from_board(rules, start),
        }
    }
}

/// Appends the steps of the board in their order. After a refusal the list is as before. The packed board is so always.
fn list_or_leave(
    alloc: Global,
    rules: &Rules,
    packed: &mut Packed,
    out: &mut Vec<Step>,
) -> Result<(), NoMemory>
    requires { Belongs rules.now (board_of packed.old) }
    ensures listed { OnOk result
        (out.new.items ≡ out.old.items ++ steps rules.now (board_of packed.old)) }
    ensures refused { OnErr result (out.new.items ≡ out.old.items) }
    ensures as_before { packed.new ≡ packed.old }
{
    let size = out.len();
    match list_steps(alloc, rules, packed, out) {
        Ok(()) => Ok(()),
        Err(refused) => {
            out.truncate(size);
            Err(refused)
        }
    }
}

impl<'a> Space for PlainSpace<'a> {
    type Key = Key;

    type Step = Step;

    type Undo = StepUndo;

    type State = Board;

    ghost state = { λ s. board_of s.packed };

    ghost play = { λ s. play_of s.rules };

    ghost before = { λ undo s. before_of undo s };

    ghost wins = { λ s n board. Wins s.rules n board };

    fn steps(&mut self, alloc: Global, out: &mut Vec<Step>) -> Result<(), NoMemory> {
        list_or_leave(alloc, self.rules, &mut self.packed, out)
    }

    fn go(&mut self, step: Step) -> StepUndo {
        go_step(self.rules, &mut self.packed, step)
    }

    fn back(&mut self, undo: StepUndo) {
        back_step(&mut self.packed, undo);
    }

    fn is_won(&self) -> bool {
        self.packed.is_won(self.rules)
    }

    fn key(&self) -> Key {
        key_of(self.rules, &self.packed)
    }
}
