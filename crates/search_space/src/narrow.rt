//! The space of a restricted search, which may lose wins.
ghost use Rattle.std.specs.Prelude.{◌≡◌, ℕ, ◌++◌, OnOk, OnErr, length, take};
ghost use Rattle.game_rules.specs.Belonging.{Belongs};
ghost use Rattle.game_rules.specs.Winning.{Wins};
ghost use Rattle.packed_state.specs.Packed.{board_of};
ghost use Rattle.streamliner.specs.declared.Streamliner.TheVariants.{AutoFoundations};
ghost use Rattle.search_space.specs.Narrow.{narrow_steps};
ghost use Rattle.search_space.specs.NarrowPlay.{narrow_play, before_narrow};

use crate::going::{StepUndo, back_step, go_step};
use crate::listing::{list_free_steps, list_steps, moves_of, push_single};
use dfs_core::Space;
use game_model::{Board, Rules};
use packed_state::Packed;
use pile_symmetry::{Key, colour_key_of, key_of};
use std::alloc::Global;
use std::marker::Model;
use stock_moves::Step;
use streamliner::{Streamliner, coarse, narrow};
use transposition::NoMemory;

/// A packed board that belongs to its rules. Where the way takes it alone, the first legal carry to a foundation is its
/// one step, if it has one; else its steps are those of a `PlainSpace`. It is not complete.
#[derive(Drop)]
pub struct NarrowSpace<'a> {
    rules: &'a Rules,
    way: Streamliner,
    packed: Packed,
}

impl<'a> Model for NarrowSpace<'a> {
    ghost use Rattle.game_rules.specs.Playable.{IsPlayable};
    ghost use Rattle.game_rules.specs.Belonging.{Belongs};
    ghost use Rattle.packed_state.specs.Packed.{board_of};
    ghost use Rattle.search_space.specs.NarrowPlay.{NarrowStanding};

    ghost Value = { NarrowStanding };

    ghost view = { λ s. record { rules = s.rules.now; way = s.way; packed = s.packed } };

    ghost invariant = { λ s. IsPlayable s.rules.now × Belongs s.rules.now (board_of s.packed) };
}

impl<'a> NarrowSpace<'a> {
    /// The space that stands on the start, restricted in this way.
    pub fn new(rules: &'a Rules, start: &Board, way: Streamliner) -> NarrowSpace<'a>
        requires { Belongs rules.now start.now }
        ensures rules { result.rules ≡ rules.now }
        ensures way { result.way ≡ way }
        ensures stands { board_of result.packed ≡ start.now }
    {
        // This call brings that the rules are playable, which the space keeps.
        let _ = rules.parts();
        NarrowSpace {
            rules,
            way,
            packed: Packed::from_board(rules, start),
        }
    }
}

/// Appends the first legal carry to a foundation, if there is one, else the steps of the board in their order. The
/// packed board is as before. Where there is none, no move is safe, and the moves are listed once.
fn list_home_or_steps(
    alloc: Global,
    rules: &Rules,
    packed: &mut Packed,
    out: &mut Vec<Step>,
) -> Result<(), NoMemory>
    requires { Belongs rules.now (board_of packed.old) }
    ensures listed { OnOk result (out.new.items
        ≡ out.old.items ++ narrow_steps rules.now AutoFoundations (board_of packed.old)) }
    ensures begun { OnErr result (take (length out.old.items) out.new.items ≡ out.old.items) }
    ensures as_before { packed.new ≡ packed.old }
{
    let moves = moves_of(alloc, rules, packed)?;
    match narrow(Streamliner::AutoFoundations, moves.as_slice()) {
        Some(carry) => push_single(carry, out),
        None => list_free_steps(alloc, rules, packed, moves.as_slice(), out),
    }
}

/// Appends the first legal carry to a foundation, where the way takes it alone and there is one, else the steps of the
/// board in their order. The packed board is as before.
fn list_narrow_steps(
    alloc: Global,
    rules: &Rules,
    way: Streamliner,
    packed: &mut Packed,
    out: &mut Vec<Step>,
) -> Result<(), NoMemory>
    requires { Belongs rules.now (board_of packed.old) }
    ensures listed { OnOk result
        (out.new.items ≡ out.old.items ++ narrow_steps rules.now way (board_of packed.old)) }
    ensures begun { OnErr result (take (length out.old.items) out.new.items ≡ out.old.items) }
    ensures as_before { packed.new ≡ packed.old }
{
    match way {
        Streamliner::AutoFoundations | Streamliner::Both => list_home_or_steps(
            alloc, rules, packed, out,
        ),
        Streamliner::SuitSymmetry => list_steps(alloc, rules, packed, out),
    }
}

/// The same, but after a refusal the list is as before.
fn list_narrow_or_leave(
    alloc: Global,
    rules: &Rules,
    way: Streamliner,
    packed: &mut Packed,
    out: &mut Vec<Step>,
) -> Result<(), NoMemory>
    requires { Belongs rules.now (board_of packed.old) }
    ensures listed { OnOk result
        (out.new.items ≡ out.old.items ++ narrow_steps rules.now way (board_of packed.old)) }
    ensures refused { OnErr result (out.new.items ≡ out.old.items) }
    ensures as_before { packed.new ≡ packed.old }
{
    let size = out.len();
    match list_narrow_steps(alloc, rules, way, packed, out) {
        Ok(()) => Ok(()),
        Err(refused) => {
            out.truncate(size);
            Err(refused)
        }
    }
}

impl<'a> Space for NarrowSpace<'a> {
    type Key = Key;

    type Step = Step;

    type Undo = StepUndo;

    type State = Board;

    ghost state = { λ s. board_of s.packed };

    ghost play = { λ s. narrow_play s.rules s.way };

    ghost before = { λ undo s. before_narrow undo s };

    ghost wins = { λ s n board. Wins s.rules n board };

    fn steps(&mut self, alloc: Global, out: &mut Vec<Step>) -> Result<(), NoMemory> {
        list_narrow_or_leave(alloc, self.rules, self.way, &mut self.packed, out)
    }

    fn go(&mut self, step: Step) -> StepUndo {
        go_step(self.rules, &mut self.packed, step)
    }

    fn back(&mut self, undo: StepUndo) {
        back_step(&mut self.packed, undo);
    }

    fn is_won(&self) -> bool {
        self.packed.is_won(self.rules)
    }

    fn key(&self) -> Key {
        if coarse(self.way) {
            colour_key_of(self.rules, &self.packed)
        } else {
            key_of(self.rules, &self.packed)
        }
    }
}
