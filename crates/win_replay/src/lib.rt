//! The judge of a line of moves: whether it wins, ends short, or holds a move that is not legal.
//!
//! Means: `Replayed` says how a line goes from a board by the rules of play alone.
//! Above: the replay of a line file, which must not trust the solver that printed it.
//! Refuses: for want of memory alone.
//! Not promised: how long a replay takes.
#![tactic(auto)]

ghost use Rattle.std.specs.Prelude.{IfOk};
ghost use Rattle.game_rules.specs.Belonging.{Belongs};
ghost use Rattle.win_replay.specs.Replays.{IsReplayed};

use card_piles::NoMemory;
use game_model::{Board, Rules};
use game_rules::Move;
use legal_moves::{PlayFault, play};
use std::alloc::Global;

/// How a line of moves goes from a board.
#[derive(Clone, Copy, Debug, PartialEq, Eq)]
pub enum Replayed {
    /// Each move is legal where it is made, and the last board is won.
    Wins,
    /// Each move is legal where it is made, and the last board is not won.
    EndsShort,
    /// The move at this place, from 0, is the first that is not legal where it is made.
    Illegal { at: u64 },
}

/// Plays the moves of a line from the start, one after the other. The start is left as it is.
pub fn replay(
    alloc: Global,
    rules: &Rules,
    start: &Board,
    line: &[Move],
) -> Result<Replayed, NoMemory>
    requires belongs { Belongs rules.now start.now }
    ensures replayed { IfOk result (IsReplayed rules.now start.now line.now) }
{
    let mut board = start.duplicate(alloc)?;
    for (at, m) in line.iter().enumerate() {
        match play(alloc, rules, &mut board, *m) {
            Ok(()) => {}
            Err(PlayFault::NotLegal) => return Ok(Replayed::Illegal { at: at as u64 }),
            Err(PlayFault::Memory) => return Err(NoMemory),
        }
    }
    if board.is_won(rules) {
        Ok(Replayed::Wins)
    } else {
        Ok(Replayed::EndsShort)
    }
}

#[cfg(test)]
mod tests;
