//! Stock moves joined with the carry that they serve: the steps of a search, and the laws on them.
//!
//! Means: a `Step` is so many stock moves and then one last move. The definitions in `specs/` say
//! which steps a board has, in which order, and which single moves a step stands for.
//! Above: a search that tries the steps of each board, and nothing else, loses no win, and each step
//! is a line of legal moves. The laws here say so, each the contract of a function that does nothing.
//! Refuses: nothing. No function here does anything.
//! Not promised: that a step is needed for a win.
#![tactic(auto)]

mod laws;

use game_rules::Move;
pub use laws::{
    steps_are_lines, steps_lose_no_win, stock_moves_can_be_cut, stock_moves_commute,
    stock_moves_win_nothing, stock_runs_end_by_length, stock_steps_are_listed,
    stock_steps_are_short,
};

/// A step of a search: so many stock moves, and then the last move.
#[derive(Clone, Copy, Debug, PartialEq, Eq)]
pub struct Step {
    /// The number of stock moves, each the next stock move of the board where it is made.
    pub deals: u16,
    /// The move after them.
    pub last: Move,
}
