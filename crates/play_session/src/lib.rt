//! A session of play: moves are made, taken back and made again, and a script of orders is run on it.
//!
//! Means: a `Session` is its rules, its start, the moves that stand and the moves taken back, the last of which
//! is the next to be made again. Its board is always the one that the standing moves give from the start.
//! Above: `run_script` prints the text that one definition gives of rules, start and orders, and
//! `read_script` reads the orders of a file. `undo` gives the packed board before the move, link by link.
//! Refuses: a move that is not legal, a script by its first fault, and want of memory. Taking back
//! and making again take none.
//! Not promised: room kept in lists, and time.
#![tactic(auto)]

mod fault;
mod order;
mod read;
mod run;
mod session;

pub use fault::ScriptFault;
pub use legal_moves::PlayFault;
pub use order::{Order, Script};
pub use read::read_script;
pub use run::run_script;

#[cfg(test)]
mod tests;

pub use session::{NothingToRedo, NothingToUndo, Session};
