//! Moves, lines of moves and verdicts as printed text, and lines read back.
//!
//! Means: a move's text, a line file and a verdict's text are lists of bytes, each given by one definition.
//! Above: the solver prints its verdict by `write_verdict`; a replay reads its line by `read_line`.
//! Refuses: a line file by its first fault, and want of memory.
//! Not promised: that a move that is read is legal anywhere.
#![tactic(auto)]

mod fault;
mod laws;
pub mod move_of;
mod read;
mod verdict;
mod write;

pub use fault::LineFault;
pub use laws::{move_texts_read_back, read_moves_have_their_text};
pub use read::read_line;
pub use verdict::{Verdict, write_verdict};
pub use write::write_line;

#[cfg(test)]
mod tests;
