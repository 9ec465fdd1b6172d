//! The deal file: reading a position from JSON, and writing one.
//!
//! Means: a file's bytes give the board of a position, or the first fault that they have.
//! Above: the program relies on `read_position`, which is the definition of the bytes, faults included,
//! and on `write_position`, which writes the one spelling of a board and is read as this board.
//! Refuses: each fault exactly where it is the first; for want of memory at any time.
//! Not promised: where in the bytes a fault of the JSON stands.
#![tactic(auto)]

mod deal;
mod entries;
mod fault;
mod names;
mod parts;
mod read;
mod write;

pub use fault::DealFault;
pub use read::read_position;
pub use write::write_position;

#[cfg(test)]
mod tests;
