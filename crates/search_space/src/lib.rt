//! The space that a solver searches: a packed board under its rules, with the steps that lose no win.
//!
//! A board with a safe move has its first safe move as its one step, any other board every legal move.
//! Where the stock deals to the waste, stock moves are joined with the carry from the waste that
//! follows them: such a step is one edge of the search.
//!
//! Means: a `PlainSpace` stands on a board that belongs to its rules. Its key is that of `pile_symmetry`: boards that
//! differ in the order of like places alone have one key, and count as the same.
//! A `NarrowSpace` is restricted: a carry to a foundation is taken alone, or boards are known up to the suits of a
//! colour, or both.
//! Above: the solver searches a `PlainSpace` and uses the clauses of `new` and the laws.
//! Refuses: `steps` for want of memory, and the list is then as before; nothing else takes memory.
//! Not promised: that a step leads to a win, and of a `NarrowSpace` that no win is lost.
#![tactic(auto)]

mod going;
pub mod laws;
mod listing;
mod narrow;
#[cfg(test)]
mod narrow_tests;
mod space;
#[cfg(test)]
mod space_tests;

pub use going::StepUndo;
pub use narrow::NarrowSpace;
pub use space::PlainSpace;
pub use stock_moves::Step;
