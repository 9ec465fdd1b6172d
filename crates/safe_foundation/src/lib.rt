//! The first safe move of a packed board: a card that no other card can still need goes home.
//!
//! Means: a move is safe if the rules allow forced moves, and it carries one card from tableau, cell
//! or reserve to a foundation, and each card that builds on it lies on a foundation. The definitions
//! are those of `safe_moves`, with the law that no win is lost where a safe move is made first.
//! Above: a search that tries the first safe move alone asks `first_safe`.
//! Refuses: nothing. No call takes memory.
//! Not promised: time. `first_safe` looks at the heights first, and at the tops only for a card that
//! is next on its foundation and is not needed.
#![tactic(auto)]

mod finding;
mod first;
mod need;

pub use first::{first_safe, first_safe_of};
pub use need::rules_allow;

#[cfg(test)]
mod tests;
