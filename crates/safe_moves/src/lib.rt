//! Moves that may be forced: a card that no other card can still need goes to its foundation.
//!
//! Means: the definitions in `specs/` say which rules allow forced moves, which moves are safe, and
//! which of them is the first.
//! Above: a search that tries the first safe move alone loses no win, which the laws here say. Each
//! is the contract of a function that does nothing.
//! Refuses: nothing. No function here does anything.
//! Not promised: that a board without a safe move has no other move that could be forced.
#![tactic(auto)]

pub mod laws;
