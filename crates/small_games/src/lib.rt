//! Small games in words: rules, boards and moves for tests.
//!
//! Means: a text of rules names what differs from a plain game of three ranks; a text of a board
//! names its parts, each before its cards; a text of a move names two places and a count.
//! Above: tests alone use it, so that a row of a test is a line that a player can read.
//! Refuses: rules with a conflict and boards with a fault, as `Rules::new` and `Board::new` do.
//! Not promised: anything of a word that names nothing. Most are passed over.
#![tactic(auto)]

mod boards;
mod comparing;
mod moves;
mod rules;

pub use boards::{board_of, no_parts};
pub use comparing::same_boards;
pub use moves::move_of;
pub use rules::rules_of;

#[cfg(test)]
mod tests;
