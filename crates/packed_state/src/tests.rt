//! Moves of small games and of whole deals, on both forms of a board.

mod moves;
mod readings;
mod traces;
mod walks;
