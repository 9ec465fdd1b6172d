//! Stock steps on packed boards: their list, and the single moves of a step.
//!
//! Means: a `Step` is so many stock moves and then one last move.
//! Above: `list_stock_steps` appends each stock step once, in order, and leaves the packed board as
//! it was; `expand` appends the single moves of a step.
//! Refuses: both calls for want of memory, and then all is as before.
//! Not promised: time.
#![tactic(auto)]

mod expanding;
mod listing;
mod onto;
#[cfg(test)]
mod tests;

pub use expanding::expand;
pub use listing::list_stock_steps;
pub use stock_steps::Step;
