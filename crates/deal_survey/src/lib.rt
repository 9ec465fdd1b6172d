//! A survey: the deals of a range of seeds, judged one after the other and counted.
//!
//! Means: a Judge is which verdicts it may give for each seed; a survey is one answer a seed, and their counts.
//! Above: each answer is one that the Judge allows for its seed, and each count is the number of its answers.
//! Refuses: for want of memory alone, and then the list of answers is as before.
//! Not promised: how long a survey takes, and how a Judge stands after it but for what it allows.
#![tactic(auto)]

mod counts;
mod judge;
mod laws;
mod seeds;
mod write;

pub use counts::Counts;
pub use judge::{Judge, Judged};
pub use laws::counts_add_up;
pub use seeds::survey;
pub use write::write_survey;

#[cfg(test)]
mod tests;
