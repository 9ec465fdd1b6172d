//! The command words: which job they name, or the first thing that is wrong with them.
//!
//! Means: a list of words is a job with its options, or one fault and the place of the word at fault.
//! Above: `read_words` is the definition of the words. A job has the words that name its files, and its
//! numbers are within their limits.
//! Refuses: by the first fault alone, since no memory is taken.
//! Not promised: that the files are there, or what they hold.
#![tactic(auto)]

mod fault;
mod job;
mod number;
mod options;
#[cfg(test)]
mod tests;
mod words;

pub use fault::WordFault;
pub use job::{Job, MemoWord, Source, Way};
pub use words::read_words;
