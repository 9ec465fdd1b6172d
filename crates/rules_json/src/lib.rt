//! The rules file: reading and writing it as JSON.
//!
//! Means: the bytes of a file give rules, or the first of their faults in a fixed order.
//! Above: the commands rely on `read_rules`, which is exact both ways, and on `write_rules`, whose text reads back.
//! Refuses: with the part of the file and the kind of the fault, or the number of a conflict.
//! Not promised: where in the bytes a fault stands.
#![tactic(auto)]

mod fault;
mod parts;
mod read;
mod values;
mod words;
mod write;

pub use fault::{RulePart, RulesFault};
pub use read::read_rules;
pub use write::write_rules;

#[cfg(test)]
mod tests;
