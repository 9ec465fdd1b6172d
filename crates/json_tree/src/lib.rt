//! What the readers of rules files and deal files share: the JSON tree of a file, and looking into it.
//!
//! Means: a file's bytes stand for the tree that `serde_json` states for them, where they are UTF-8.
//! Above: each reader goes on from `read_object`, by `field` and `has_only_keys`.
//! Refuses: a file that is too long, is no JSON or holds no object, in this order, and for want of memory.
//! Not promised: where in the bytes a fault of the JSON stands.
#![tactic(auto)]

mod fields;
mod read;

pub use fields::{field, has_only_keys};
pub use read::{FileFault, MAX_FILE_LENGTH, read_object};

#[cfg(test)]
mod tests;
