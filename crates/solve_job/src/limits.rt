//! What a job may spend and remember.
use streamliner::Streamliner;

/// Which memo a search asks. What a verdict says depends on neither.
#[derive(Clone, Copy, Debug, PartialEq, Eq)]
pub enum MemoKind {
    /// One table of keys, linked by index.
    Linked,
    /// A set of the current path's keys beside a cache of the finished ones.
    Lru,
}

/// What the searches may spend and remember. Each has a memo and a budget of its own.
#[derive(Clone, Copy, Debug, PartialEq, Eq)]
pub struct Limits {
    /// How many finished boards a search remembers. The boards of the current path are remembered beside them.
    pub cache: u32,
    /// How many boards the plain search may expand.
    pub nodes: u64,
    /// How many boards the restricted search may expand that comes first. None comes where it is 0.
    pub narrow: u64,
    /// How the restricted search is restricted.
    pub way: Streamliner,
    /// Which memo the searches ask. No clause of a verdict depends on it.
    pub memo: MemoKind,
}
