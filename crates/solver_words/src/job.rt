//! The jobs that words can name.

/// Where the deal to be solved comes from.
#[derive(Clone, Copy, Debug, PartialEq, Eq)]
pub enum Source {
    /// The deal file, whose name is word 2.
    File,
    /// The seed.
    FromSeed(u64),
}

/// How the restricted search goes that comes first.
#[derive(Clone, Copy, Debug, PartialEq, Eq)]
pub enum Way {
    /// The first carry to a foundation is taken alone.
    Foundations,
    /// Boards that are the same up to the suits of a colour count as the same.
    Suits,
    /// The two together.
    Both,
}

/// Which memo the search asks. No verdict depends on it.
#[derive(Clone, Copy, Debug, PartialEq, Eq)]
pub enum MemoWord {
    /// One table of keys, linked by index.
    Linked,
    /// A set of the current path's keys beside a cache of the finished ones.
    Lru,
}

/// What is to be done. The file names are the words 1 (the rules), 2 (the deal) and 3 (the line).
#[derive(Clone, Copy, Debug, PartialEq, Eq)]
pub enum Job {
    /// Solves the deal under the rules. At most `cache` finished boards are remembered, 1 to 4,000,000,
    /// and at most `nodes` boards are expanded, 1 to 1,000,000,000,000. First a search that is restricted in
    /// its `way` expands at most `narrow` boards, 0 to 1,000,000,000,000. The boards are remembered in `memo`.
    Solve {
        source: Source,
        cache: u32,
        nodes: u64,
        narrow: u64,
        way: Way,
        memo: MemoWord,
    },
    /// Replays the line from the deal under the rules.
    Replay,
    /// Prints the position that the seed deals under the rules.
    Deal {
        seed: u64,
    },
    /// Prints the rules in their one spelling.
    Rules,
}
