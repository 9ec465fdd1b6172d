//! What the answer to the question for a shortest line is.
use legal_moves::Line;

/// What is known of the lines from a start to a won board. `nodes` is how many boards were kept: none of them is won,
/// and no two of them differ in the order of like places alone.
#[derive(Debug, Drop)]
pub enum Shortest {
    /// The line leads to a won board, and no list of fewer moves does.
    Least { line: Line, nodes: u64 },
    /// No line leads to a won board. The ends of all lines have `nodes` different keys.
    NoLine { nodes: u64 },
    /// So many boards were kept as the limit allows, and there is a further one. No list of fewer than `bound` moves
    /// leads to a won board.
    Open { bound: u64, nodes: u64 },
}
