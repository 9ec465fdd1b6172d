//! Verdicts and their text.
ghost use Rattle.std.specs.Prelude.{◌≡◌, ◌++◌, ◌≤◌, length, IfOk, string_bytes};
ghost use Rattle.line_printer.specs.LineFile.{most_bytes};
ghost use Rattle.line_printer.specs.Fitting.{Fitting};
ghost use Rattle.line_printer.specs.VerdictText.{output_of};
ghost use Rattle.line_printer.specs.ReadsBack.{ReadsBack};

use crate::write::push_moves;
use card_piles::NoMemory;
use game_rules::Move;
use legal_moves::Line;
use std::alloc::{AllocError, Global};
use std::fmt::Write;

/// What a search for a winning line came to, with the positions that it expanded:
/// `nodes` in the plain search and `narrow_nodes` in the narrow one before it.
#[derive(Debug, Drop)]
pub enum Verdict {
    /// The line leads to a won board.
    Winnable {
        line: Line,
        nodes: u64,
        narrow_nodes: u64,
    },
    /// No line leads to a won board.
    Unwinnable {
        nodes: u64,
        narrow_nodes: u64,
    },
    /// The node budget was spent before either was known.
    Undecided {
        nodes: u64,
        narrow_nodes: u64,
    },
}

/// The text of a winnable verdict.
#[tactic(auto, unfolding(crate::specs::VerdictText::output_of))]
fn winnable_text(
    alloc: Global,
    moves: &[Move],
    nodes: u64,
    narrow_nodes: u64,
) -> Result<Vec<u8>, NoMemory>
    ensures fits { IfOk result (λ text. Fitting moves.now nodes narrow_nodes) }
    ensures text { IfOk result
        (λ text. text.items ≡ output_of (Verdict.Winnable moves.now nodes narrow_nodes)) }
{
    let length = moves.len();
    let mut text = format!(in alloc;
        "winnable\nnodes {nodes}\nnarrow {narrow_nodes}\nmoves {length}\n"
    )?;
    push_moves(&mut text, moves)?;
    Ok(text.into_bytes())
}

/// The text of an unwinnable verdict.
#[tactic(auto, unfolding(crate::specs::VerdictText::output_of))]
fn unwinnable_text(alloc: Global, nodes: u64, narrow_nodes: u64) -> Result<Vec<u8>, NoMemory>
    ensures { IfOk result (λ text. text.items ≡ output_of (Verdict.Unwinnable nodes narrow_nodes)) }
{
    let text = format!(in alloc; "unwinnable\nnodes {nodes}\nnarrow {narrow_nodes}\n")?;
    Ok(text.into_bytes())
}

/// The text of an undecided verdict.
#[tactic(auto, unfolding(crate::specs::VerdictText::output_of))]
fn undecided_text(alloc: Global, nodes: u64, narrow_nodes: u64) -> Result<Vec<u8>, NoMemory>
    ensures { IfOk result (λ text. text.items ≡ output_of (Verdict.Undecided nodes narrow_nodes)) }
{
    let text = format!(in alloc; "undecided\nnodes {nodes}\nnarrow {narrow_nodes}\n")?;
    Ok(text.into_bytes())
}

/// The text of a verdict: its kind, the two numbers of nodes and, where a line was found, its
/// length and its moves, one on each line. Where a line was found and the text has at most
/// 67,108,864 bytes, `read_line` reads that line from it.
#[tactic(auto, unfolding(crate::specs::VerdictText::output_of))]
pub fn write_verdict(alloc: Global, verdict: &Verdict) -> Result<Vec<u8>, NoMemory>
    ensures reads_back { IfOk result
        (λ text. length text.items ≤ most_bytes → ReadsBack text.items verdict.now) }
    ensures text { IfOk result (λ text. text.items ≡ output_of verdict.now) }
{
    match verdict {
        Verdict::Winnable {
            line,
            nodes,
            narrow_nodes,
        } => winnable_text(alloc, line.items(), *nodes, *narrow_nodes),
        Verdict::Unwinnable {
            nodes,
            narrow_nodes,
        } => unwinnable_text(alloc, *nodes, *narrow_nodes),
        Verdict::Undecided {
            nodes,
            narrow_nodes,
        } => undecided_text(alloc, *nodes, *narrow_nodes),
    }
}
