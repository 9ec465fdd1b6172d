//! Answers as text.
ghost use Rattle.std.specs.Prelude.{◌≡◌, ◌++◌, length, IfOk, string_bytes};
ghost use Rattle.line_printer.specs.LineFile.{line_text};
ghost use Rattle.shortest_line.specs.AnswerText.{shortest_text};

use crate::Shortest;
use card_piles::NoMemory;
use game_rules::Move;
use line_printer::write_line;
use std::alloc::Global;

/// The text of an answer with a line.
#[tactic(auto, unfolding(crate::specs::AnswerText::shortest_text))]
fn least_text(alloc: Global, moves: &[Move], nodes: u64) -> Result<Vec<u8>, NoMemory>
    ensures { IfOk result (λ text. text.items ≡ shortest_text (Shortest.Least moves.now nodes)) }
{
    let count = moves.len();
    let head = format!(in alloc; "shortest\nnodes {nodes}\nmoves {count}\n")?;
    let mut text = head.into_bytes();
    let line = write_line(alloc, moves)?;
    text.extend_from_slice(line.as_slice())?;
    Ok(text)
}

/// The text of an answer that there is no line.
#[tactic(auto, unfolding(crate::specs::AnswerText::shortest_text))]
fn no_line_text(alloc: Global, nodes: u64) -> Result<Vec<u8>, NoMemory>
    ensures { IfOk result (λ text. text.items ≡ shortest_text (Shortest.NoLine nodes)) }
{
    let text = format!(in alloc; "unwinnable\nnodes {nodes}\n")?;
    Ok(text.into_bytes())
}

/// The text of an open answer.
#[tactic(auto, unfolding(crate::specs::AnswerText::shortest_text))]
fn open_text(alloc: Global, bound: u64, nodes: u64) -> Result<Vec<u8>, NoMemory>
    ensures { IfOk result (λ text. text.items ≡ shortest_text (Shortest.Open bound nodes)) }
{
    let text = format!(in alloc; "undecided\nnodes {nodes}\nbound {bound}\n")?;
    Ok(text.into_bytes())
}

/// The text of an answer: `shortest`, the nodes, the number of the moves and each move on a line; or `unwinnable` and
/// the nodes; or `undecided`, the nodes and the bound.
pub fn write_shortest(alloc: Global, answer: &Shortest) -> Result<Vec<u8>, NoMemory>
    ensures { IfOk result (λ text. text.items ≡ shortest_text answer.now) }
{
    match answer {
        Shortest::Least { line, nodes } => least_text(alloc, line.items(), *nodes),
        Shortest::NoLine { nodes } => no_line_text(alloc, *nodes),
        Shortest::Open { bound, nodes } => open_text(alloc, *bound, *nodes),
    }
}
