//! Line files, read.
ghost use Rattle.std.specs.Prelude.{◌≡◌, ◌+◌, ◌<◌, ◌^◌, ◌==◌, length, IfOk, MatchResult};
ghost use Rattle.std.specs.List.{before_first};
ghost use Rattle.line_printer.specs.LineFile.{parts_of, newlines, after_line, has_head, past_head, line_text};
ghost use Rattle.line_printer.specs.LineFile.{moves_from, line_of};
ghost use Rattle.line_printer.specs.Reads.{ReadsAs};

use crate::LineFault;
use crate::move_of::{move_of, split_once};
use legal_moves::Line;
use std::alloc::Global;

/// The greatest length of a line file in bytes.
const MOST_BYTES: usize = 67_108_864;

/// What follows the first line, which has this number.
fn after_line(line: u64, text: &[u8]) -> Result<&[u8], LineFault>
    ensures { MatchResult result
        (λ rest. (rest.now ≡ after_line text.now) × (newlines text.now ≡ newlines rest.now + 1))
        (λ fault. (fault ≡ LineFault.BadMove line) × (newlines text.now ≡ 0)) }
{
    let Some((_, rest)) = split_once(text, b'\n') else {
        return Err(LineFault::BadMove { line });
    };
    Ok(rest)
}

/// What follows the first four lines.
fn after_four_lines(bytes: &[u8]) -> Result<&[u8], LineFault>
    ensures { MatchResult result
        (λ rest. (rest.now ≡ after_line (after_line (after_line (after_line bytes.now))))
        × (newlines bytes.now ≡ newlines rest.now + 4))
        (λ fault. (fault ≡ LineFault.BadMove (newlines bytes.now + 1)) × (newlines bytes.now < 4)) }
{
    let second = after_line(1, bytes)?;
    let third = after_line(2, second)?;
    let fourth = after_line(3, third)?;
    after_line(4, fourth)
}

fn first_line(bytes: &[u8]) -> &[u8]
    ensures { result.now ≡ before_first (λ b. b == 10) bytes.now }
{
    match split_once(bytes, b'\n') {
        Some((first, _)) => first,
        None => bytes,
    }
}

#[tactic(auto, unfolding(crate::specs::LineFile::has_head))]
fn has_head(bytes: &[u8]) -> bool
    ensures { result ≡ has_head bytes.now }
{
    first_line(bytes) == b"winnable".as_slice()
}

/// The moves of lines of which the first has this number.
fn moves_from(alloc: Global, first: u64, text: &[u8]) -> Result<Line, LineFault>
    requires { first + length text.now < 2 ^ 64 }
    ensures { ReadsAs result (moves_from first (parts_of text.now)) }
{
    let mut moves = Vec::new(alloc);
    let mut line = first;
    let mut rest = text;
    while let Some((part, after)) = split_once(rest, b'\n') {
        let Some(m) = move_of(part) else {
            return Err(LineFault::BadMove { line });
        };
        moves.push(m)?;
        rest = after;
        line += 1;
    }
    if rest.is_empty() {
        Ok(Line::from_vec(moves))
    } else {
        Err(LineFault::BadMove { line })
    }
}

/// Reads the file of a line of moves: each move's text and a newline. Where its first line is
/// `winnable`, the first four lines are passed over, so that the text of a winnable verdict reads
/// as its line.
///
/// `TooLong` is answered where the file has more than 67,108,864 bytes, and else `BadMove` with
/// the number of the first line that is at fault.
pub fn read_line(alloc: Global, bytes: &[u8]) -> Result<Line, LineFault>
    ensures read { ReadsAs result (line_of bytes.now) }
    ensures written { IfOk result (λ line. past_head bytes.now ≡ line_text line) }
{
    if bytes.len() > MOST_BYTES {
        return Err(LineFault::TooLong);
    }
    if has_head(bytes) {
        moves_from(alloc, 5, after_four_lines(bytes)?)
    } else {
        moves_from(alloc, 1, bytes)
    }
}
