//! Moves as text.
ghost use Rattle.std.specs.Prelude.{◌≡◌, ◌++◌, ◌∷◌, ◌<◌, ◌≤◌, [], length, IfOk, string_bytes};
ghost use Rattle.std.specs.List.{All};
ghost use Rattle.game_rules.specs.Play.{number_of_place};
ghost use Rattle.line_printer.specs.MoveText.{place_text, is_pile, shows_count as shows_count_of, move_text};
ghost use Rattle.line_printer.specs.SmallMoves.{IsSmall};
ghost use Rattle.line_printer.specs.LineFile.{line_text, most_bytes, line_of};

use card_piles::NoMemory;
use game_rules::{Move, Place};
use std::alloc::{AllocError, Global};
use std::fmt::Write;

fn push_place(text: &mut String, place: Place) -> Result<(), AllocError>
    ensures small { number_of_place place < 256 }
    ensures pushed { IfOk result
        (λ _. string_bytes text.new ≡ string_bytes text.old ++ place_text place) }
{
    match place {
        Place::Tableau(i) => write!(text, "t{i}"),
        Place::Cell(i) => write!(text, "c{i}"),
        Place::Reserve(i) => write!(text, "r{i}"),
        Place::Waste => text.push_str("w"),
        Place::Foundation(i) => write!(text, "f{i}"),
        Place::Hole => text.push_str("h"),
        Place::Slot(i) => write!(text, "s{i}"),
    }
}

fn is_pile(place: Place) -> bool
    ensures { result ≡ is_pile place }
{
    matches!(place, Place::Tableau(_))
}

pub fn shows_count(from: Place, to: Place, count: u8) -> bool
    ensures { result ≡ shows_count_of from to count }
{
    is_pile(from) && is_pile(to) || count != 1
}

/// Appends the text of a move.
pub fn push_move(text: &mut String, m: Move) -> Result<(), AllocError>
    ensures small { IfOk result (λ _. IsSmall m) }
    ensures pushed { IfOk result (λ _. string_bytes text.new ≡ string_bytes text.old ++ move_text m) }
{
    match m {
        Move::Carry { from, to, count } => {
            push_place(text, from)?;
            text.push(' ')?;
            push_place(text, to)?;
            if shows_count(from, to, count) {
                write!(text, " {count}")?;
            }
            Ok(())
        }
        Move::Deal => text.push_str("deal"),
        Move::Redeal => text.push_str("redeal"),
    }
}

/// Appends the text of each move and a newline after it.
pub fn push_moves(text: &mut String, moves: &[Move]) -> Result<(), AllocError>
    ensures small { IfOk result (λ _. All IsSmall moves.now) }
    ensures pushed { IfOk result
        (λ _. string_bytes text.new ≡ string_bytes text.old ++ line_text moves.now) }
{
    for m in moves {
        push_move(text, *m)?;
        text.push('\n')?;
    }
    Ok(())
}

/// The text of a line of moves: each move's text and a newline. Where it has at most 67,108,864
/// bytes, `read_line` reads it back.
pub fn write_line(alloc: Global, moves: &[Move]) -> Result<Vec<u8>, NoMemory>
    ensures reads_back { IfOk result
        (λ text. length text.items ≤ most_bytes → line_of text.items ≡ Ok moves.now) }
    ensures text { IfOk result (λ text. text.items ≡ line_text moves.now) }
{
    let mut text = String::new(alloc);
    push_moves(&mut text, moves)?;
    Ok(text.into_bytes())
}
