//! Laws of the texts of moves, each the contract of a function that does nothing.
ghost use Rattle.std.specs.Prelude.{◌≡◌, ℕ, List, Some};
ghost use Rattle.game_rules.specs.declared.Move.{Move};
ghost use Rattle.line_printer.specs.MoveText.{move_text, move_of_text};
ghost use Rattle.line_printer.specs.SmallMoves.{IsSmall};

/// The text of a move reads as the move.
pub fn move_texts_read_back()
    ensures { (m : Move) → IsSmall m → move_of_text (move_text m) ≡ Some m }
{}

/// A text that reads as a move is the text of that move.
pub fn read_moves_have_their_text()
    ensures { (text : List ℕ) (m : Move) → move_of_text text ≡ Some m → move_text m ≡ text }
{}
