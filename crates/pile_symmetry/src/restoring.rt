//! The board of a key.
ghost use Rattle.std.specs.Prelude.{◌≡◌, IfOk, IfSome, MatchOption, None};
ghost use Rattle.game_rules.specs.Board.{Board};
ghost use Rattle.game_rules.specs.Belonging.{Belongs};
ghost use Rattle.game_rules.specs.declared.BoardFault.TheVariants.{Memory};
ghost use Rattle.same_boards.specs.Keys.{key_bytes};
ghost use Rattle.pile_symmetry.specs.InOrder.{IsInKeyOrder};
ghost use Rattle.pile_symmetry.specs.Reading.{whole_parts};

use crate::filling::hole_in;
use crate::key::Key;
use crate::making::key_of_board;
use crate::placing::parts_said;
use crate::reading::said;
use card_piles::NoMemory;
use game_model::{Board, BoardFault, BoardParts, Rules};
use std::alloc::{AllocError, Global};

/// The parts that a key says, with the hole filled.
fn whole_parts(alloc: Global, rules: &Rules, key: &Key) -> Result<BoardParts, AllocError>
    ensures { IfOk result (λ parts. parts ≡ whole_parts rules.now key.now) }
{
    let said = said(rules, key.bytes());
    let mut parts = parts_said(alloc, rules, &said)?;
    parts.hole = hole_in(alloc, rules, &parts)?;
    Ok(parts)
}

/// The board, if it has the key.
fn with_key(rules: &Rules, key: &Key, board: Board) -> Option<Board>
    requires { Belongs rules.now board }
    ensures { MatchOption result (key_bytes rules.now board ≡ key.now → ⊥)
        (λ found. (found ≡ board) × (key_bytes rules.now board ≡ key.now)) }
{
    if key_of_board(rules, &board).bytes() == key.bytes() {
        Some(board)
    } else {
        None
    }
}

/// Hands want of memory on; any other fault is one of the key.
fn refused(fault: BoardFault) -> Result<(), NoMemory>
    ensures { IfOk result (λ done. fault ≡ Memory → ⊥) }
{
    match fault {
        BoardFault::Memory => Err(NoMemory),
        BoardFault::PlaceFull(_) | BoardFault::MissingCard(_) | BoardFault::ExtraCard(_) => Ok(()),
    }
}

/// The board of a key. `None` exactly where no board that belongs to the rules has this key.
///
/// Its cells, unstacked reserve, piles, rows and the heights of each suit stand in the order of the key, from place 0
/// on. A key does not tell the cards of the hole below its top: they are those that stand nowhere else, in ascending
/// order.
pub fn board_of(alloc: Global, rules: &Rules, key: &Key) -> Result<Option<Board>, NoMemory>
    ensures belongs { IfOk result (λ found. IfSome found (λ board. Belongs rules.now board)) }
    ensures has_key { IfOk result
        (λ found. IfSome found (λ board. key_bytes rules.now board ≡ key.now)) }
    ensures in_order { IfOk result (λ found. IfSome found (λ board. IsInKeyOrder rules.now board)) }
    ensures none { IfOk result (λ found. found ≡ None → (board : Board) → Belongs rules.now board
        → key_bytes rules.now board ≡ key.now → ⊥) }
{
    let _ = rules.parts();
    let parts = whole_parts(alloc, rules, key)?;
    match Board::new(alloc, rules, parts) {
        Ok(board) => Ok(with_key(rules, key, board)),
        Err(fault) => {
            refused(fault)?;
            Ok(None)
        }
    }
}
