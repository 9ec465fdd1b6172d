//! The packed board at the end of a line.
ghost use Rattle.std.specs.Prelude.{◌≡◌, IfOk};
ghost use Rattle.game_rules.specs.Belonging.{Belongs};
ghost use Rattle.game_rules.specs.Order.{legal_moves};
ghost use Rattle.packed_state.specs.Packed.{board_of};
ghost use Rattle.shortest_line.specs.Levels.{end_of, IsLine};

use card_piles::NoMemory;
use game_model::{Board, Rules};
use game_rules::Move;
use packed_state::Packed;
use std::alloc::Global;

/// The packed board after the moves of a line from the start.
pub fn board_after(rules: &Rules, start: &Board, moves: &[Move]) -> Packed
    requires belongs { Belongs rules.now start.now }
    requires line { IsLine rules.now start.now moves.now }
    ensures stands { board_of result ≡ end_of rules.now start.now moves.now }
    ensures belongs { Belongs rules.now (board_of result) }
{
    let mut packed = Packed::from_board(rules, start);
    for m in moves {
        let _ = packed.go(rules, *m);
    }
    packed
}

/// The legal moves of the board in their order.
pub fn moves_of(alloc: Global, rules: &Rules, packed: &Packed) -> Result<Vec<Move>, NoMemory>
    requires { Belongs rules.now (board_of packed.now) }
    ensures { IfOk result (λ moves. moves.items ≡ legal_moves rules.now (board_of packed.now)) }
{
    let mut moves = Vec::new(alloc);
    packed.list_moves(alloc, rules, &mut moves)?;
    Ok(moves)
}
