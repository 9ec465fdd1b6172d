//! Streamliners: ways to restrict a search, which may lose wins.
//!
//! Means: under `AutoFoundations` the first carry to a foundation is the only step of a board that has one. Under
//! `SuitSymmetry` a board counts as known if it is the same as a known one up to the suits of a colour. `Both` is
//! the two together.
//! Above: a restricted search tries the move of `narrow` alone, and knows boards by their colour keys if `coarse`.
//! Refuses: nothing. No call takes memory.
//! Not promised: that a board which wins still wins under a restriction. Only a win that is found counts.
#![tactic(auto)]

ghost use Rattle.std.specs.Prelude.{◌≡◌};
ghost use Rattle.std.specs.List.{find};
ghost use Rattle.streamliner.specs.Narrow.{is_carry_home, is_coarse, is_narrow, narrow};

use game_rules::{Move, Place};

/// How a search is restricted.
#[derive(Clone, Copy, Debug, PartialEq, Eq)]
pub enum Streamliner {
    /// The first carry to a foundation is taken alone.
    AutoFoundations,
    /// Boards that are the same up to the suits of a colour count as the same.
    SuitSymmetry,
    /// The two together.
    Both,
}

fn is_narrow(way: Streamliner) -> bool
    ensures { result ≡ is_narrow way }
{
    match way {
        Streamliner::AutoFoundations | Streamliner::Both => true,
        Streamliner::SuitSymmetry => false,
    }
}

fn is_carry_home(candidate: Move) -> bool
    ensures { result ≡ is_carry_home candidate }
{
    match candidate {
        Move::Carry { to, .. } => matches!(to, Place::Foundation(_)),
        Move::Deal | Move::Redeal => false,
    }
}

/// The first carry to a foundation among the moves.
fn first_carry_home(moves: &[Move]) -> Option<Move>
    ensures { result ≡ find is_carry_home moves.now }
{
    moves
        .iter()
        .copied()
        .find(|candidate| is_carry_home(*candidate))
}

/// The first carry to a foundation among the moves, if the way takes it alone. `None` exactly if the way does
/// not, or no move is such a carry.
pub fn narrow(way: Streamliner, moves: &[Move]) -> Option<Move>
    ensures { result ≡ narrow way moves.now }
{
    if is_narrow(way) {
        first_carry_home(moves)
    } else {
        None
    }
}

/// Whether boards that are the same up to the suits of a colour count as the same.
pub fn coarse(way: Streamliner) -> bool
    ensures { result ≡ is_coarse way }
{
    match way {
        Streamliner::SuitSymmetry | Streamliner::Both => true,
        Streamliner::AutoFoundations => false,
    }
}

#[cfg(test)]
mod tests {
    use super::*;
    use std::test::Fail;

    fn carry(from: Place, to: Place) -> Move {
        Move::Carry { from, to, count: 1 }
    }

    #[test]
    fn the_first_carry_home_is_taken_alone(rt: HostRuntime) -> Result<(), Fail> {
        let home = carry(Place::Waste, Place::Foundation(1));
        let moves = [
            carry(Place::Tableau(0), Place::Cell(0)),
            home,
            carry(Place::Tableau(1), Place::Foundation(0)),
            Move::Deal,
        ];
        assert!(rt; narrow(Streamliner::AutoFoundations, moves.as_slice()) == Some(home));
        assert!(rt; narrow(Streamliner::Both, &moves[..1]).is_none());
        assert!(rt; narrow(Streamliner::SuitSymmetry, moves.as_slice()).is_none());
        assert!(rt; coarse(Streamliner::SuitSymmetry) && !coarse(Streamliner::AutoFoundations));
        Ok(())
    }
}
