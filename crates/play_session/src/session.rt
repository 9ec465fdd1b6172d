//! A session: moves that are made, taken back and made again.
ghost use Rattle.std.specs.Prelude.{◌≡◌, ◌<◌, ◌≤◌, ◌++◌, ◌∷◌, ◌↔◌, length, [], OnOk, OnErr, IfOk, IsErr, Err};
ghost use Rattle.game_rules.specs.Belonging.{Belongs};
ghost use Rattle.game_rules.specs.Play.{Legal};
ghost use Rattle.game_rules.specs.Winning.{Line, is_won};
ghost use Rattle.packed_state.specs.Packed.{board_of};
ghost use Rattle.play_session.specs.Moves.{no_moves, with_made};
ghost use Rattle.play_session.specs.Held.{board, Stands};

use card_piles::NoMemory;
use game_model::{Board, Rules};
use legal_moves::{Move, PlayFault};
use packed_state::{Packed, Undo};
use std::alloc::{AllocError, Global};
use std::marker::Model;

/// No move stands that could be taken back.
#[derive(Clone, Copy, Debug, PartialEq, Eq)]
pub struct NothingToUndo;

/// No move is taken back that could be made again.
#[derive(Clone, Copy, Debug, PartialEq, Eq)]
pub struct NothingToRedo;

/// Rules, a start, the moves that stand, and the moves taken back, of which the last is the next to
/// be made again.
#[derive(Debug, Drop)]
pub struct Session {
    rules: Rules,
    start: Board,
    packed: Packed,
    standing: Vec<Move>,
    /// What each standing move changed.
    undos: Vec<Undo>,
    undone: Vec<Move>,
}

impl Model for Session {
    ghost use Rattle.std.specs.Prelude.{length};
    ghost use Rattle.play_session.specs.Held.{Held};
    ghost use Rattle.play_session.specs.Kept.{IsHeld, HaveRoom, held};

    ghost Value = { Held };

    ghost view = { λ s. held s.rules s.start s.standing.items s.undone.items s.packed s.undos.items };

    ghost invariant = { λ s.
        let now : Held = held s.rules s.start s.standing.items s.undone.items s.packed s.undos.items in
        IsHeld now (length s.undos.items)
        × HaveRoom now.moves s.standing.cap s.undos.cap s.undone.cap };
}

/// Appends an item where there is room for it.
fn push_within<T: Drop>(list: &mut Vec<T>, item: T)
    requires room { length list.old.items < list.old.cap }
    ensures items { list.new.items ≡ list.old.items ++ item ∷ [] }
    ensures capacity { list.old.cap ≤ list.new.cap }
{
    match list.push(item) {
        Ok(()) => {}
        Err(_) => unreachable!(),
    }
}

/// Sees to room for one more standing move: in the lists of those that stand and of their notes, and,
/// for when it is taken back, in that of those taken back.
fn make_room(
    standing: &mut Vec<Move>,
    undos: &mut Vec<Undo>,
    undone: &mut Vec<Move>,
) -> Result<(), AllocError>
    ensures standing { standing.new.items ≡ standing.old.items }
    ensures undos { undos.new.items ≡ undos.old.items }
    ensures undone { undone.new.items ≡ undone.old.items }
    ensures standing_grows { standing.old.cap ≤ standing.new.cap }
    ensures undos_grows { undos.old.cap ≤ undos.new.cap }
    ensures undone_grows { undone.old.cap ≤ undone.new.cap }
    ensures standing_room { OnOk result (length standing.old.items < standing.new.cap) }
    ensures undos_room { OnOk result (length undos.old.items < undos.new.cap) }
    ensures undone_room { OnOk result (length standing.old.items < undone.new.cap) }
{
    standing.reserve(1)?;
    undos.reserve(1)?;
    undone.reserve(standing.len() + 1)
}

impl Session {
    /// The packed board is the one that the standing moves give from the start.
    pub(crate) fn keep(&self)
        ensures stands { Stands self.now }
        ensures here { board_of self.now.packed ≡ board self.now }
        ensures belongs { Belongs self.now.rules (board self.now) }
    {
        let _ = &self.packed;
    }

    /// The session that begins at the start: no move stands, and none is taken back.
    pub fn new(alloc: Global, rules: &Rules, start: &Board) -> Result<Session, NoMemory>
        requires belongs { Belongs rules.now start.now }
        ensures rules { IfOk result (λ s. s.rules ≡ rules.now) }
        ensures start { IfOk result (λ s. s.start ≡ start.now) }
        ensures moves { IfOk result (λ s. s.moves ≡ no_moves) }
        ensures earlier { IfOk result (λ s. s.earlier ≡ []) }
        ensures stands { IfOk result Stands }
    {
        let _ = rules.parts();
        Ok(Session {
            rules: *rules,
            start: start.duplicate(alloc)?,
            packed: Packed::from_board(rules, start),
            standing: Vec::new(alloc),
            undos: Vec::new(alloc),
            undone: Vec::new(alloc),
        })
    }

    /// Makes a move. It is refused as `NotLegal` exactly where it is not legal. When it is made it
    /// stands last, and no move is taken back any more; after a refusal all is as before.
    pub fn apply(&mut self, rules: &Rules, m: Move) -> Result<(), PlayFault>
        requires rules { rules.now ≡ self.old.rules }
        ensures made { OnOk result (self.new.moves ≡ with_made self.old.moves m) }
        ensures earlier { OnOk result (self.new.earlier ≡ self.old.packed ∷ self.old.earlier) }
        ensures legal { OnOk result (Legal rules.now (board self.old) m) }
        ensures not_legal { (result ≡ Err PlayFault.NotLegal) ↔ ¬ Legal rules.now (board self.old) m }
        ensures as_before { OnErr result (self.new ≡ self.old) }
        ensures same_rules { self.new.rules ≡ self.old.rules }
        ensures same_start { self.new.start ≡ self.old.start }
        ensures stands { Stands self.new }
    {
        self.keep();
        if !self.packed.is_legal(rules, m) {
            return Err(PlayFault::NotLegal);
        }
        // Room first, so that all is as before where there is none.
        let Ok(()) = make_room(&mut self.standing, &mut self.undos, &mut self.undone) else {
            return Err(PlayFault::Memory);
        };
        let undo = self.packed.go(rules, m);
        push_within(&mut self.standing, m);
        push_within(&mut self.undos, undo);
        self.undone.truncate(0);
        Ok(())
    }

    /// Takes the last standing move back, which is then the next to be made again. It is refused
    /// exactly where no move stands. The packed board is then the one before that move, in every
    /// slot and link. It takes no memory.
    pub fn undo(&mut self) -> Result<Move, NothingToUndo>
        ensures last { IfOk result (λ m. self.old.moves.standing ≡ self.new.moves.standing ++ m ∷ []) }
        ensures next { IfOk result (λ m. self.new.moves.undone ≡ self.old.moves.undone ++ m ∷ []) }
        ensures earlier { OnOk result (self.old.earlier ≡ self.new.packed ∷ self.new.earlier) }
        ensures nothing { IsErr result ↔ (self.old.moves.standing ≡ []) }
        ensures as_before { OnErr result (self.new ≡ self.old) }
        ensures same_rules { self.new.rules ≡ self.old.rules }
        ensures same_start { self.new.start ≡ self.old.start }
        ensures stands { Stands self.new }
    {
        self.keep();
        let Some(undo) = self.undos.pop() else {
            return Err(NothingToUndo);
        };
        let Some(m) = self.standing.pop() else {
            return Err(NothingToUndo);
        };
        self.packed.back(undo);
        push_within(&mut self.undone, m);
        Ok(m)
    }

    /// Makes the last move that was taken back again. It is refused exactly where no move is taken
    /// back. It takes no memory.
    pub fn redo(&mut self, rules: &Rules) -> Result<Move, NothingToRedo>
        requires rules { rules.now ≡ self.old.rules }
        ensures next { IfOk result (λ m. self.old.moves.undone ≡ self.new.moves.undone ++ m ∷ []) }
        ensures last { IfOk result (λ m. self.new.moves.standing ≡ self.old.moves.standing ++ m ∷ []) }
        ensures earlier { OnOk result (self.new.earlier ≡ self.old.packed ∷ self.old.earlier) }
        ensures nothing { IsErr result ↔ (self.old.moves.undone ≡ []) }
        ensures as_before { OnErr result (self.new ≡ self.old) }
        ensures same_rules { self.new.rules ≡ self.old.rules }
        ensures same_start { self.new.start ≡ self.old.start }
        ensures stands { Stands self.new }
    {
        self.keep();
        let Some(next) = self.undone.pop() else {
            return Err(NothingToRedo);
        };
        let undo = self.packed.go(rules, next);
        push_within(&mut self.standing, next);
        push_within(&mut self.undos, undo);
        Ok(next)
    }

    /// The moves that stand, in the order in which they were made. It takes no memory.
    pub fn standing(&self) -> &[Move]
        ensures { result.now ≡ self.now.moves.standing }
    {
        self.standing.as_slice()
    }

    /// The moves taken back, of which the last is the next to be made again. It takes no memory.
    pub fn undone(&self) -> &[Move]
        ensures { result.now ≡ self.now.moves.undone }
    {
        self.undone.as_slice()
    }

    /// Whether the board is won. It takes no memory.
    pub fn is_won(&self, rules: &Rules) -> bool
        requires rules { rules.now ≡ self.now.rules }
        ensures { result ≡ is_won rules.now (board self.now) }
    {
        self.keep();
        self.packed.is_won(rules)
    }

    /// The board that the standing moves give from the start.
    pub fn board(&self, alloc: Global, rules: &Rules) -> Result<Board, NoMemory>
        requires rules { rules.now ≡ self.now.rules }
        ensures board { IfOk result (λ there. there ≡ board self.now) }
        ensures line { IfOk result (Line self.now.rules self.now.start self.now.moves.standing) }
        ensures belongs { IfOk result (Belongs rules.now) }
    {
        self.keep();
        self.packed.to_board(alloc, rules)
    }
}
