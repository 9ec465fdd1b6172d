//! The parts of a packed board.
ghost use Rattle.std.specs.Prelude.{◌≡◌, ℕ, ◌+◌, ◌*◌, ◌<◌, ◌≤◌, map, length, IfOk};
ghost use Rattle.std.specs.List.{range_with_len};
ghost use Rattle.game_rules.specs.Board.{top_of};
ghost use Rattle.game_rules.specs.Winning.{row_at};
ghost use Rattle.game_rules.specs.Position.{parts_of, row_count};
ghost use Rattle.game_rules.specs.Belonging.{Belongs};
ghost use Rattle.packed_state.specs.Packed.{cards_at, face_at, board_of};

use crate::Packed;
use crate::places::{CELLS, ENTRIES, FOUNDATIONS, HOLE, SLOTS, STOCK, WASTE};
use card_piles::{Card, NoMemory};
use game_model::{Board, Rules};
use game_rules::BoardParts;
use item_list::Items;
use std::alloc::{AllocError, Global};

impl Packed {
    /// The cards of a place, from the bottom up.
    fn cards_of(&self, alloc: Global, place: usize) -> Result<Items<Card>, AllocError>
        requires { place < 315 }
        ensures { IfOk result (λ list. list ≡ cards_at self.now place) }
    {
        let mut out = Items::new(alloc);
        let size = self.count(place);
        for i in 0..size {
            out.push(self.card_of(self.links.slot(place, size - 1 - i)))?;
        }
        Ok(out)
    }

    fn tableau_of(&self, alloc: Global) -> Result<Items<Items<Card>>, AllocError>
        ensures { IfOk result
            (λ lists. lists ≡ map (cards_at self.now) (range_with_len 0 self.now.shape.piles)) }
    {
        self.keep();
        let mut out = Items::new(alloc);
        for i in 0..self.shape.piles {
            out.push(self.cards_of(alloc, usize::from(i))?)?;
        }
        Ok(out)
    }

    /// How many cards of a pile lie face down, in the whole table.
    fn face(&self, i: u8) -> u8
        requires { i < 20 }
        ensures { result ≡ face_at self.now i }
    {
        self.face_down[usize::from(i)]
    }

    fn face_down_of(&self, alloc: Global) -> Result<Items<u8>, AllocError>
        ensures { IfOk result
            (λ numbers. numbers ≡ map (face_at self.now) (range_with_len 0 self.now.shape.piles)) }
    {
        self.keep();
        let mut out = Items::new(alloc);
        for i in 0..self.shape.piles {
            out.push(self.face(i))?;
        }
        Ok(out)
    }

    /// The top cards of so many places, from one on.
    fn entries_of(
        &self,
        alloc: Global,
        first: usize,
        count: u8,
    ) -> Result<Items<Option<Card>>, AllocError>
        requires { first + count ≤ 315 }
        ensures { IfOk result (λ row.
            row ≡ map (λ i. top_of (cards_at self.now (first + i))) (range_with_len 0 count)) }
    {
        let mut out = Items::new(alloc);
        for i in 0..count {
            out.push(self.top_card(first + usize::from(i)))?;
        }
        Ok(out)
    }

    fn heights_of(&self, alloc: Global) -> Result<Items<u8>, AllocError>
        ensures { IfOk result (λ numbers. numbers ≡ (board_of self.now).heights) }
    {
        self.keep();
        let mut out = Items::new(alloc);
        for f in 0..self.shape.foundations {
            out.push(self.count(FOUNDATIONS + usize::from(f)))?;
        }
        Ok(out)
    }

    fn row_of(&self, alloc: Global, rules: &Rules, r: u8) -> Result<Items<Option<Card>>, AllocError>
        requires slots { self.now.shape.slots ≡ row_count rules.now * rules.now.max_rank }
        requires row { r < row_count rules.now }
        ensures { IfOk result (λ row. row ≡ row_at rules.now (board_of self.now) r) }
    {
        self.keep();
        let columns = rules.max_rank();
        self.entries_of(
            alloc,
            SLOTS + usize::from(r) * usize::from(columns),
            columns,
        )
    }

    fn rows_of(
        &self,
        alloc: Global,
        rules: &Rules,
    ) -> Result<Items<Items<Option<Card>>>, AllocError>
        requires { self.now.shape.slots ≡ row_count rules.now * rules.now.max_rank }
        ensures { IfOk result (λ rows.
            rows ≡ map (row_at rules.now (board_of self.now))
            (range_with_len 0 (row_count rules.now))) }
    {
        let mut out = Items::new(alloc);
        for r in 0..rules.row_count() {
            out.push(self.row_of(alloc, rules, r)?)?;
        }
        Ok(out)
    }

    /// The parts of the board.
    fn parts_of(&self, alloc: Global, rules: &Rules) -> Result<BoardParts, AllocError>
        requires { Belongs rules.now (board_of self.now) }
        ensures { IfOk result (λ parts. parts ≡ parts_of rules.now (board_of self.now)) }
    {
        self.keep();
        Ok(BoardParts {
            tableau: self.tableau_of(alloc)?,
            face_down: self.face_down_of(alloc)?,
            cells: self.entries_of(alloc, CELLS, self.shape.cells)?,
            reserve: self.entries_of(alloc, ENTRIES, self.shape.entries)?,
            stock: self.cards_of(alloc, STOCK)?,
            waste: self.cards_of(alloc, WASTE)?,
            redeals_left: self.redeals_left,
            foundations: self.heights_of(alloc)?,
            hole: self.cards_of(alloc, HOLE)?,
            rows: self.rows_of(alloc, rules)?,
        })
    }

    /// The board that it stands for.
    pub fn to_board(&self, alloc: Global, rules: &Rules) -> Result<Board, NoMemory>
        requires { Belongs rules.now (board_of self.now) }
        ensures { IfOk result (λ board. board ≡ board_of self.now) }
    {
        let parts = self.parts_of(alloc, rules)?;
        match Board::new(alloc, rules, parts) {
            Ok(board) => Ok(board),
            Err(_) => Err(NoMemory),
        }
    }
}
