//! The search by levels.
ghost use Rattle.std.specs.Prelude.{◌≡◌, ◌+◌, ◌<◌, ◌≤◌, false, length, IfOk, OnOk, option_map};
ghost use Rattle.game_rules.specs.Winning.{is_won};
ghost use Rattle.game_rules.specs.Belonging.{Belongs};
ghost use Rattle.same_boards.specs.Keys.{key_bytes};
ghost use Rattle.packed_state.specs.Packed.{board_of};
ghost use Rattle.shortest_line.specs.Answers.{IsAnswer};
ghost use Rattle.shortest_line.specs.Tree.{line_at};
ghost use Rattle.shortest_line.specs.Levels.{IsSound, IsLevel, IsMet, IsGrown, IsExpanded, IsDone};

use crate::Shortest;
use crate::kept::Kept;
use crate::walking::{board_after, moves_of};
use card_piles::NoMemory;
use game_model::{Board, Rules};
use game_rules::Move;
use legal_moves::Line;
use node_budget::Budget;
use packed_state::Packed;
use pile_symmetry::{key_of, key_of_board};
use std::alloc::Global;

/// The kept boards, how many may be kept, and whether a further board was met.
#[derive(Drop)]
pub struct Search {
    pub kept: Kept,
    pub budget: Budget,
    pub further: bool,
}

impl Search {
    /// Keeps a board that is not won and that a move of the board at a place leads to, if it is not known. Where a
    /// further board was met, no other is kept.
    fn meet(
        &mut self,
        rules: &Rules,
        packed: &Packed,
        place: usize,
        m: Move,
    ) -> Result<(), NoMemory>
        requires belongs { Belongs rules.now (board_of packed.now) }
        requires there { place < length self.old.kept.lines }
        requires counted { self.old.budget.spent ≡ length self.old.kept.lines }
        requires few { self.old.budget.limit ≤ 4000000 }
        ensures limit { OnOk result (self.new.budget.limit ≡ self.old.budget.limit) }
        ensures met { OnOk result
            (IsMet self.old self.new (key_bytes rules.now (board_of packed.now)) place m) }
    {
        if self.further {
            return Ok(());
        }
        let _ = rules.parts();
        let key = key_of(rules, packed);
        if self.kept.contains(&key) {
            return Ok(());
        }
        match self.budget.spend() {
            Ok(()) => self.kept.keep(&key, place, m),
            Err(_) => {
                self.further = true;
                Ok(())
            }
        }
    }

    /// Makes each move of the board at a place. Answers with the line to the first of them that wins.
    fn expand(
        &mut self,
        alloc: Global,
        rules: &Rules,
        start: &Board,
        place: usize,
    ) -> Result<Option<Vec<Move>>, NoMemory>
        requires belongs { Belongs rules.now start.now }
        requires there { place < length self.old.kept.lines }
        requires sound { IsSound rules.now start.now self.old
            (length (line_at self.old.kept.lines place) + 1) }
        ensures sound { OnOk result (IsSound rules.now start.now self.new
            (length (line_at self.old.kept.lines place) + 1)) }
        ensures grown { OnOk result (IsGrown self.old self.new
            (length (line_at self.old.kept.lines place) + 1)) }
        ensures expanded { IfOk result
            (λ won. IsExpanded rules.now start.now self.old self.new place
            (option_map (λ v. v.items) won)) }
    {
        // This call brings that the rules are playable.
        let _ = rules.parts();
        let mut line = self.kept.line(alloc, place)?;
        let mut packed = board_after(rules, start, line.as_slice());
        let moves = moves_of(alloc, rules, &packed)?;
        for m in moves.as_slice() {
            let undo = packed.go(rules, *m);
            if packed.is_won(rules) {
                line.push(*m)?;
                return Ok(Some(line));
            }
            self.meet(rules, &packed, place, *m)?;
            packed.back(undo);
        }
        Ok(None)
    }

    /// Expands the boards of a level, which stand from one place to another. Answers with the first line that wins.
    fn run_level(
        &mut self,
        alloc: Global,
        rules: &Rules,
        start: &Board,
        from: usize,
        to: usize,
    ) -> Result<Option<Vec<Move>>, NoMemory>
        requires belongs { Belongs rules.now start.now }
        requires some { from < to }
        requires all { to ≡ length self.old.kept.lines }
        requires level { IsLevel rules.now start.now self.old from
            (length (line_at self.old.kept.lines from)) }
        ensures sound { OnOk result (IsSound rules.now start.now self.new
            (length (line_at self.old.kept.lines from) + 1)) }
        ensures grown { OnOk result (IsGrown self.old self.new
            (length (line_at self.old.kept.lines from) + 1)) }
        ensures done { IfOk result (λ won. IsDone rules.now start.now self.old self.new to
            (length (line_at self.old.kept.lines from)) (option_map (λ v. v.items) won)) }
    {
        let _ = rules.parts();
        for place in from..to {
            if let Some(line) = self.expand(alloc, rules, start, place)? {
                return Ok(Some(line));
            }
        }
        Ok(None)
    }

    /// Runs one level after the other, until a line wins, a further board is met, or no board is left to expand.
    fn run(&mut self, alloc: Global, rules: &Rules, start: &Board) -> Result<Shortest, NoMemory>
        requires belongs { Belongs rules.now start.now }
        requires level { IsLevel rules.now start.now self.old 0 0 }
        ensures { IfOk result (IsAnswer rules.now start.now self.old.budget.limit) }
    {
        let _ = rules.parts();
        let mut from = 0;
        let mut depth = 0;
        while from < self.kept.len() {
            let to = self.kept.len();
            if let Some(line) = self.run_level(alloc, rules, start, from, to)? {
                return Ok(Shortest::Least {
                    line: Line::from_vec(line),
                    nodes: self.budget.spent(),
                });
            }
            if self.further {
                return Ok(Shortest::Open {
                    bound: depth + 2,
                    nodes: self.budget.spent(),
                });
            }
            from = to;
            depth += 1;
        }
        Ok(Shortest::NoLine {
            nodes: self.budget.spent(),
        })
    }
}

/// Searches from a start that is not won.
pub fn search_levels(
    alloc: Global,
    rules: &Rules,
    start: &Board,
    nodes: u64,
) -> Result<Shortest, NoMemory>
    requires belongs { Belongs rules.now start.now }
    requires not_won { is_won rules.now start.now ≡ false }
    requires some_nodes { 1 ≤ nodes }
    requires few_nodes { nodes ≤ 4000000 }
    ensures { IfOk result (IsAnswer rules.now start.now nodes) }
{
    let _ = rules.parts();
    let kept = Kept::new(alloc, &key_of_board(rules, start))?;
    let mut budget = Budget::new(nodes);
    // The start is the first node.
    let _ = budget.spend();
    let mut search = Search {
        kept,
        budget,
        further: false,
    };
    search.run(alloc, rules, start)
}
