//! What the goal of the rules says of foundations, hole and rows.
ghost use Rattle.std.specs.Prelude.{◌≡◌, ◌≤◌};
ghost use Rattle.game_rules.specs.Rules.{is_hole_goal, takes_back, takes_complete_runs, hole_wraps, foundation_rank};
ghost use Rattle.game_rules.specs.Belonging.{foundation_count, slot_count};
ghost use Rattle.game_rules.specs.Position.{row_count};

use crate::rules::Rules;
use game_rules::Goal;

impl Rules {
    /// How many foundations there are: four a deck where the goal is Foundations, else none.
    pub fn foundation_count(&self) -> u8
        ensures { result ≡ foundation_count self.now }
    {
        let _ = self.max_rank();
        match self.goal() {
            Goal::Foundations { .. } => 4 * self.decks(),
            Goal::Hole { .. } => 0,
            Goal::Sequences => 0,
        }
    }

    /// How many rows there are: four a deck where the goal is Sequences, else none.
    pub fn row_count(&self) -> u8
        ensures { result ≡ row_count self.now }
    {
        let _ = self.max_rank();
        match self.goal() {
            Goal::Foundations { .. } => 0,
            Goal::Hole { .. } => 0,
            Goal::Sequences => 4 * self.decks(),
        }
    }

    /// How many slots there are in all rows together.
    pub fn slot_count(&self) -> u8
        ensures { result ≡ slot_count self.now }
    {
        let max_rank = self.max_rank();
        match self.goal() {
            Goal::Foundations { .. } => 0,
            Goal::Hole { .. } => 0,
            Goal::Sequences => 4 * self.decks() * max_rank,
        }
    }

    /// The rank of the card at a place of a foundation, counted from 0 at the bottom.
    pub fn foundation_rank(&self, place: u8) -> u8
        ensures rank { result ≡ foundation_rank self.now place }
        ensures low { 1 ≤ result }
        ensures high { result ≤ 13 }
    {
        let max_rank = u16::from(self.max_rank());
        let from_base = u16::from(self.goal().base().saturating_sub(1)) + u16::from(place);
        (from_base % max_rank + 1) as u8
    }

    /// Whether cards may be taken back from foundations.
    pub fn takes_back(&self) -> bool
        ensures { result ≡ takes_back self.now.goal }
    {
        self.goal().takes_back()
    }

    /// Whether foundations take complete runs alone.
    pub fn takes_complete_runs(&self) -> bool
        ensures { result ≡ takes_complete_runs self.now.goal }
    {
        self.goal().takes_complete_runs()
    }

    /// Whether the hole is a place of the board.
    pub fn has_hole(&self) -> bool
        ensures { result ≡ is_hole_goal self.now.goal }
    {
        match self.goal() {
            Goal::Foundations { .. } => false,
            Goal::Hole { .. } => true,
            Goal::Sequences => false,
        }
    }

    /// Whether the greatest rank and the ace are neighbours in the hole.
    pub fn hole_wraps(&self) -> bool
        ensures { result ≡ hole_wraps self.now.goal }
    {
        self.goal().hole_wraps()
    }
}
