//! Laws over safe moves, each the contract of a function that does nothing.
ghost use Rattle.std.specs.Prelude.{◌≡◌, ◌≢◌, ℕ, ◌+◌, ◌≤◌, IsTrue, Some, None};
ghost use Rattle.std.specs.List.{AllPairs, Contains};
ghost use Rattle.card_piles.specs.declared.Card.{Card};
ghost use Rattle.game_rules.specs.declared.RuleParts.{RuleParts};
ghost use Rattle.game_rules.specs.declared.Move.{Move};
ghost use Rattle.game_rules.specs.Playable.{IsPlayable};
ghost use Rattle.game_rules.specs.Board.{Board};
ghost use Rattle.game_rules.specs.Play.{Legal, after};
ghost use Rattle.game_rules.specs.Winning.{Won, Wins};
ghost use Rattle.game_rules.specs.Before.{Before};
ghost use Rattle.game_rules.specs.Belonging.{Belongs};
ghost use Rattle.safe_moves.specs.Safe.{first_safe, is_not_needed, is_safe, rules_allow};
ghost use Rattle.safe_moves.specs.Need.{are_no_bar, upper_rank};

/// A safe move may come first: if a board wins within `n + 1` moves, it wins within `n` after any of
/// its safe moves.
pub fn safe_move_may_come_first()
    ensures { (rules : RuleParts) (board : Board) (move : Move) (n : ℕ) → IsPlayable rules
        → Belongs rules board
        → IsTrue (is_safe rules board move) → Wins rules (n + 1) board
        → Wins rules n (after rules board move) }
{}

/// The first safe move is the safe move that no safe move stands before. A board without a safe move
/// has none.
pub fn first_safe_move_is_fixed()
    ensures found { (rules : RuleParts) (board : Board) (move : Move)
        → IsTrue (is_safe rules board move)
        → ((other : Move) → IsTrue (is_safe rules board other) → Before other move → ⊥)
        → first_safe rules board ≡ Some move }
    ensures none { (rules : RuleParts) (board : Board)
        → ((move : Move) → IsTrue (is_safe rules board move) → ⊥)
        → first_safe rules board ≡ None }
{}

/// Whether a card can still be needed is told by the heights of at most four foundations, and by one
/// place on them: that of the rank that builds on it.
pub fn heights_tell_the_need()
    ensures { (rules : RuleParts) (board : Board) (card : Card) → IsPlayable rules
        → IsTrue (rules_allow rules)
        → Belongs rules board → 1 ≤ card.rank → card.rank ≤ rules.max_rank
        → is_not_needed rules board card ≡ are_no_bar rules board card
        (upper_rank rules card.rank) }
{}
