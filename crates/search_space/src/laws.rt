//! What the solver relies on, each the contract of a function that does nothing.

ghost use Rattle.std.specs.Prelude.{◌≡◌, ◌↔◌, true, nat_eq, Contains};
ghost use Rattle.std.specs.Cmp.Lexicographic.{pointwise};
ghost use Rattle.game_rules.specs.declared.RuleParts.{RuleParts};
ghost use Rattle.game_rules.specs.Playable.{IsPlayable};
ghost use Rattle.game_rules.specs.Board.{Board};
ghost use Rattle.game_rules.specs.Belonging.{Belongs};
ghost use Rattle.game_rules.specs.Winning.{Line, Wins};
ghost use Rattle.same_boards.specs.Same.{Same};
ghost use Rattle.same_boards.specs.Keys.{key_bytes};
ghost use Rattle.trails.specs.Complete.{IsComplete};
ghost use Rattle.trails.specs.Order.{IsAlike};
ghost use Rattle.stock_steps.specs.declared.Step.{Step};
ghost use Rattle.stock_steps.specs.Steps.{after_step, expand};
ghost use Rattle.stock_steps.specs.Making.{CanBeMade};
ghost use Rattle.streamliner.specs.declared.Streamliner.{Streamliner};
ghost use Rattle.search_space.specs.Game.{plain_game};
ghost use Rattle.search_space.specs.Narrow.{NarrowSame, narrow_game, narrow_steps};
ghost use Rattle.search_space.specs.NarrowPlay.{narrow_key};
ghost use Rattle.search_space.specs.Well.{is_well};

/// Every win has a step that comes nearer to it, and boards that are the same win within the same numbers of moves.
/// So a search of the space that is exhausted leaves no win.
pub fn the_plain_space_is_complete()
    ensures { (rules : RuleParts) (start : Board) → IsPlayable rules → Belongs rules start
        → IsComplete (plain_game rules) (Wins rules) start }
{}

/// A search compares two boards by their keys, and finds them equal exactly where the boards are the same.
pub fn keys_compare_as_boards_do()
    ensures { (rules : RuleParts) (a b : Board) → IsPlayable rules
        → Belongs rules a → Belongs rules b
        → (pointwise nat_eq (key_bytes rules a) (key_bytes rules b) ≡ true) ↔ Same rules a b }
{}

/// The test of a board passes exactly where the board belongs to the rules. So no step is one that cannot be taken
/// back.
pub fn well_boards_belong()
    ensures { (rules : RuleParts) (board : Board) → IsPlayable rules → (is_well rules board ≡ true)
        ↔ Belongs rules board }
{}

/// Each step of a restricted search can be made, and is a line of its single moves.
pub fn narrow_steps_are_lines()
    ensures made { (rules : RuleParts) (way : Streamliner) (board : Board) (step : Step)
        → IsPlayable rules
        → Contains (narrow_steps rules way board) step → CanBeMade rules board step }
    ensures line { (rules : RuleParts) (way : Streamliner) (board : Board) (step : Step)
        → IsPlayable rules
        → Contains (narrow_steps rules way board) step
        → Line rules board (expand rules board step) (after_step rules board step) }
{}

/// In a restricted search counting as the same is an equivalence, and keys are equal exactly where boards count as the
/// same.
pub fn narrow_keys_compare_as_boards_do()
    ensures alike { (rules : RuleParts) (way : Streamliner) → IsAlike (narrow_game rules way) }
    ensures keys { (rules : RuleParts) (way : Streamliner) (a b : Board) → IsPlayable rules
        → Belongs rules a → Belongs rules b
        → (pointwise nat_eq (narrow_key rules way a) (narrow_key rules way b) ≡ true)
        ↔ NarrowSame rules way a b }
{}
