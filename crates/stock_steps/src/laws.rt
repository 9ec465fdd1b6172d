//! Laws on stock moves and on the steps of a search, each the contract of a function that does nothing.
ghost use Rattle.std.specs.Prelude.{◌≡◌, ◌≢◌, ℕ, ◌+◌, ◌<◌, ◌≤◌, ◌↔◌, false, not, List, length, IsTrue};
ghost use Rattle.std.specs.List.{AllPairs, Contains};
ghost use Rattle.game_rules.specs.declared.RuleParts.{RuleParts};
ghost use Rattle.game_rules.specs.declared.Move.{Move};
ghost use Rattle.game_rules.specs.Rules.{deals_to_waste, is_unlimited};
ghost use Rattle.game_rules.specs.Playable.{IsPlayable};
ghost use Rattle.game_rules.specs.Belonging.{Belongs};
ghost use Rattle.game_rules.specs.Board.{Board};
ghost use Rattle.game_rules.specs.Play.{Legal, after};
ghost use Rattle.game_rules.specs.Winning.{Line, Won, Wins};
ghost use Rattle.game_rules.specs.StockMoves.{after_stock_moves, is_carry};
ghost use Rattle.game_rules.specs.NextByStock.{IsNextByStock};
ghost use Rattle.stock_steps.specs.declared.Step.{Step};
ghost use Rattle.stock_steps.specs.Steps.{after_step, after_steps, expand, expand_trail};
ghost use Rattle.stock_steps.specs.Making.{CanAllBeMade, CanBeMade};
ghost use Rattle.stock_steps.specs.Steps.{is_from_elsewhere, steps, stock_steps};
ghost use Rattle.stock_steps.specs.StockSteps.{ComesAgain, Commute, HasWinningStep, IsAlongRun, IsReached, IsStockRun};
ghost use Rattle.stock_steps.specs.StockSteps.{StandsBefore, StockStep};

/// The list of stock steps holds exactly these, each once, by the number of stock moves and then in
/// the order of moves.
pub fn stock_steps_are_listed()
    ensures exact { (rules : RuleParts) (board : Board) (step : Step) → IsPlayable rules
        → Contains (stock_steps rules board) step ↔ StockStep rules board step }
    ensures once { (rules : RuleParts) (board : Board)
        → AllPairs (λ a b. a ≢ b) (stock_steps rules board) }
    ensures order { (rules : RuleParts) (board : Board) → IsPlayable rules
        → IsTrue (deals_to_waste rules.target)
        → IsAlongRun rules board (stock_steps rules board) }
{}

/// A stock step has fewer than 8,500 stock moves, and at most 84 if redeals are unlimited.
pub fn stock_steps_are_short()
    ensures all { (rules : RuleParts) (board : Board) (step : Step) → IsPlayable rules
        → Belongs rules board
        → StockStep rules board step → step.deals < 8500 }
    ensures unlimited { (rules : RuleParts) (board : Board) (step : Step) → IsPlayable rules
        → Belongs rules board
        → IsTrue (is_unlimited rules.redeals) → StockStep rules board step → step.deals ≤ 84 }
{}

/// The lengths of stocks alone tell whether the board after the next stock move is one of the run.
pub fn stock_runs_end_by_length()
    ensures counted { (rules : RuleParts) (board next : Board) (k : ℕ) (boards : ℕ → Board)
        → IsPlayable rules
        → IsTrue (deals_to_waste rules.target) → is_unlimited rules.redeals ≡ false
        → IsStockRun rules board k boards → IsNextByStock rules (boards k) next
        → StandsBefore boards k next → ⊥ }
    ensures unlimited { (rules : RuleParts) (board next : Board) (k : ℕ) (boards : ℕ → Board)
        → IsPlayable rules
        → IsTrue (deals_to_waste rules.target) → IsTrue (is_unlimited rules.redeals)
        → IsStockRun rules board k boards → IsNextByStock rules (boards k) next
        → StandsBefore boards k next ↔ ComesAgain board boards k next }
{}

/// A carry that is not from the waste may be made before a stock move in place of after it.
pub fn stock_moves_commute()
    ensures { (rules : RuleParts) (board : Board) (stock carry : Move)
        → IsTrue (deals_to_waste rules.target)
        → IsTrue (not (is_carry stock)) → IsTrue (is_from_elsewhere carry)
        → Legal rules board stock → Legal rules (after rules board stock) carry
        → Commute rules board stock carry }
{}

/// If the board after a stock move is won, so is the board before it.
pub fn stock_moves_win_nothing()
    ensures { (rules : RuleParts) (a b : Board) → IsTrue (deals_to_waste rules.target)
        → IsNextByStock rules a b
        → Won rules b → Won rules a }
{}

/// Each board that stock moves lead to is reached by a run of them with no board twice.
pub fn stock_moves_can_be_cut()
    ensures { (rules : RuleParts) (board : Board) (k : ℕ) → IsPlayable rules
        → IsTrue (deals_to_waste rules.target)
        → IsReached rules board (after_stock_moves rules k board) }
{}

/// A step that can be made is a line of its single moves, which leads to the board after the step, and
/// so are steps one after the other. Each step of a board can be made, and stands once in its list.
pub fn steps_are_lines()
    ensures line { (rules : RuleParts) (board : Board) (step : Step) → CanBeMade rules board step
        → Line rules board (expand rules board step) (after_step rules board step) }
    ensures lines { (rules : RuleParts) (board : Board) (trail : List Step)
        → CanAllBeMade rules board trail
        → Line rules board (expand_trail rules board trail) (after_steps rules board trail) }
    ensures belongs { (rules : RuleParts) (board : Board) (step : Step) → IsPlayable rules
        → Belongs rules board
        → CanBeMade rules board step → Belongs rules (after_step rules board step) }
    ensures made { (rules : RuleParts) (board : Board) (step : Step) → IsPlayable rules
        → Contains (steps rules board) step → CanBeMade rules board step }
    ensures once { (rules : RuleParts) (board : Board) → AllPairs (λ a b. a ≢ b) (steps rules board) }
    ensures wins { (rules : RuleParts) (n : ℕ) (board : Board) (step : Step)
        → CanBeMade rules board step
        → Wins rules n (after_step rules board step)
        → Wins rules (length (expand rules board step) + n) board }
{}

/// No win is lost by the steps of a board: if a board that is not won wins within `n + 1` moves, one
/// of its steps leads to a board that wins within `n`, whether it has a safe move or not.
pub fn steps_lose_no_win()
    ensures { (rules : RuleParts) (n : ℕ) (board : Board) → IsPlayable rules → Belongs rules board
        → (Won rules board → ⊥) → Wins rules (n + 1) board → HasWinningStep rules n board }
{}
