//! What a verdict says in plain words, each the contract of a function that does nothing.

ghost use Rattle.std.specs.Prelude.{◌≡◌, ◌≢◌, ℕ, ◌≤◌, List};
ghost use Rattle.game_rules.specs.declared.RuleParts.{RuleParts};
ghost use Rattle.game_rules.specs.declared.Move.{Move};
ghost use Rattle.game_rules.specs.Board.{Board};
ghost use Rattle.game_rules.specs.Winning.{Won, Line};
ghost use Rattle.line_printer.specs.declared.verdict.Verdict.{Verdict};
ghost use Rattle.line_printer.specs.declared.verdict.Verdict.TheVariants as verdict;
ghost use Rattle.solve_job.specs.declared.limits.Limits.{Limits};
ghost use Rattle.search_space.specs.Game.{plain_game};
ghost use Rattle.search_space.specs.Narrow.{narrow_game};
ghost use Rattle.trails.specs.Many.{HasMoreTrails};
ghost use Rattle.solve_job.specs.Verdicts.{FindsWin, IsVerdict};
ghost use Rattle.solve_job.specs.Nodes.{nodes_of, narrow_nodes_of};

/// Winnable: each move of the line is legal where it is made, and the last board is won.
pub fn winnable_means_that_the_line_wins()
    ensures { (rules : RuleParts) (start : Board) (limits : Limits) (line : List Move)
        (nodes narrow_nodes : ℕ)
        → IsVerdict rules start limits (verdict.Winnable line nodes narrow_nodes)
        → (end : Board) × Line rules start line end × Won rules end }
{}

/// Unwinnable: no list of moves at all, whatever its length, is a line of legal moves to a won board.
pub fn unwinnable_means_that_no_line_wins()
    ensures { (rules : RuleParts) (start : Board) (limits : Limits) (nodes narrow_nodes : ℕ)
        → IsVerdict rules start limits (verdict.Unwinnable nodes narrow_nodes)
        → (moves : List Move) (end : Board) → Line rules start moves end → ¬ Won rules end }
{}

/// Undecided: as many nodes were spent as the limit allows, and no fewer.
pub fn undecided_means_that_all_nodes_are_spent()
    ensures { (rules : RuleParts) (start : Board) (limits : Limits) (nodes narrow_nodes : ℕ)
        → IsVerdict rules start limits (verdict.Undecided nodes narrow_nodes)
        → nodes ≡ limits.nodes }
{}

/// Undecided: the game has more clean trails than nodes were spent, none of them with more steps than that.
pub fn undecided_means_that_trails_are_many()
    ensures { (rules : RuleParts) (start : Board) (limits : Limits) (nodes narrow_nodes : ℕ)
        → IsVerdict rules start limits (verdict.Undecided nodes narrow_nodes)
        → HasMoreTrails (plain_game rules) start nodes }
{}

/// Where no restricted search is asked for, none of its nodes is counted.
pub fn narrow_nodes_are_asked_for()
    ensures { (rules : RuleParts) (start : Board) (limits : Limits) (verdict : Verdict)
        → limits.narrow ≡ 0 → IsVerdict rules start limits verdict → narrow_nodes_of verdict ≡ 0 }
{}

/// Winnable: the nodes tell which search found the line. With one at least it was the plain search; with none, where
/// the start is not won, it was the restricted one, which was asked for.
pub fn nodes_tell_which_search_won()
    ensures plain { (rules : RuleParts) (start : Board) (limits : Limits) (line : List Move)
        (nodes narrow_nodes : ℕ)
        → IsVerdict rules start limits (verdict.Winnable line nodes narrow_nodes) → 1 ≤ nodes
        → FindsWin (plain_game rules) rules start limits.cache limits.nodes line nodes }
    ensures restricted { (rules : RuleParts) (start : Board) (limits : Limits) (line : List Move)
        (narrow_nodes : ℕ)
        → IsVerdict rules start limits (verdict.Winnable line 0 narrow_nodes) → ¬ Won rules start
        → (limits.narrow ≢ 0) × FindsWin (narrow_game rules limits.way) rules start limits.cache
        limits.narrow line narrow_nodes }
{}

/// Where no restricted search comes first and no more nodes were spent than the cache has room for, the rules, the
/// start and the limit fix the verdict with its line and its nodes: each cache that is large enough leads to the same
/// one.
pub fn verdicts_within_the_cache_are_fixed()
    ensures { (rules : RuleParts) (start : Board) (limits limits' : Limits) (one other : Verdict)
        → limits.narrow ≡ 0 → limits'.narrow ≡ 0 → limits.nodes ≡ limits'.nodes
        → IsVerdict rules start limits one → IsVerdict rules start limits' other
        → nodes_of one ≤ limits.cache → nodes_of other ≤ limits'.cache
        → one ≡ other }
{}

/// Where the restricted search spent no more nodes than the cache has room for, the rules, the start, how many nodes it
/// may spend and how it is restricted fix how many it spent: each cache that is large enough leads to the same count.
pub fn narrow_nodes_within_the_cache_are_fixed()
    ensures { (rules : RuleParts) (start : Board) (limits limits' : Limits) (one other : Verdict)
        → limits.narrow ≡ limits'.narrow → limits.way ≡ limits'.way
        → IsVerdict rules start limits one → IsVerdict rules start limits' other
        → narrow_nodes_of one ≤ limits.cache → narrow_nodes_of other ≤ limits'.cache
        → narrow_nodes_of one ≡ narrow_nodes_of other }
{}
