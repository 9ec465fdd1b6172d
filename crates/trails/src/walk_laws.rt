//! What follows from the definitions of walks alone: each function's contract is one law, and its body is empty.

ghost use Rattle.std.specs.Prelude.{◌≡◌, ◌≢◌, ℕ, ◌+◌, ◌<◌, ◌≤◌};
ghost use Rattle.std.specs.Prelude.{List, [], ◌∷◌, ◌++◌, length, take, min, AllPairs, Contains};
ghost use Rattle.trails.specs.Game.{Game};
ghost use Rattle.trails.specs.Trails.{IsPrefix, IsClean};
ghost use Rattle.trails.specs.Walks.{Follows, IsWalk, IsClosed};
ghost use Rattle.trails.specs.Fresh.{IsFresh, IsCover};
ghost use Rattle.trails.specs.Complete.{IsComplete};
ghost use Rattle.trails.specs.Order.{HasPlainSteps, HasPlainEnds, IsOpen, IsAlike, IsEnded};
ghost use Rattle.trails.specs.Many.{HasMoreTrails};

/// What has a game, as the laws see it. No code plays it.
pub trait HasGame {
    /// What is reached.
    type State;

    /// What leads on.
    type Step;

    /// The game.
    ghost game: { Self → Game Self.State Self.Step };

    /// Which states win within a number of moves.
    ghost wins: { Self → ℕ → Self.State → Type 0 };
}

/// A walk contains every prefix of its trails.
pub fn a_walk_contains_prefixes<G: HasGame>(of: &G)
    ensures { (start : G.State) (walk : List (List G.Step))
        → IsWalk (G.game of.now) start walk
        → (trail front : List G.Step) → Contains walk trail → IsPrefix front trail
        → Contains walk front }
{}

/// The trails of a walk are pairwise different, where no step stands twice in a state's list.
pub fn trails_of_a_walk_differ<G: HasGame>(of: &G)
    ensures { (start : G.State) (walk : List (List G.Step))
        → IsWalk (G.game of.now) start walk
        → HasPlainSteps (G.game of.now) start
        → AllPairs (λ a b. a ≢ b) walk }
{}

/// At most one trail that follows a walk has an end that is won, or that is the same as no end of the walk.
pub fn at_most_one_open_trail_follows<G: HasGame>(of: &G)
    ensures { (start : G.State) (walk : List (List G.Step))
        → IsWalk (G.game of.now) start walk
        → HasPlainSteps (G.game of.now) start
        → (z y : List G.Step)
        → Follows (G.game of.now) start walk z
        → Follows (G.game of.now) start walk y
        → IsOpen (G.game of.now) start walk z
        → IsOpen (G.game of.now) start walk y
        → z ≡ y }
{}

/// No such trail follows a walk that is closed.
pub fn no_open_trail_follows_a_closed_walk<G: HasGame>(of: &G)
    ensures { (start : G.State) (walk : List (List G.Step))
        → IsWalk (G.game of.now) start walk
        → HasPlainSteps (G.game of.now) start
        → IsClosed (G.game of.now) start walk
        → (z : List G.Step)
        → Follows (G.game of.now) start walk z
        → ¬ IsOpen (G.game of.now) start walk z }
{}

/// In a walk that is fresh up to a number, no two of the first trails have the same end, up to one more than the
/// number.
pub fn first_ends_differ<G: HasGame>(of: &G)
    ensures { (start : G.State) (walk : List (List G.Step)) (fresh : ℕ)
        → IsAlike (G.game of.now)
        → IsWalk (G.game of.now) start walk
        → IsFresh (G.game of.now) fresh start walk
        → HasPlainEnds (G.game of.now) start (take (fresh + 1) walk) }
{}

/// The same of a walk with a trail that follows it.
pub fn first_ends_differ_with_one_more<G: HasGame>(of: &G)
    ensures { (start : G.State) (walk : List (List G.Step)) (z : List G.Step) (fresh : ℕ)
        → IsAlike (G.game of.now)
        → IsWalk (G.game of.now) start walk
        → Follows (G.game of.now) start walk z
        → IsFresh (G.game of.now) fresh start (walk ++ z ∷ [])
        → HasPlainEnds (G.game of.now) start (take (fresh + 1) (walk ++ z ∷ [])) }
{}

/// A walk that is fresh up to its own length is fixed by the game, the start and that length.
pub fn a_fresh_walk_is_fixed<G: HasGame>(of: &G)
    ensures { (start : G.State) (walk other : List (List G.Step)) (fresh : ℕ)
        → HasPlainSteps (G.game of.now) start
        → IsAlike (G.game of.now)
        → IsWalk (G.game of.now) start walk
        → IsWalk (G.game of.now) start other
        → IsFresh (G.game of.now) fresh start walk
        → IsFresh (G.game of.now) fresh start other
        → length walk ≡ length other → length walk ≤ fresh + 1 → walk ≡ other }
{}

/// Two walks within one limit that come to an end are one walk, if each is fresh up to a number that it is no longer
/// than. So no memo changes what a search does that forgets nothing.
pub fn ended_walks_are_one<G: HasGame>(of: &G)
    ensures { (start : G.State) (walk other : List (List G.Step)) (fresh fresh' limit : ℕ)
        → HasPlainSteps (G.game of.now) start
        → IsAlike (G.game of.now)
        → IsWalk (G.game of.now) start walk
        → IsWalk (G.game of.now) start other
        → IsFresh (G.game of.now) fresh start walk
        → IsFresh (G.game of.now) fresh' start other
        → length walk ≤ fresh → length other ≤ fresh'
        → length walk ≤ limit → length other ≤ limit
        → IsEnded (G.game of.now) start limit walk
        → IsEnded (G.game of.now) start limit other
        → walk ≡ other }
{}

/// Where a clean trail follows a walk, and the two together are fresh up to a number, every list of states that
/// covers the game is longer than the walk or longer than the number.
pub fn covers_are_longer<G: HasGame>(of: &G)
    ensures { (start : G.State) (walk : List (List G.Step)) (z : List G.Step) (fresh : ℕ)
        (states : List G.State)
        → IsAlike (G.game of.now)
        → IsWalk (G.game of.now) start walk
        → IsClean (G.game of.now) start z
        → Follows (G.game of.now) start walk z
        → IsFresh (G.game of.now) fresh start (walk ++ z ∷ [])
        → IsCover (G.game of.now) start states
        → min (length walk) fresh < length states }
{}

/// Where a clean trail follows a walk, the game has more clean trails than the walk, none with more steps than the walk
/// has trails.
pub fn clean_trails_are_more<G: HasGame>(of: &G)
    ensures { (start : G.State) (walk : List (List G.Step)) (z : List G.Step)
        → HasPlainSteps (G.game of.now) start
        → IsWalk (G.game of.now) start walk
        → IsClean (G.game of.now) start z
        → Follows (G.game of.now) start walk z
        → HasMoreTrails (G.game of.now) start (length walk) }
{}

/// In a complete game a closed walk leaves no win. This is why a search that is exhausted may say so.
pub fn a_closed_walk_leaves_no_win<G: HasGame>(of: &G)
    ensures { (start : G.State) (walk : List (List G.Step))
        → IsComplete (G.game of.now) (G.wins of.now) start
        → IsWalk (G.game of.now) start walk
        → IsClosed (G.game of.now) start walk
        → (n : ℕ) → ¬ G.wins of.now n start }
{}
