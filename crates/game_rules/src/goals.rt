//! What a goal says of foundations and of the hole.

ghost use Rattle.std.specs.Prelude.{◌≡◌};
ghost use Rattle.game_rules.specs.Rules.{base_of, hole_wraps, is_started, takes_back, takes_complete_runs};

use crate::Goal;

impl Goal {
    /// The rank at the bottom of each foundation, and the ace where the game has none.
    pub fn base(self) -> u8
        ensures { result ≡ base_of self }
    {
        match self {
            Goal::Foundations { base, .. } => base,
            Goal::Hole { .. } | Goal::Sequences => 1,
        }
    }

    /// Whether a dealt game begins with the first card of each foundation in its place.
    pub fn is_started(self) -> bool
        ensures { result ≡ is_started self }
    {
        match self {
            Goal::Foundations { started, .. } => started,
            Goal::Hole { .. } | Goal::Sequences => false,
        }
    }

    /// Whether the top of a foundation may be taken back.
    pub fn takes_back(self) -> bool
        ensures { result ≡ takes_back self }
    {
        match self {
            Goal::Foundations { take_back, .. } => take_back,
            Goal::Hole { .. } | Goal::Sequences => false,
        }
    }

    /// Whether a foundation takes a whole suit at once, and nothing else.
    pub fn takes_complete_runs(self) -> bool
        ensures { result ≡ takes_complete_runs self }
    {
        match self {
            Goal::Foundations { complete_runs, .. } => complete_runs,
            Goal::Hole { .. } | Goal::Sequences => false,
        }
    }

    /// Whether the greatest rank and the ace are neighbours in the hole.
    pub fn hole_wraps(self) -> bool
        ensures { result ≡ hole_wraps self }
    {
        match self {
            Goal::Hole { wrap, .. } => wrap,
            Goal::Foundations { .. } | Goal::Sequences => false,
        }
    }
}
