//! What a job that solves was given in its words.
ghost use Rattle.std.specs.Prelude.{◌≡◌};
ghost use Rattle.patience.specs.Asked.{job_asked, limits_asked};

use solve_job::{Limits, MemoKind};
use solver_words::{Job, MemoWord, Source, Way};
use streamliner::Streamliner;

/// What a job that solves was given.
#[derive(Clone, Copy, Debug)]
pub struct Asked {
    pub source: Source,
    pub cache: u32,
    pub nodes: u64,
    pub narrow: u64,
    pub way: Way,
    pub memo: MemoWord,
}

impl Asked {
    /// The job itself.
    pub fn job(self) -> Job
        ensures { result ≡ job_asked self }
    {
        let Asked {
            source,
            cache,
            nodes,
            narrow,
            way,
            memo,
        } = self;
        Job::Solve {
            source,
            cache,
            nodes,
            narrow,
            way,
            memo,
        }
    }

    /// What the searches may spend and remember.
    pub fn limits(self) -> Limits
        ensures { result ≡ limits_asked self }
    {
        let way = match self.way {
            Way::Foundations => Streamliner::AutoFoundations,
            Way::Suits => Streamliner::SuitSymmetry,
            Way::Both => Streamliner::Both,
        };
        let memo = match self.memo {
            MemoWord::Linked => MemoKind::Linked,
            MemoWord::Lru => MemoKind::Lru,
        };
        Limits {
            cache: self.cache,
            nodes: self.nodes,
            narrow: self.narrow,
            way,
            memo,
        }
    }
}
