//! How many answers there are of each kind.
ghost use Rattle.std.specs.Prelude.{◌≡◌, ◌+◌, length};
ghost use Rattle.deal_survey.specs.Counting.{counts_of};

use crate::Judged;

/// How many answers there are of each kind.
#[derive(Clone, Copy, Debug, PartialEq, Eq)]
pub struct Counts {
    pub winnable: u64,
    pub unwinnable: u64,
    pub undecided: u64,
}

/// How many of the answers are of each kind.
pub(crate) fn count(answers: &[Judged]) -> Counts
    ensures counted { result ≡ counts_of answers.now }
    ensures sum { result.winnable + result.unwinnable + result.undecided ≡ length answers.now }
{
    let mut counts = Counts {
        winnable: 0,
        unwinnable: 0,
        undecided: 0,
    };
    for judged in answers {
        match judged {
            Judged::Winnable => counts.winnable += 1,
            Judged::Unwinnable => counts.unwinnable += 1,
            Judged::Undecided => counts.undecided += 1,
        }
    }
    counts
}
