//! What is said of a seed, and what says it.
ghost use Rattle.std.specs.Prelude.{◌↔◌, ℕ, Some, IfOk};
ghost use Rattle.deal_survey.specs.SurveyText.{word_of};

use outside_io::SinkNoMemory;
use std::fmt;

/// What is said of the deal of a seed.
#[derive(Clone, Copy, Debug, PartialEq, Eq)]
pub enum Judged {
    /// The deal can be won.
    Winnable,
    /// The deal cannot be won.
    Unwinnable,
    /// The limits were reached before either was known.
    Undecided,
}

impl fmt::Display for Judged {
    ghost output = { λ judged. Some (word_of judged) };

    fn fmt<W: fmt::Write>(&self, f: &mut fmt::Formatter<W>) -> fmt::Result {
        match self {
            Judged::Winnable => f.write_str("winnable"),
            Judged::Unwinnable => f.write_str("unwinnable"),
            Judged::Undecided => f.write_str("undecided"),
        }
    }
}

/// What judges the deals of seeds.
pub trait Judge {
    ghost use Rattle.deal_survey.specs.declared.judge.Judged.{Judged};

    /// Which answers it may give for a seed. No call changes it.
    ghost allows: { Self → ℕ → Judged → Type 0 };

    /// Judges the deal of the seed. After a refusal it still allows what it allowed, and nothing else is promised of it.
    fn judge(&mut self, seed: u64) -> Result<Judged, SinkNoMemory>
        ensures allowed { IfOk result (λ judged. allows self.old seed judged) }
        ensures same { (other : ℕ) (judged : Judged)
            → allows self.new other judged ↔ allows self.old other judged };
}
