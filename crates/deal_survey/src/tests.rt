//! Surveys with a Judge that holds its answers, and the text of a small one.
ghost use Rattle.std.specs.Prelude.{◌≡◌, ℕ, ◌-◌, slice_get, Some};

use crate::{Counts, Judge, Judged, survey, write_survey};
use outside_io::SinkNoMemory;
use std::test::Fail;

/// Holds the answers of four seeds from `first` on. A seed past them has none, and is refused.
#[derive(Drop)]
struct Listed {
    first: u64,
    answers: [Judged; 4],
}

impl Judge for Listed {
    ghost allows = { λ judge seed judged. slice_get judge.answers (seed - judge.first) ≡ Some judged };

    fn judge(&mut self, seed: u64) -> Result<Judged, SinkNoMemory> {
        match self.answers.get(seed.saturating_sub(self.first) as usize) {
            Some(judged) => Ok(*judged),
            None => Err(SinkNoMemory),
        }
    }
}

const LISTED: Listed = Listed {
    first: 41,
    answers: [
        Judged::Winnable,
        Judged::Undecided,
        Judged::Unwinnable,
        Judged::Winnable,
    ],
};

#[test]
fn each_seed_has_its_answer_and_counts(rt: HostRuntime) -> Result<(), Fail> {
    let mut judge = LISTED;
    let mut answers = Vec::new(rt.alloc());
    answers.push(Judged::Undecided)?;
    let counts = survey(&mut judge, 42, 3, &mut answers)?;
    assert!(rt;
        counts
            == Counts {
                winnable: 1,
                unwinnable: 1,
                undecided: 1
            }
    );
    let listed = [
        Judged::Undecided,
        Judged::Undecided,
        Judged::Unwinnable,
        Judged::Winnable,
    ];
    assert!(rt; answers.as_slice() == listed.as_slice());
    Ok(())
}

#[test]
fn a_refusal_leaves_the_answers_as_they_were(rt: HostRuntime) -> Result<(), Fail> {
    let mut judge = LISTED;
    let mut answers = Vec::new(rt.alloc());
    answers.push(Judged::Winnable)?;
    assert!(rt; survey(&mut judge, 42, 4, &mut answers) == Err(SinkNoMemory));
    assert!(rt; answers.as_slice() == [Judged::Winnable].as_slice());
    Ok(())
}

#[test]
fn a_survey_has_its_text(rt: HostRuntime) -> Result<(), Fail> {
    let answers = [Judged::Undecided, Judged::Winnable, Judged::Unwinnable];
    let counts = Counts {
        winnable: 1,
        unwinnable: 1,
        undecided: 1,
    };
    let text = write_survey(rt.alloc(), u64::MAX - 2, &counts, answers.as_slice())?;
    assert!(rt;
        text.as_slice()
            == b"survey\nseeds 3\nwinnable 1\nunwinnable 1\nundecided 1\n\
        18446744073709551613 undecided\n18446744073709551614 winnable\n18446744073709551615 unwinnable\n"
                .as_slice()
    );
    Ok(())
}
