//! A survey as text.
ghost use Rattle.std.specs.Prelude.{◌≡◌, ◌+◌, ◌≤◌, ◌^◌, ◌++◌, length, IfOk, string_bytes};
ghost use Rattle.deal_survey.specs.SurveyText.{survey_text, seed_lines};

use crate::{Counts, Judged};
use outside_io::SinkNoMemory;
use std::alloc::{AllocError, Global};
use std::fmt::Write;

/// Appends a line for each answer: its seed, a blank and its word. The first answer is for the seed `from`.
fn push_seeds(text: &mut String, from: u64, answers: &[Judged]) -> Result<(), AllocError>
    requires seeds { from + length answers.now ≤ 2 ^ 64 }
    ensures { IfOk result
        (λ _. string_bytes text.new ≡ string_bytes text.old ++ seed_lines from answers.now) }
{
    for (place, judged) in answers.iter().enumerate() {
        let seed = from + place as u64;
        write!(text, "{seed} {judged}\n")?;
    }
    Ok(())
}

/// The text of a survey: `survey`, how many seeds there are and how many of each verdict, each on a line of its own,
/// and then a line for each answer, its seed and its verdict's word. The first answer is for the seed `from`. There
/// are 1 to 10,000 answers, and the last seed is a `u64`.
#[tactic(auto, unfolding(crate::specs::SurveyText::survey_text))]
pub fn write_survey(
    alloc: Global,
    from: u64,
    counts: &Counts,
    answers: &[Judged],
) -> Result<Vec<u8>, SinkNoMemory>
    requires some { 1 ≤ length answers.now }
    requires few { length answers.now ≤ 10000 }
    requires seeds { from + length answers.now ≤ 2 ^ 64 }
    ensures { IfOk result (λ text. text.items ≡ survey_text from counts.now answers.now) }
{
    let seeds = answers.len();
    let Counts {
        winnable,
        unwinnable,
        undecided,
    } = *counts;
    let mut text = format!(in alloc;
        "survey\nseeds {seeds}\nwinnable {winnable}\nunwinnable {unwinnable}\nundecided {undecided}\n"
    )?;
    push_seeds(&mut text, from, answers)?;
    Ok(text.into_bytes())
}
