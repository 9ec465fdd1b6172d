//! The seeds of a range, judged one after the other.
ghost use Rattle.std.specs.Prelude.{◌≡◌, ◌↔◌, ℕ, ◌+◌, ◌<◌, ◌≤◌, ◌^◌, ◌++◌, length, IfOk, OnOk, OnErr};
ghost use Rattle.deal_survey.specs.declared.judge.Judged.{Judged};
ghost use Rattle.deal_survey.specs.Answers.{AreAllowed, added};
ghost use Rattle.deal_survey.specs.Counting.{counts_of};

use crate::counts::count as count_answers;
use crate::{Counts, Judge, Judged};
use outside_io::SinkNoMemory;

/// Appends an answer for each of the `count` seeds from `from` on, in order. After a refusal a part of them may be
/// appended.
fn judge_each<J: Judge>(
    judge: &mut J,
    from: u64,
    count: u32,
    out: &mut Vec<Judged>,
) -> Result<(), SinkNoMemory>
    requires seeds { from + count ≤ 2 ^ 64 }
    ensures grew { out.new.items ≡ out.old.items ++ added out.old.items out.new.items }
    ensures one_each { OnOk result (length (added out.old.items out.new.items) ≡ count) }
    ensures allowed { AreAllowed (J.allows judge.old) from (added out.old.items out.new.items) }
    ensures same { (seed : ℕ) (judged : Judged)
        → J.allows judge.new seed judged ↔ J.allows judge.old seed judged }
{
    for place in 0..count {
        let judged = judge.judge(from + place as u64)?;
        out.push(judged)?;
    }
    Ok(())
}

/// Judges `count` seeds from `from` on, one after the other, and appends the answers in that order: the answer at
/// place `i` of them is for the seed `from + i`. The result counts them. There are 1 to 10,000 seeds, and the last of
/// them is a `u64`.
///
/// A refusal comes for want of memory alone: that of the Judge, or of `out`. Then `out` is as before, and of the Judge
/// what it allows.
pub fn survey<J: Judge>(
    judge: &mut J,
    from: u64,
    count: u32,
    out: &mut Vec<Judged>,
) -> Result<Counts, SinkNoMemory>
    requires some { 1 ≤ count }
    requires few { count ≤ 10000 }
    requires seeds { from + count ≤ 2 ^ 64 }
    ensures grew { OnOk result
        (out.new.items ≡ out.old.items ++ added out.old.items out.new.items) }
    ensures one_each { OnOk result (length (added out.old.items out.new.items) ≡ count) }
    ensures allowed { OnOk result
        (AreAllowed (J.allows judge.old) from (added out.old.items out.new.items)) }
    ensures counted { IfOk result (λ counts. counts ≡ counts_of (added out.old.items out.new.items)) }
    ensures sum { IfOk result
        (λ counts. counts.winnable + counts.unwinnable + counts.undecided ≡ count) }
    ensures untouched { OnErr result (out.new.items ≡ out.old.items) }
    ensures same { (seed : ℕ) (judged : Judged)
        → J.allows judge.new seed judged ↔ J.allows judge.old seed judged }
{
    let start = out.len();
    match judge_each(judge, from, count, out) {
        Ok(()) => Ok(count_answers(&out[start..])),
        Err(refusal) => {
            out.truncate(start);
            Err(refusal)
        }
    }
}
