//! Laws of surveys, each the contract of a function that does nothing.
ghost use Rattle.std.specs.Prelude.{◌≡◌, ◌+◌, List, length};
ghost use Rattle.deal_survey.specs.declared.judge.Judged.{Judged};
ghost use Rattle.deal_survey.specs.Counting.{counts_of};

/// The three counts add up to the number of answers.
pub fn counts_add_up()
    ensures { (answers : List Judged)
        → (counts_of answers).winnable + (counts_of answers).unwinnable
        + (counts_of answers).undecided ≡ length answers }
{}
