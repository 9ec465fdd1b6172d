//! Where a job's board comes from: its deal file, or its seed.
ghost use Rattle.std.specs.Prelude.{ℕ, ◌≡◌, ◌≤◌, None, IfOk, IfErr, List};
ghost use Rattle.game_rules.specs.Belonging.{Belongs};
ghost use Rattle.seed_deal.specs.Seeds.{seed_board, seed_fault};
ghost use Rattle.solver_words.specs.Texts.{texts};
ghost use Rattle.patience.specs.Asked.{job_asked};
ghost use Rattle.patience.specs.Causes.{Explains, HasRules, HasStart};
ghost use Rattle.patience.specs.Stages.{Stops, RefusesSeed};

use crate::asked::Asked;
use crate::files::fetch_deal;
use crate::report::Stop;
use crate::texts;
use game_model::{Board, Rules};
use outside_io::Shelf;
use seed_deal::{SeedFault, deal_from_seed};
use solver_words::Source;
use std::alloc::Global;

/// The board that the seed deals under the rules.
pub fn deal_seed(alloc: Global, rules: &Rules, seed: u64) -> Result<Board, Stop>
    ensures dealt { IfOk result (λ board. board ≡ seed_board rules.now seed) }
    ensures fits { IfOk result (λ board. seed_fault rules.now ≡ None) }
    ensures belongs { IfOk result (λ board. Belongs rules.now board) }
    ensures refused { IfErr result (Stops (RefusesSeed rules.now)) }
{
    match deal_from_seed(alloc, rules, seed) {
        Ok(board) => Ok(board),
        Err(SeedFault::Memory) => Err(Stop::NoMemory),
        Err(fault) => {
            let report = texts::seed_refused(alloc, fault)?;
            Err(Stop::Told(report))
        }
    }
}

/// The board that is to be solved.
pub fn fetch_start<S: Shelf>(
    alloc: Global,
    words: &[String],
    asked: Asked,
    rules: &Rules,
    shelf: &mut S,
) -> Result<Board, Stop>
    requires { HasRules (S.files shelf.old) (texts words.now) (job_asked asked) rules.now }
    ensures files { S.files shelf.new ≡ S.files shelf.old }
    ensures never_falls { (name : List ℕ) → S.faults shelf.old name ≤ S.faults shelf.new name }
    ensures accepted { IfOk result
        (HasStart (S.files shelf.old) (texts words.now) (job_asked asked) rules.now) }
    ensures belongs { IfOk result (Belongs rules.now) }
    ensures stopped { IfErr result (Stops (Explains
        (record { files = S.files shelf.old; before = S.faults shelf.old; after = S.faults shelf.new })
        (texts words.now))) }
{
    match asked.source {
        Source::File => fetch_deal(alloc, words, asked.job(), rules, shelf),
        Source::FromSeed(seed) => deal_seed(alloc, rules, seed),
    }
}
