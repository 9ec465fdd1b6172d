//! The jobs: each reads its files, does its work and makes its text.
ghost use Rattle.std.specs.Prelude.{ℕ, ◌≡◌, ◌≤◌, ◌<◌, ◌^◌, IfOk, IfErr, List, Ok, length};
ghost use Rattle.solver_words.specs.Jobs.{job_of};
ghost use Rattle.solver_words.specs.Texts.{texts};
ghost use Rattle.patience.specs.Asked.{job_asked};
ghost use Rattle.patience.specs.Causes.{Explains};
ghost use Rattle.patience.specs.Stages.{Stops};

use crate::asked::Asked;
use crate::files::{fetch_deal, fetch_line, fetch_rules};
use crate::report::{Report, Stop};
use crate::starts::{deal_seed, fetch_start};
use crate::status::Status;
use crate::texts as reports;
use card_piles::NoMemory;
use deal_reader::write_position;
use line_printer::write_verdict;
use outside_io::Shelf;
use rules_json::write_rules;
use solve_job::solve;
use solver_words::{Job, read_words};
use std::alloc::Global;
use win_replay::{Replayed, replay};

/// Solves the deal.
fn solve_deal<S: Shelf>(
    alloc: Global,
    words: &[String],
    asked: Asked,
    shelf: &mut S,
) -> Result<Report, Stop>
    requires { job_of (texts words.now) ≡ Ok (job_asked asked) }
    ensures files { S.files shelf.new ≡ S.files shelf.old }
    ensures never_falls { (name : List ℕ) → S.faults shelf.old name ≤ S.faults shelf.new name }
    ensures done { IfOk result (λ report. Explains
        (record { files = S.files shelf.old; before = S.faults shelf.old; after = S.faults shelf.new })
        (texts words.now) report.status report.text.items) }
    ensures stopped { IfErr result (Stops (Explains
        (record { files = S.files shelf.old; before = S.faults shelf.old; after = S.faults shelf.new })
        (texts words.now))) }
{
    let rules = fetch_rules(alloc, words, asked.job(), shelf)?;
    let start = fetch_start(alloc, words, asked, &rules, shelf)?;
    let limits = asked.limits();
    let verdict = solve(alloc, &rules, &start, &limits)?;
    let text = write_verdict(alloc, &verdict)?;
    Ok(Report {
        status: Status::Done,
        text,
    })
}

/// Replays the line from the deal.
fn replay_line<S: Shelf>(alloc: Global, words: &[String], shelf: &mut S) -> Result<Report, Stop>
    requires { job_of (texts words.now) ≡ Ok Job.Replay }
    ensures files { S.files shelf.new ≡ S.files shelf.old }
    ensures never_falls { (name : List ℕ) → S.faults shelf.old name ≤ S.faults shelf.new name }
    ensures done { IfOk result (λ report. Explains
        (record { files = S.files shelf.old; before = S.faults shelf.old; after = S.faults shelf.new })
        (texts words.now) report.status report.text.items) }
    ensures stopped { IfErr result (Stops (Explains
        (record { files = S.files shelf.old; before = S.faults shelf.old; after = S.faults shelf.new })
        (texts words.now))) }
{
    let rules = fetch_rules(alloc, words, Job::Replay, shelf)?;
    let start = fetch_deal(alloc, words, Job::Replay, &rules, shelf)?;
    let moves = fetch_line(alloc, words, &rules, &start, shelf)?;
    let report = match replay(alloc, &rules, &start, moves.items())? {
        Replayed::Wins => reports::wins(alloc, moves.items().len())?,
        Replayed::EndsShort => reports::ends_short(alloc)?,
        Replayed::Illegal { at } => reports::illegal(alloc, at)?,
    };
    Ok(report)
}

/// Prints the position that the seed deals.
fn print_deal<S: Shelf>(
    alloc: Global,
    words: &[String],
    seed: u64,
    shelf: &mut S,
) -> Result<Report, Stop>
    requires { job_of (texts words.now) ≡ Ok (Job.Deal seed) }
    ensures files { S.files shelf.new ≡ S.files shelf.old }
    ensures never_falls { (name : List ℕ) → S.faults shelf.old name ≤ S.faults shelf.new name }
    ensures done { IfOk result (λ report. Explains
        (record { files = S.files shelf.old; before = S.faults shelf.old; after = S.faults shelf.new })
        (texts words.now) report.status report.text.items) }
    ensures stopped { IfErr result (Stops (Explains
        (record { files = S.files shelf.old; before = S.faults shelf.old; after = S.faults shelf.new })
        (texts words.now))) }
{
    let rules = fetch_rules(alloc, words, Job::Deal { seed }, shelf)?;
    let board = deal_seed(alloc, &rules, seed)?;
    let mut text = write_position(alloc, &rules, &board)?;
    text.push(b'\n')?;
    Ok(Report {
        status: Status::Done,
        text,
    })
}

/// Spells the rules.
fn spell_rules<S: Shelf>(alloc: Global, words: &[String], shelf: &mut S) -> Result<Report, Stop>
    requires { job_of (texts words.now) ≡ Ok Job.Rules }
    ensures files { S.files shelf.new ≡ S.files shelf.old }
    ensures never_falls { (name : List ℕ) → S.faults shelf.old name ≤ S.faults shelf.new name }
    ensures done { IfOk result (λ report. Explains
        (record { files = S.files shelf.old; before = S.faults shelf.old; after = S.faults shelf.new })
        (texts words.now) report.status report.text.items) }
    ensures stopped { IfErr result (Stops (Explains
        (record { files = S.files shelf.old; before = S.faults shelf.old; after = S.faults shelf.new })
        (texts words.now))) }
{
    let rules = fetch_rules(alloc, words, Job::Rules, shelf)?;
    let mut text = write_rules(alloc, &rules)?;
    text.push(b'\n')?;
    Ok(Report {
        status: Status::Done,
        text,
    })
}

/// Does the job of the words.
fn do_job<S: Shelf>(
    alloc: Global,
    words: &[String],
    job: Job,
    shelf: &mut S,
) -> Result<Report, Stop>
    requires { job_of (texts words.now) ≡ Ok job }
    ensures files { S.files shelf.new ≡ S.files shelf.old }
    ensures never_falls { (name : List ℕ) → S.faults shelf.old name ≤ S.faults shelf.new name }
    ensures done { IfOk result (λ report. Explains
        (record { files = S.files shelf.old; before = S.faults shelf.old; after = S.faults shelf.new })
        (texts words.now) report.status report.text.items) }
    ensures stopped { IfErr result (Stops (Explains
        (record { files = S.files shelf.old; before = S.faults shelf.old; after = S.faults shelf.new })
        (texts words.now))) }
{
    match job {
        Job::Solve {
            source,
            cache,
            nodes,
            narrow,
            way,
            memo,
        } => {
            let asked = Asked {
                source,
                cache,
                nodes,
                narrow,
                way,
                memo,
            };
            solve_deal(alloc, words, asked, shelf)
        }
        Job::Replay => replay_line(alloc, words, shelf),
        Job::Deal { seed } => print_deal(alloc, words, seed, shelf),
        Job::Rules => spell_rules(alloc, words, shelf),
    }
}

/// Reads what the words name, and says what is to be written.
pub fn make_report<S: Shelf>(
    alloc: Global,
    words: &[String],
    shelf: &mut S,
) -> Result<Report, NoMemory>
    requires { length words.now < 2 ^ 32 }
    ensures explained { IfOk result (λ report. Explains
        (record { files = S.files shelf.old; before = S.faults shelf.old; after = S.faults shelf.new })
        (texts words.now) report.status report.text.items) }
    ensures files { S.files shelf.new ≡ S.files shelf.old }
    ensures never_falls { (name : List ℕ) → S.faults shelf.old name ≤ S.faults shelf.new name }
{
    let job = match read_words(words) {
        Ok(job) => job,
        Err(fault) => {
            let report = reports::usage(alloc, fault)?;
            return Ok(report);
        }
    };
    match do_job(alloc, words, job, shelf) {
        Ok(report) => Ok(report),
        Err(Stop::Told(report)) => Ok(report),
        Err(Stop::NoMemory) => Err(NoMemory),
    }
}
