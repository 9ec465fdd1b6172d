//! The words of a command line.
ghost use Rattle.std.specs.Prelude.{◌≡◌, ◌+◌, ◌<◌, ◌≤◌, ◌^◌, length, Ok, Err, IfOk, IfErr};
ghost use Rattle.solver_words.specs.Texts.{texts};
ghost use Rattle.solver_words.specs.Jobs.{is_name as is_name_of, after_name as after_name_of, no_more as no_more_of};
ghost use Rattle.solver_words.specs.Jobs.{names_deal as names_deal_of, solve_given as solve_given_of, solve_file_of};
ghost use Rattle.solver_words.specs.Jobs.{solve_seed_of, solve_of, replay_of, deal_of, rules_of, job_of};
ghost use Rattle.solver_words.specs.Bounds.{name_count, IsWithinLimits};

use crate::options::{Options, Taker, read_options};
use crate::{Job, MemoWord, Source, Way, WordFault};

const DEFAULT_CACHE: u32 = 100_000;

const DEFAULT_NODES: u64 = 1_000_000;

fn is_name(word: &str) -> bool
    ensures { result ≡ is_name_of word.now }
{
    !word.starts_with("--")
}

// The words after a name.
fn after_name(words: &[String]) -> Result<&[String], WordFault>
    ensures rest { IfOk result (λ rest. after_name_of (texts words.now) ≡ Ok (texts rest.now)) }
    ensures missing { IfErr result (λ fault. after_name_of (texts words.now) ≡ Err fault) }
    ensures shorter { IfOk result (λ rest. length rest.now + 1 ≡ length words.now) }
{
    match words.split_first() {
        Some((name, rest)) if is_name(name.as_str()) => Ok(rest),
        _ => Err(WordFault::MissingName),
    }
}

// Refuses any word, the first of which stands at the place.
fn no_more(at: u32, words: &[String]) -> Result<(), WordFault>
    ensures { result ≡ no_more_of at (texts words.now) }
{
    if words.is_empty() {
        Ok(())
    } else {
        Err(WordFault::UnknownOption(at))
    }
}

// Whether the next word names a deal.
fn names_deal(words: &[String]) -> bool
    ensures { result ≡ names_deal_of (texts words.now) }
{
    match words.first() {
        Some(word) => is_name(word.as_str()),
        None => false,
    }
}

// The job that solves a deal of this source, with what the options say and their defaults.
fn solve_given(source: Source, given: Options) -> Job
    ensures { result ≡ solve_given_of source given }
{
    Job::Solve {
        source,
        cache: given.cache.unwrap_or(DEFAULT_CACHE),
        nodes: given.nodes.unwrap_or(DEFAULT_NODES),
        narrow: given.narrow.unwrap_or(0),
        way: given.way.unwrap_or(Way::Both),
        memo: given.memo.unwrap_or(MemoWord::Linked),
    }
}

fn solve_file(words: &[String]) -> Result<Job, WordFault>
    requires { length words.now + 2 < 2 ^ 32 }
    ensures job { result ≡ solve_file_of (texts words.now) }
    ensures names { IfOk result (λ job. name_count job ≤ length words.now + 1) }
{
    let words = after_name(words)?;
    let given = read_options(Taker::SolveFile, 3, words)?;
    Ok(solve_given(Source::File, given))
}

fn solve_seed(words: &[String]) -> Result<Job, WordFault>
    requires { length words.now + 2 < 2 ^ 32 }
    ensures job { result ≡ solve_seed_of (texts words.now) }
    ensures names { IfOk result (λ job. name_count job ≤ length words.now + 1) }
{
    let given = read_options(Taker::SolveSeed, 2, words)?;
    let Some(seed) = given.seed else {
        return Err(WordFault::MissingSeed);
    };
    Ok(solve_given(Source::FromSeed(seed), given))
}

fn solve(words: &[String]) -> Result<Job, WordFault>
    requires { length words.now + 1 < 2 ^ 32 }
    ensures job { result ≡ solve_of (texts words.now) }
    ensures names { IfOk result (λ job. name_count job ≤ length words.now) }
{
    let words = after_name(words)?;
    if names_deal(words) {
        solve_file(words)
    } else {
        solve_seed(words)
    }
}

fn replay(words: &[String]) -> Result<Job, WordFault>
    ensures job { result ≡ replay_of (texts words.now) }
    ensures names { IfOk result (λ job. name_count job ≤ length words.now) }
{
    let words = after_name(words)?;
    let words = after_name(words)?;
    let words = after_name(words)?;
    no_more(4, words)?;
    Ok(Job::Replay)
}

fn deal(words: &[String]) -> Result<Job, WordFault>
    requires { length words.now + 1 < 2 ^ 32 }
    ensures job { result ≡ deal_of (texts words.now) }
    ensures names { IfOk result (λ job. name_count job ≤ length words.now) }
{
    let words = after_name(words)?;
    let given = read_options(Taker::Deal, 2, words)?;
    match given.seed {
        Some(seed) => Ok(Job::Deal { seed }),
        None => Err(WordFault::MissingSeed),
    }
}

fn rules(words: &[String]) -> Result<Job, WordFault>
    ensures job { result ≡ rules_of (texts words.now) }
    ensures names { IfOk result (λ job. name_count job ≤ length words.now) }
{
    let words = after_name(words)?;
    no_more(2, words)?;
    Ok(Job::Rules)
}

/// The job that the words after the program's name stand for, or their first fault. A job's file
/// names are the words from 1 on, and each of them is there. Its numbers are within their limits.
/// Takes no memory.
pub fn read_words(words: &[String]) -> Result<Job, WordFault>
    requires { length words.now < 2 ^ 32 }
    ensures job { result ≡ job_of (texts words.now) }
    ensures names { IfOk result (λ job. name_count job < length words.now) }
    ensures within { IfOk result IsWithinLimits }
{
    let Some((command, words)) = words.split_first() else {
        return Err(WordFault::NoCommand);
    };
    match command.as_str() {
        "solve" => solve(words),
        "replay" => replay(words),
        "deal" => deal(words),
        "rules" => rules(words),
        _ => Err(WordFault::UnknownCommand),
    }
}
