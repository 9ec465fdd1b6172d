//! The files of a job: fetched by the words' names, and read.
ghost use Rattle.std.specs.Prelude.{ℕ, ◌≡◌, ◌≢◌, ◌≤◌, IfOk, IfErr, IsTrue, List, [], Ok, slice_index_or};
ghost use Rattle.outside_io.specs.Calls.{Fetches};
ghost use Rattle.game_rules.specs.Belonging.{Belongs};
ghost use Rattle.deal_reader.specs.Position.{position_of};
ghost use Rattle.line_printer.specs.LineFile.{line_of};
ghost use Rattle.rules_json.specs.Faults.{rules_fault_text};
ghost use Rattle.rules_json.specs.RulesFile.{rules_of};
ghost use Rattle.patience.specs.Texts.{refused_text};
ghost use Rattle.solver_words.specs.Jobs.{job_of};
ghost use Rattle.solver_words.specs.Texts.{texts};
ghost use Rattle.patience.specs.Causes.{Explains, HasRules, HasDeal, HasLine, takes_deal};
ghost use Rattle.patience.specs.Stages.{Stops, IsFailure, RefusesRules, RefusesDeal, RefusesLine};

use crate::report::{FileRole, Stop};
use crate::status::Status;
use crate::texts;
use deal_reader::{DealFault, read_position};
use game_model::{Board, Rules};
use legal_moves::Line;
use line_printer::{LineFault, read_line};
use outside_io::{Shelf, ShelfFault};
use rules_json::{RulesFault, read_rules};
use solver_words::Job;
use std::alloc::Global;

/// How many bytes a rules file or a deal file may have.
const MAX_FILE_LENGTH: u64 = 65_536;

/// How many bytes a line file may have.
const MAX_LINE_LENGTH: u64 = 67_108_864;

/// The word at a place, and no text where there is none.
fn word_at(words: &[String], place: usize) -> &str
    ensures { result.now ≡ slice_index_or (texts words.now) place [] }
{
    match words.get(place) {
        Some(word) => word.as_str(),
        None => "",
    }
}

/// The bytes of a file, up to one more than the limit.
fn fetch_file<S: Shelf>(
    alloc: Global,
    shelf: &mut S,
    name: &str,
    limit: u64,
    file: FileRole,
) -> Result<Vec<u8>, Stop>
    ensures files { S.files shelf.new ≡ S.files shelf.old }
    ensures never_falls { (other : List ℕ) → S.faults shelf.old other ≤ S.faults shelf.new other }
    ensures fetched { IfOk result (λ bytes. Fetches (S.files shelf.old) name.now limit [] bytes.items) }
    ensures failed { IfErr result
        (Stops (IsFailure file (S.faults shelf.old name.now) (S.faults shelf.new name.now))) }
{
    let mut bytes = Vec::new(alloc);
    match shelf.fetch(name, limit, &mut bytes) {
        Ok(()) => Ok(bytes),
        Err(ShelfFault::Failed) => {
            let report = texts::failed(alloc, file)?;
            Err(Stop::Told(report))
        }
        Err(ShelfFault::Memory) => Err(Stop::NoMemory),
    }
}

/// What a fault of the rules file is answered by.
fn stop_of_rules_fault(alloc: Global, fault: RulesFault) -> Stop
    ensures { Stops (λ status text. (fault ≢ RulesFault.Memory) × (status ≡ Status.RulesRefused)
        × (text ≡ refused_text FileRole.Rules (rules_fault_text fault))) result }
{
    match fault {
        RulesFault::Memory => Stop::NoMemory,
        _ => match texts::rules_refused(alloc, fault) {
            Ok(report) => Stop::Told(report),
            Err(_) => Stop::NoMemory,
        },
    }
}

/// The rules that a file gives.
fn rules_of_bytes(alloc: Global, bytes: &[u8]) -> Result<Rules, Stop>
    ensures accepted { IfOk result (λ rules. rules_of bytes.now ≡ Ok rules) }
    ensures refused { IfErr result (Stops (RefusesRules bytes.now)) }
{
    match read_rules(alloc, bytes) {
        Ok(rules) => Ok(rules),
        Err(fault) => Err(stop_of_rules_fault(alloc, fault)),
    }
}

/// The board that a deal file gives.
fn board_of_bytes(alloc: Global, rules: &Rules, bytes: &[u8]) -> Result<Board, Stop>
    ensures accepted { IfOk result (λ board. position_of rules.now bytes.now ≡ Ok board) }
    ensures belongs { IfOk result (λ board. Belongs rules.now board) }
    ensures refused { IfErr result (Stops (RefusesDeal rules.now bytes.now)) }
{
    match read_position(alloc, rules, bytes) {
        Ok(board) => Ok(board),
        Err(DealFault::Memory) => Err(Stop::NoMemory),
        Err(fault) => {
            let report = texts::deal_refused(alloc, fault)?;
            Err(Stop::Told(report))
        }
    }
}

/// The moves that a line file gives.
fn moves_of_bytes(alloc: Global, bytes: &[u8]) -> Result<Line, Stop>
    ensures accepted { IfOk result (λ moves. line_of bytes.now ≡ Ok moves) }
    ensures refused { IfErr result (Stops (RefusesLine bytes.now)) }
{
    match read_line(alloc, bytes) {
        Ok(moves) => Ok(moves),
        Err(LineFault::Memory) => Err(Stop::NoMemory),
        Err(fault) => {
            let report = texts::line_refused(alloc, fault)?;
            Err(Stop::Told(report))
        }
    }
}

/// The rules of the job.
pub fn fetch_rules<S: Shelf>(
    alloc: Global,
    words: &[String],
    job: Job,
    shelf: &mut S,
) -> Result<Rules, Stop>
    requires { job_of (texts words.now) ≡ Ok job }
    ensures files { S.files shelf.new ≡ S.files shelf.old }
    ensures never_falls { (name : List ℕ) → S.faults shelf.old name ≤ S.faults shelf.new name }
    ensures accepted { IfOk result (HasRules (S.files shelf.old) (texts words.now) job) }
    ensures stopped { IfErr result (Stops (Explains
        (record { files = S.files shelf.old; before = S.faults shelf.old; after = S.faults shelf.new })
        (texts words.now))) }
{
    let name = word_at(words, 1);
    let bytes = fetch_file(alloc, shelf, name, MAX_FILE_LENGTH, FileRole::Rules)?;
    rules_of_bytes(alloc, &bytes)
}

/// The deal of the job.
pub fn fetch_deal<S: Shelf>(
    alloc: Global,
    words: &[String],
    job: Job,
    rules: &Rules,
    shelf: &mut S,
) -> Result<Board, Stop>
    requires has_rules { HasRules (S.files shelf.old) (texts words.now) job rules.now }
    requires takes { IsTrue (takes_deal job) }
    ensures files { S.files shelf.new ≡ S.files shelf.old }
    ensures never_falls { (name : List ℕ) → S.faults shelf.old name ≤ S.faults shelf.new name }
    ensures accepted { IfOk result (HasDeal (S.files shelf.old) (texts words.now) job rules.now) }
    ensures belongs { IfOk result (Belongs rules.now) }
    ensures stopped { IfErr result (Stops (Explains
        (record { files = S.files shelf.old; before = S.faults shelf.old; after = S.faults shelf.new })
        (texts words.now))) }
{
    let name = word_at(words, 2);
    let bytes = fetch_file(alloc, shelf, name, MAX_FILE_LENGTH, FileRole::Deal)?;
    board_of_bytes(alloc, rules, &bytes)
}

/// The line of moves that a replay is of.
pub fn fetch_line<S: Shelf>(
    alloc: Global,
    words: &[String],
    rules: &Rules,
    board: &Board,
    shelf: &mut S,
) -> Result<Line, Stop>
    requires { HasDeal (S.files shelf.old) (texts words.now) Job.Replay rules.now board.now }
    ensures files { S.files shelf.new ≡ S.files shelf.old }
    ensures never_falls { (name : List ℕ) → S.faults shelf.old name ≤ S.faults shelf.new name }
    ensures accepted { IfOk result (HasLine (S.files shelf.old) (texts words.now) rules.now board.now) }
    ensures stopped { IfErr result (Stops (Explains
        (record { files = S.files shelf.old; before = S.faults shelf.old; after = S.faults shelf.new })
        (texts words.now))) }
{
    // The contract alone speaks of the rules and the board.
    let _ = rules;
    let _ = board;
    let name = word_at(words, 3);
    let bytes = fetch_file(alloc, shelf, name, MAX_LINE_LENGTH, FileRole::Line)?;
    moves_of_bytes(alloc, &bytes)
}
