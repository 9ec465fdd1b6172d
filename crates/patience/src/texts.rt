//! The reports of refusals and failures, each with its text.
ghost use Rattle.std.specs.Prelude.{◌≡◌, ◌++◌, IfOk};
ghost use Rattle.deal_reader.specs.FaultText.{deal_fault_text};
ghost use Rattle.line_printer.specs.FaultText.{line_fault_text};
ghost use Rattle.rules_json.specs.Faults.{rules_fault_text};
ghost use Rattle.seed_deal.specs.FaultText.{seed_fault_text};
ghost use Rattle.solver_words.specs.FaultText.{word_fault_text};
ghost use Rattle.patience.specs.Texts.{words_text, failed_text, refused_text, illegal_text, ends_short_text, wins_text};

use crate::report::{FileRole, Report};
use crate::status::Status;
use deal_reader::DealFault;
use line_printer::LineFault;
use rules_json::RulesFault;
use seed_deal::SeedFault;
use solver_words::WordFault;
use std::alloc::{AllocError, Global};

/// The words name no job.
pub fn usage(alloc: Global, fault: WordFault) -> Result<Report, AllocError>
    ensures { IfOk result (λ report. (report.status ≡ Status.Usage)
        × (report.text.items ≡ words_text (word_fault_text fault))) }
{
    let text = format!(in alloc; "refused words {fault}\n")?;
    Ok(Report {
        status: Status::Usage,
        text: text.into_bytes(),
    })
}

/// A file could not be fetched.
pub fn failed(alloc: Global, file: FileRole) -> Result<Report, AllocError>
    ensures { IfOk result
        (λ report. (report.status ≡ Status.ShelfFailed) × (report.text.items ≡ failed_text file)) }
{
    let text = format!(in alloc; "failed {file}\n")?;
    Ok(Report {
        status: Status::ShelfFailed,
        text: text.into_bytes(),
    })
}

/// The rules file has a fault.
pub fn rules_refused(alloc: Global, fault: RulesFault) -> Result<Report, AllocError>
    ensures { IfOk result (λ report. (report.status ≡ Status.RulesRefused)
        × (report.text.items ≡ refused_text FileRole.Rules (rules_fault_text fault))) }
{
    let text = format!(in alloc; "refused rules {fault}\n")?;
    Ok(Report {
        status: Status::RulesRefused,
        text: text.into_bytes(),
    })
}

/// The deal file has a fault.
pub fn deal_refused(alloc: Global, fault: DealFault) -> Result<Report, AllocError>
    ensures { IfOk result (λ report. (report.status ≡ Status.DealRefused)
        × (report.text.items ≡ refused_text FileRole.Deal (deal_fault_text fault))) }
{
    let text = format!(in alloc; "refused deal {fault}\n")?;
    Ok(Report {
        status: Status::DealRefused,
        text: text.into_bytes(),
    })
}

/// No seed deals a board under the rules.
pub fn seed_refused(alloc: Global, fault: SeedFault) -> Result<Report, AllocError>
    ensures { IfOk result (λ report. (report.status ≡ Status.DealRefused)
        × (report.text.items ≡ refused_text FileRole.Deal (seed_fault_text fault))) }
{
    let text = format!(in alloc; "refused deal {fault}\n")?;
    Ok(Report {
        status: Status::DealRefused,
        text: text.into_bytes(),
    })
}

/// The line file has a fault.
pub fn line_refused(alloc: Global, fault: LineFault) -> Result<Report, AllocError>
    ensures { IfOk result (λ report. (report.status ≡ Status.LineRefused)
        × (report.text.items ≡ refused_text FileRole.Line (line_fault_text fault))) }
{
    let text = format!(in alloc; "refused line {fault}\n")?;
    Ok(Report {
        status: Status::LineRefused,
        text: text.into_bytes(),
    })
}

/// The move at the place is the first that is not legal.
pub fn illegal(alloc: Global, at: u64) -> Result<Report, AllocError>
    ensures { IfOk result (λ report. (report.status ≡ Status.LineRefused)
        × (report.text.items ≡ refused_text FileRole.Line (illegal_text at))) }
{
    let text = format!(in alloc; "refused line illegal {at}\n")?;
    Ok(Report {
        status: Status::LineRefused,
        text: text.into_bytes(),
    })
}

/// The moves are legal and end before a won board.
pub fn ends_short(alloc: Global) -> Result<Report, AllocError>
    ensures { IfOk result (λ report. (report.status ≡ Status.LineRefused)
        × (report.text.items ≡ refused_text FileRole.Line ends_short_text)) }
{
    let text = b"refused line ends-short\n".to_vec(alloc)?;
    Ok(Report {
        status: Status::LineRefused,
        text,
    })
}

/// The moves lead to a won board.
pub fn wins(alloc: Global, moves: usize) -> Result<Report, AllocError>
    ensures { IfOk result
        (λ report. (report.status ≡ Status.Done) × (report.text.items ≡ wins_text moves)) }
{
    let text = format!(in alloc; "wins\nmoves {moves}\n")?;
    Ok(Report {
        status: Status::Done,
        text: text.into_bytes(),
    })
}
