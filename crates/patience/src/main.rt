//! The program: one job from the command words, with the files that they name, to the text that it prints.
//!
//! Means: a `Status` is how a run ended, and its number the exit status; a `Report` is a status and its text.
//! Above: whoever runs the program relies on `patience`, whose clauses say of each status and text why they came, and
//! which status is due to words and files.
//! Refuses: words, rules, deals and lines by their first fault, a file that fails, a sink that fails, want of memory.
//! Not promised: what a disk or a terminal holds, time, and what `main` does beside the call.
#![tactic(auto)]

mod asked;
#[cfg(test)]
mod ending_tests;
#[cfg(test)]
mod failing_tests;
#[cfg(test)]
mod file_words_tests;
mod files;
#[cfg(test)]
mod hostile_tests;
mod jobs;
mod lines;
#[cfg(test)]
mod memo_tests;
#[cfg(test)]
mod plain_words_tests;
mod report;
#[cfg(test)]
mod seed_tests;
#[cfg(test)]
mod solved_tests;
mod starts;
mod status;
#[cfg(test)]
mod tests;
mod texts;
mod top;
mod usage;

ghost use Rattle.std.specs.Prelude.{◌≡◌};
ghost use Rattle.std.specs.Process.{exit_status};
ghost use Rattle.patience.specs.Texts.{status_number};

use outside_io::{DiskShelf, StdSink};
use status::Status;
use std::alloc::Global;
use std::process::ExitCode;
use std::{env, io};
use top::patience;
use usage::print_usage;

/// The words after the program's name, or the exit status where they cannot be had.
fn words(rt: &HostRuntime) -> Result<Vec<String>, u8> {
    let arguments = match env::args(rt) {
        Ok(arguments) => arguments,
        Err(error) if error.kind() == io::ErrorKind::OutOfMemory => return Err(
            Status::Memory.number(),
        ),
        Err(_) => return Err(1),
    };
    let Ok(words) = arguments.skip(1).collect::<Vec<String>>(rt.alloc()) else {
        return Err(Status::Memory.number());
    };
    Ok(words)
}

/// The exit code of a run that ended so.
fn exit_code(status: Status) -> ExitCode
    ensures { exit_status result ≡ status_number status }
{
    ExitCode::from(status.number())
}

fn main(rt: HostRuntime) -> ExitCode {
    let words = match words(&rt) {
        Ok(words) => words,
        Err(number) => return ExitCode::from(number),
    };
    if words.len() >= 1 << 32 {
        return ExitCode::from(1);
    }
    let mut shelf = DiskShelf::new(&rt);
    let mut sink = StdSink::new(&rt);
    let status = patience(rt.alloc(), &words, &mut shelf, &mut sink);
    if status == Status::Usage {
        // A usage that cannot be printed changes nothing: the status and the refusal stand.
        let _ = print_usage(&rt);
    }
    exit_code(status)
}
