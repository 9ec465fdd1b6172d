//! The top call.
ghost use Rattle.std.specs.Prelude.{◌≡◌, ◌<◌, ◌≤◌, ◌^◌, List, ℕ, length};
ghost use Rattle.std.specs.Io.KnownBytes.{Appends, Keeps};
ghost use Rattle.outside_io.specs.Faults.{Rose};
ghost use Rattle.outside_io.specs.Sink.{AppendsPrefix};
ghost use Rattle.solver_words.specs.Texts.{texts};
ghost use Rattle.patience.specs.Causes.{Explains};
ghost use Rattle.patience.specs.Complete.{IsComplete};
ghost use Rattle.patience.specs.Answers.{IsDue, WritesWhole, WritesPart};

use crate::jobs::make_report;
use crate::lines::put_lines;
use crate::status::Status;
use outside_io::{Shelf, Sink};
use std::alloc::Global;

/// Does the job that the words name, with the files of the shelf, and writes its text to the sink.
///
/// For every accepted rules file, deal, cache size and node budget, it prints `winnable` with a line of legal moves
/// from the deal to a won board under the unreduced rules, `unwinnable` only if no such line of any length exists, and
/// `undecided` only after the stated number of nodes, each an expansion along a different line that repeats no board.
/// The clauses `whole` and `exact` say so, with `IsSolved` and `IsVerdict`.
///
/// The words are those after the program's name. The text, the job's own or that of a refusal, is built whole and then
/// put line by line. If a put fails none follows, the status is `SinkFailed`, and a prefix of the text was written.
/// `Memory` comes before the first put alone, and then nothing was written. The words are looked at first, then the
/// rules, the deal or the seed, and the line, each fetched and read before the next, and the first fault is the answer.
pub fn patience<S: Shelf, K: Sink>(
    alloc: Global,
    words: &[String],
    shelf: &mut S,
    sink: &mut K,
) -> Status
    requires { length words.now < 2 ^ 32 }

    // The whole text was written and nothing else, and it has its cause.
    ensures whole { WritesWhole
        (Explains (record { files = S.files shelf.old; before = S.faults shelf.old; after = S.faults shelf.new })
        (texts words.now))
        (K.written sink.old) (K.written sink.new) result }

    // Each answer to words and bytes is given exactly where it is due, unless the sink or memory failed.
    ensures exact { IsDue
        (record { files = S.files shelf.old; before = S.faults shelf.old; after = S.faults shelf.new })
        (texts words.now) result }

    // If the files and the seed are accepted and no fault rose, the job is done or there is no memory.
    ensures complete { ¬ Rose (K.faults sink.old) (K.faults sink.new) → IsComplete
        (record { files = S.files shelf.old; before = S.faults shelf.old; after = S.faults shelf.new })
        (texts words.now)
        (K.written sink.old) (K.written sink.new) result }

    // Where the sink failed, a prefix of such a text was written.
    ensures sink_failed { result ≡ Status.SinkFailed → Rose (K.faults sink.old) (K.faults sink.new) }
    ensures part { result ≡ Status.SinkFailed → WritesPart
        (Explains (record { files = S.files shelf.old; before = S.faults shelf.old; after = S.faults shelf.new })
        (texts words.now))
        (K.written sink.old) (K.written sink.new) }

    // Without memory nothing was written.
    ensures memory { result ≡ Status.Memory → Keeps (K.written sink.old) (K.written sink.new) }

    // The files of the shelf stay, and no count of faults falls.
    ensures files { S.files shelf.new ≡ S.files shelf.old }
    ensures shelf_never_falls { (name : List ℕ) → S.faults shelf.old name ≤ S.faults shelf.new name }
    ensures sink_never_falls { K.faults sink.old ≤ K.faults sink.new }
{
    let Ok(report) = make_report(alloc, words, shelf) else {
        return Status::Memory;
    };
    match put_lines(sink, &report.text) {
        Ok(()) => report.status,
        Err(_) => Status::SinkFailed,
    }
}
