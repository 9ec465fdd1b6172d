//! Writing a whole piece, over any writer that tells its bytes.

ghost use Rattle.std.specs.Prelude.{◌≡◌, ◌<◌, ◌≤◌, OnOk, OnErr, IfOk, length};
ghost use Rattle.std.specs.Io.KnownBytes.{Appends, WriteAppends};
ghost use Rattle.outside_io.specs.Calls.{one_more, AppendsPart};

use crate::SinkFailed;
use crate::count::raise;
use std::io::Write;

/// Writes once. An error of the writer is a fault, and so is a write that takes nothing. A fault raises the count.
fn write_once<W: Write>(writer: &mut W, piece: &[u8], faults: &mut u64) -> Result<usize, SinkFailed>
    ensures some { IfOk result (λ count. (0 < count) × (count ≤ length piece.now)) }
    ensures bytes { WriteAppends (W.contents writer.old) (W.contents writer.new) result piece.now }
    ensures raised { OnErr result (faults.new ≡ one_more faults.old) }
    ensures kept { OnOk result (faults.new ≡ faults.old) }
    ensures never_falls { faults.old ≤ faults.new }
{
    match writer.write(piece) {
        Ok(count) if count > 0 => Ok(count),
        _ => {
            raise(faults);
            Err(SinkFailed)
        }
    }
}

/// Writes the whole piece, by as many writes as it takes. A fault raises the count, and nothing else does. Then a part
/// of the piece is written, and never all of it.
pub(crate) fn write_whole<W: Write>(
    writer: &mut W,
    piece: &[u8],
    faults: &mut u64,
) -> Result<(), SinkFailed>
    ensures whole { OnOk result (Appends (W.contents writer.old) (W.contents writer.new) piece.now) }
    ensures part { OnErr result
        (AppendsPart (W.contents writer.old) (W.contents writer.new) piece.now) }
    ensures raised { OnErr result (faults.new ≡ one_more faults.old) }
    ensures kept { OnOk result (faults.new ≡ faults.old) }
    ensures never_falls { faults.old ≤ faults.new }
{
    let mut rest = piece;
    while !rest.is_empty() {
        let count = write_once(writer, rest, faults)?;
        rest = &rest[count..];
    }
    Ok(())
}
