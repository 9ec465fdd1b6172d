//! Reading the front of a file, over any reader that tells its bytes.

ghost use Rattle.std.specs.Prelude.{◌≡◌, ◌≤◌, ◌+◌, OnOk, OnErr, IfErr, IsErrOf};
ghost use Rattle.std.specs.Io.{ReadsAtMost};
ghost use Rattle.std.specs.Io.KnownBytes.{ReadConsumes};
ghost use Rattle.outside_io.specs.Calls.{one_more};
ghost use Rattle.outside_io.specs.Reading.{ReadsFront, GrowsUpTo};

use crate::ShelfFault;
use crate::count::raise;
use std::io::Read;

const BLOCK: usize = 4096;

/// Reads once. An error of the reader is a fault, and raises the count.
fn read_once<F: Read>(file: &mut F, block: &mut [u8], faults: &mut u64) -> Result<usize, ShelfFault>
    ensures bound { ReadsAtMost result block.new }
    ensures bytes { ReadConsumes (F.remaining file.old) (F.remaining file.new) result block.new }
    ensures failed { IfErr result (λ fault. fault ≡ ShelfFault.Failed) }
    ensures raised { OnErr result (faults.new ≡ one_more faults.old) }
    ensures kept { OnOk result (faults.new ≡ faults.old) }
    ensures never_falls { faults.old ≤ faults.new }
{
    match file.read(block) {
        Ok(count) => Ok(count),
        Err(_) => {
            raise(faults);
            Err(ShelfFault::Failed)
        }
    }
}

/// Appends what the reader has left, or its first `limit + 1` bytes where it has more than `limit`. `Failed` comes
/// where a read failed, and raises the count; nothing else does. After an `Err` a part of the bytes may be appended.
pub(crate) fn read_up_to<F: Read>(
    file: &mut F,
    limit: u64,
    out: &mut Vec<u8>,
    faults: &mut u64,
) -> Result<(), ShelfFault>
    ensures front { OnOk result (ReadsFront (limit + 1) (F.remaining file.old)
        (F.remaining file.new) out.old.items out.new.items) }
    ensures part { OnErr result (GrowsUpTo limit out.old.items out.new.items) }
    ensures raised { IsErrOf result ShelfFault.Failed → faults.new ≡ one_more faults.old }
    ensures kept { ¬ (IsErrOf result ShelfFault.Failed) → faults.new ≡ faults.old }
    ensures never_falls { faults.old ≤ faults.new }
{
    let start = out.len();
    let mut block = [0u8; BLOCK];
    'reads: loop {
        let taken = (out.len() - start) as u64;
        if taken > limit {
            return Ok(());
        }
        let room = (limit - taken).min(BLOCK as u64 - 1) as usize + 1;
        let count = read_once(file, &mut block[..room], faults)?;
        if count == 0 {
            return Ok(());
        }
        out.extend_from_slice(&block[..count])?;
    }
}
