//! Short lines, copied eight bytes at a time.
ghost use Rattle.std.specs.Prelude.{◌≡◌, ◌+◌, ◌≤◌, ◌++◌, take, drop, length};

/// Copies eight bytes.
fn copy_eight(out: &mut [u8], at: usize, bytes: &[u8], from: usize)
    requires there { at + 8 ≤ length out.old }
    requires here { from + 8 ≤ length bytes.now }
    ensures { out.new ≡ take at out.old ++ (take 8 (drop from bytes.now) ++ drop (at + 8) out.old) }
{
    out[at..at + 8].copy_from_slice(&bytes[from..from + 8]);
}

/// Copies a line, and up to seven of the bytes behind it.
pub(crate) fn copy_line(out: &mut [u8], at: usize, bytes: &[u8], from: usize, size: usize)
    requires there { at + size + 7 ≤ length out.old }
    requires here { from + size + 7 ≤ length bytes.now }
    ensures line { take (at + size) out.new ≡ take at out.old ++ take size (drop from bytes.now) }
    ensures long { length out.new ≡ length out.old }
{
    for k in 0..(size + 7) / 8 {
        copy_eight(out, at + 8 * k, bytes, from + 8 * k);
    }
}
