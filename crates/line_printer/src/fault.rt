//! Why a line file is refused.
ghost use Rattle.std.specs.Prelude.{Some};
ghost use Rattle.line_printer.specs.FaultText.{line_fault_text};

use std::alloc::AllocFailed;
use std::fmt;

/// Why a line file was refused.
#[derive(Clone, Copy, Debug, PartialEq, Eq)]
pub enum LineFault {
    /// The file has more than 67,108,864 bytes.
    TooLong,
    /// The line of this number, from 1, is the first that is no move text, has no newline at its
    /// end, or is missing after a first line `winnable`.
    BadMove { line: u64 },
    /// Memory ran out.
    Memory,
}

impl fmt::Display for LineFault {
    ghost output = { λ fault. Some (line_fault_text fault) };

    fn fmt<W: fmt::Write>(&self, f: &mut fmt::Formatter<W>) -> fmt::Result {
        match self {
            LineFault::TooLong => f.write_str("too-long"),
            LineFault::BadMove { line } => write!(f, "bad-move {line}"),
            LineFault::Memory => f.write_str("memory"),
        }
    }
}

impl<T: Drop> From<AllocFailed<T>> for LineFault {
    ghost use Rattle.std.specs.Prelude.{◌≡◌};
    ghost use Rattle.line_printer.specs.declared.fault.LineFault.TheVariants.{Memory};

    ghost from_gives = { λ _ fault. fault ≡ Memory };

    fn from(_refused: AllocFailed<T>) -> LineFault {
        LineFault::Memory
    }
}
