//! Why a script is refused.
ghost use Rattle.std.specs.Prelude.{Some};
ghost use Rattle.play_session.specs.FaultText.{script_fault_text};

use std::alloc::AllocFailed;
use std::fmt;

/// Why a script was refused.
#[derive(Clone, Copy, Debug, PartialEq, Eq)]
pub enum ScriptFault {
    /// The file has more than 65,536 bytes.
    TooLong,
    /// The line of this number, from 1, is the first that is no text of an order or has no newline
    /// at its end.
    BadOrder { line: u64 },
    /// Memory ran out.
    Memory,
}

impl fmt::Display for ScriptFault {
    ghost output = { λ fault. Some (script_fault_text fault) };

    fn fmt<W: fmt::Write>(&self, f: &mut fmt::Formatter<W>) -> fmt::Result {
        match self {
            ScriptFault::TooLong => f.write_str("too-long"),
            ScriptFault::BadOrder { line } => write!(f, "bad-order {line}"),
            ScriptFault::Memory => f.write_str("memory"),
        }
    }
}

impl<T: Drop> From<AllocFailed<T>> for ScriptFault {
    ghost use Rattle.std.specs.Prelude.{◌≡◌};
    ghost use Rattle.play_session.specs.declared.fault.ScriptFault.TheVariants.{Memory};

    ghost from_gives = { λ _ fault. fault ≡ Memory };

    fn from(_refused: AllocFailed<T>) -> ScriptFault {
        ScriptFault::Memory
    }
}
