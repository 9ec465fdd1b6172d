//! How a run ended.

/// The answer of the top call. The number of each is the program's exit status.
#[derive(Clone, Copy, Debug, PartialEq, Eq)]
pub enum Status {
    /// The job's text was written whole.
    Done,
    /// The words name no job.
    Usage,
    /// A file could not be fetched.
    ShelfFailed,
    /// The rules file has a fault.
    RulesRefused,
    /// The deal file has a fault, or no seed deals a board under the rules.
    DealRefused,
    /// The line file has a fault, or its moves do not win.
    LineRefused,
    /// The text could not be written whole.
    SinkFailed,
    /// There was no memory, and nothing was written.
    Memory,
}

ghost use Rattle.std.specs.Prelude.{◌≡◌};
ghost use Rattle.patience.specs.Texts.{status_number};

impl Status {
    /// The exit status of the program.
    pub fn number(self) -> u8
        ensures { result ≡ status_number self }
    {
        match self {
            Status::Done => 0,
            Status::Usage => 10,
            Status::ShelfFailed => 11,
            Status::RulesRefused => 12,
            Status::DealRefused => 13,
            Status::LineRefused => 14,
            Status::SinkFailed => 15,
            Status::Memory => 16,
        }
    }
}
