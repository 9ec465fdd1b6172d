//! What can be wrong with words, and how it is printed.
ghost use Rattle.std.specs.Prelude.{Some};
ghost use Rattle.solver_words.specs.FaultText.{word_fault_text};

use std::fmt;

/// Why words name no job. A place counts over all words from 0.
#[derive(Clone, Copy, Debug, PartialEq, Eq)]
pub enum WordFault {
    /// There are no words.
    NoCommand,
    /// Word 0 is no command.
    UnknownCommand,
    /// A name that the command needs is not there, or begins with two dashes.
    MissingName,
    /// The word at this place is no option of the command.
    UnknownOption(u32),
    /// The option at this place was given before.
    RepeatedOption(u32),
    /// No word follows the option at this place.
    MissingValue(u32),
    /// The word at this place is no value of the option before it.
    BadOptionValue(u32),
    /// The command deals from a seed, and `--seed` was not given.
    MissingSeed,
}

impl fmt::Display for WordFault {
    ghost output = { λ fault. Some (word_fault_text fault) };

    fn fmt<W: fmt::Write>(&self, f: &mut fmt::Formatter<W>) -> fmt::Result {
        match self {
            WordFault::NoCommand => f.write_str("no-command"),
            WordFault::UnknownCommand => f.write_str("unknown-command"),
            WordFault::MissingName => f.write_str("missing-name"),
            WordFault::UnknownOption(place) => write!(f, "unknown-option {place}"),
            WordFault::RepeatedOption(place) => write!(f, "repeated-option {place}"),
            WordFault::MissingValue(place) => write!(f, "missing-value {place}"),
            WordFault::BadOptionValue(place) => write!(f, "bad-option-value {place}"),
            WordFault::MissingSeed => f.write_str("missing-seed"),
        }
    }
}
