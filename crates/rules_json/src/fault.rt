//! Why a rules file was refused.
ghost use Rattle.std.specs.Prelude.{◌≡◌, Some};
ghost use Rattle.rules_json.specs.Faults.{part_text, rules_fault_text, of_file};

use json_tree::FileFault;
use std::fmt;

/// A part of the rules file.
#[derive(Clone, Copy, Debug, PartialEq, Eq)]
pub enum RulePart {
    Top,
    Tableau,
    Foundations,
    Hole,
    Sequences,
    Cells,
    Reserve,
    Stock,
}

/// Why a rules file gives no rules. The first fault is answered: those of the file, then those of
/// each part in order, then the conflicts by their numbers.
#[derive(Clone, Copy, Debug, PartialEq, Eq)]
pub enum RulesFault {
    /// There are more than 65,536 bytes.
    TooLong,
    /// The bytes are no JSON, are not UTF-8 or nest too deep.
    NotJson,
    /// The file holds no object.
    NotObject,
    /// The part has a key that it should not have.
    UnknownKey(RulePart),
    /// The part is no object, or a value in it has another type than it should have.
    WrongType(RulePart),
    /// A value in the part has the right type and is not one of those that are allowed.
    BadValue(RulePart),
    /// The parts contradict each other: the least number of the conflicts that apply.
    Conflict(u8),
    Memory,
}

impl From<FileFault> for RulesFault {
    ghost from_gives = { λ file fault. fault ≡ of_file file };

    fn from(fault: FileFault) -> RulesFault {
        match fault {
            FileFault::TooLong => RulesFault::TooLong,
            FileFault::NotJson => RulesFault::NotJson,
            FileFault::NotObject => RulesFault::NotObject,
            FileFault::Memory => RulesFault::Memory,
        }
    }
}

impl fmt::Display for RulePart {
    ghost output = { λ part. Some (part_text part) };

    fn fmt<W: fmt::Write>(&self, f: &mut fmt::Formatter<W>) -> fmt::Result {
        match self {
            RulePart::Top => f.write_str("top"),
            RulePart::Tableau => f.write_str("tableau"),
            RulePart::Foundations => f.write_str("foundations"),
            RulePart::Hole => f.write_str("hole"),
            RulePart::Sequences => f.write_str("sequences"),
            RulePart::Cells => f.write_str("cells"),
            RulePart::Reserve => f.write_str("reserve"),
            RulePart::Stock => f.write_str("stock"),
        }
    }
}

impl fmt::Display for RulesFault {
    ghost output = { λ fault. Some (rules_fault_text fault) };

    fn fmt<W: fmt::Write>(&self, f: &mut fmt::Formatter<W>) -> fmt::Result {
        match self {
            RulesFault::TooLong => f.write_str("too-long"),
            RulesFault::NotJson => f.write_str("not-json"),
            RulesFault::NotObject => f.write_str("not-object"),
            RulesFault::UnknownKey(part) => write!(f, "unknown-key {part}"),
            RulesFault::WrongType(part) => write!(f, "wrong-type {part}"),
            RulesFault::BadValue(part) => write!(f, "bad-value {part}"),
            RulesFault::Conflict(number) => write!(f, "conflict {number}"),
            RulesFault::Memory => f.write_str("memory"),
        }
    }
}
