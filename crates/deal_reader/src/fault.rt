//! Why a deal file was refused.
ghost use Rattle.std.specs.Prelude.{◌≡◌, Some};
ghost use Rattle.deal_reader.specs.FaultText.{deal_fault_text};
ghost use Rattle.deal_reader.specs.Position.{deal_fault, file_fault};
ghost use Rattle.deal_reader.specs.declared.fault.DealFault.TheVariants.{Memory};

use crate::names::{card_name, part_name};
use card_piles::{Card, text_of};
use game_rules::{BoardFault, Part};
use json_tree::FileFault;
use std::alloc::AllocError;
use std::fmt;

/// Why the bytes of a deal file give no position, in the order of the tests.
#[derive(Clone, Copy, Debug, PartialEq, Eq)]
pub enum DealFault {
    /// There are more than 65,536 bytes.
    TooLong,
    /// The bytes are no JSON, are not UTF-8 or nest too deep.
    NotJson,
    /// The tree is not an object.
    NotObject,
    /// The object has a key that no part of a position has.
    UnknownKey,
    /// The part, a list in it or an entry of it is of another type than it should be.
    WrongType(Part),
    /// A text is no card. The place counts the entries of the whole part from 0.
    NotACard(Part, u64),
    /// The part has more than the rules allow.
    PlaceFull(Part),
    /// The card stands in the position fewer times than it should.
    MissingCard(Card),
    /// The card stands in the position more times than it should.
    ExtraCard(Card),
    /// Memory ran out.
    Memory,
}

impl From<AllocError> for DealFault {
    ghost from_gives = { λ _ fault. fault ≡ Memory };

    fn from(_: AllocError) -> DealFault {
        DealFault::Memory
    }
}

/// The fault of the file that is this fault of the board.
pub fn deal_fault(fault: BoardFault) -> DealFault
    ensures { result ≡ deal_fault fault }
{
    match fault {
        BoardFault::PlaceFull(part) => DealFault::PlaceFull(part),
        BoardFault::MissingCard(card) => DealFault::MissingCard(card),
        BoardFault::ExtraCard(card) => DealFault::ExtraCard(card),
        BoardFault::Memory => DealFault::Memory,
    }
}

/// The fault of the deal file that is this fault of a file.
pub fn file_fault(fault: FileFault) -> DealFault
    ensures { result ≡ file_fault fault }
{
    match fault {
        FileFault::TooLong => DealFault::TooLong,
        FileFault::NotJson => DealFault::NotJson,
        FileFault::NotObject => DealFault::NotObject,
        FileFault::Memory => DealFault::Memory,
    }
}

impl fmt::Display for DealFault {
    ghost output = { λ fault. Some (deal_fault_text fault) };

    fn fmt<W: fmt::Write>(&self, f: &mut fmt::Formatter<W>) -> fmt::Result {
        match self {
            DealFault::TooLong => f.write_str("too-long"),
            DealFault::NotJson => f.write_str("not-json"),
            DealFault::NotObject => f.write_str("not-object"),
            DealFault::UnknownKey => f.write_str("unknown-key"),
            DealFault::WrongType(part) => {
                let part = part_name(*part);
                write!(f, "wrong-type {part}")
            }
            DealFault::NotACard(part, place) => {
                let part = part_name(*part);
                write!(f, "not-a-card {part} {place}")
            }
            DealFault::PlaceFull(part) => {
                let part = part_name(*part);
                write!(f, "place-full {part}")
            }
            DealFault::MissingCard(card) => {
                let text = text_of(*card);
                let card = card_name(*card, &text);
                write!(f, "missing-card {card}")
            }
            DealFault::ExtraCard(card) => {
                let text = text_of(*card);
                let card = card_name(*card, &text);
                write!(f, "extra-card {card}")
            }
            DealFault::Memory => f.write_str("memory"),
        }
    }
}
