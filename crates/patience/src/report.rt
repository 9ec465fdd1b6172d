//! What is written for a job, before any of it is written.
ghost use Rattle.std.specs.Prelude.{◌≡◌, Some};
ghost use Rattle.patience.specs.declared.report.Stop.TheVariants.{NoMemory};
ghost use Rattle.patience.specs.Texts.{role_text};

use crate::status::Status;
use std::alloc::{AllocError, AllocFailed};
use std::fmt;

/// The files that a job may have.
#[derive(Clone, Copy, Debug, PartialEq, Eq)]
pub enum FileRole {
    /// Word 1.
    Rules,
    /// Word 2.
    Deal,
    /// Word 3.
    Line,
}

impl fmt::Display for FileRole {
    ghost output = { λ file. Some (role_text file) };

    fn fmt<W: fmt::Write>(&self, f: &mut fmt::Formatter<W>) -> fmt::Result {
        match self {
            FileRole::Rules => f.write_str("rules"),
            FileRole::Deal => f.write_str("deal"),
            FileRole::Line => f.write_str("line"),
        }
    }
}

/// A status and the text that goes with it.
#[derive(Drop)]
pub struct Report {
    pub status: Status,
    pub text: Vec<u8>,
}

/// Why a job has no text of its own: it was refused or a file failed, or there was no memory.
#[derive(Drop)]
pub enum Stop {
    /// A refusal or a failure, with its text.
    Told(Report),
    /// There was no memory.
    NoMemory,
}

impl From<AllocError> for Stop {
    ghost from_gives = { λ _ stop. stop ≡ NoMemory };

    fn from(_: AllocError) -> Self {
        Stop::NoMemory
    }
}

impl From<card_piles::NoMemory> for Stop {
    ghost from_gives = { λ _ stop. stop ≡ NoMemory };

    fn from(_: card_piles::NoMemory) -> Self {
        Stop::NoMemory
    }
}

impl<T: Drop> From<AllocFailed<T>> for Stop {
    ghost from_gives = { λ _ stop. stop ≡ NoMemory };

    fn from(_: AllocFailed<T>) -> Self {
        Stop::NoMemory
    }
}
