// Why a command is refused.
ghost use Rattle.std.specs.Prelude.{◌≡◌};
ghost use Rattle.al_base.specs.declared.refusal.Refusal.TheVariants.{NoMemory};
ghost use Rattle.al_base.specs.Refusals.{number_of};

use std::alloc::{AllocError, AllocFailed};
use thiserror::Error;

/// Why a command isn't carried out. A refused command changes neither the files nor what the last build gave.
#[derive(Clone, Copy, Debug, PartialEq, Eq, Error)]
#[error("refused")]
pub enum Refusal {
    /// The name isn't that of a source file.
    BadName,
    /// There is no file of that name.
    NoFile,
    /// There is a file of the new name.
    FileExists,
    /// There are as many files as a library may have.
    TooManyFiles,
    /// The source has more bytes than a file may have.
    TextTooLong,
    /// There was no build yet.
    NotBuilt,
    /// The last build gave no image, or no order.
    NoImage,
    /// The line is no command.
    BadCommand,
    /// The length of a source isn't a number of one to nine digits, or the source isn't there as announced.
    BadLength,
    /// The allocator refused memory.
    NoMemory,
}

impl Refusal {
    /// The number that a reply gives for it, from 1.
    pub fn number(self) -> u8
        ensures { result ≡ number_of self }
    {
        match self {
            Refusal::BadName => 1,
            Refusal::NoFile => 2,
            Refusal::FileExists => 3,
            Refusal::TooManyFiles => 4,
            Refusal::TextTooLong => 5,
            Refusal::NotBuilt => 6,
            Refusal::NoImage => 7,
            Refusal::BadCommand => 8,
            Refusal::BadLength => 9,
            Refusal::NoMemory => 10,
        }
    }
}

/// The allocator refused memory.
#[derive(Clone, Copy, Debug, PartialEq, Eq, Error)]
#[error("no memory")]
pub struct NoMemory;

impl From<NoMemory> for Refusal {
    ghost from_gives = { λ _ e. e ≡ NoMemory };

    fn from(_error: NoMemory) -> Self {
        Self::NoMemory
    }
}

impl From<AllocError> for NoMemory {
    fn from(_error: AllocError) -> NoMemory {
        NoMemory
    }
}

impl<T: Drop> From<AllocFailed<T>> for NoMemory {
    fn from(_error: AllocFailed<T>) -> NoMemory {
        NoMemory
    }
}
