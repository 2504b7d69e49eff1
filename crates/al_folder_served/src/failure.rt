// Why the program can't go on.
ghost use Rattle.std.specs.Prelude.{◌≡◌};

use al_base::NoMemory;
use std::alloc::{AllocError, AllocFailed};
use thiserror::Error;

/// Why the program can't go on.
#[derive(Clone, Copy, Debug, PartialEq, Eq, Error)]
pub enum Failure {
    #[error("out of memory")]
    Memory,
    #[error("the standard output can't be written")]
    Output,
    #[error("the standard error can't be written")]
    ErrorOutput,
    #[error("the standard input can't be read")]
    Input,
    #[error("the clock can't be read")]
    Clock,
}

impl From<NoMemory> for Failure {
    ghost use Rattle.al_folder_served.specs.declared.failure.Failure.TheVariants.{Memory};

    ghost from_gives = { λ _ e. e ≡ Memory };

    fn from(_error: NoMemory) -> Failure {
        Failure::Memory
    }
}

impl From<AllocError> for Failure {
    ghost use Rattle.al_folder_served.specs.declared.failure.Failure.TheVariants.{Memory};

    ghost from_gives = { λ _ e. e ≡ Memory };

    fn from(_error: AllocError) -> Failure {
        Failure::Memory
    }
}

impl<T: Drop> From<AllocFailed<T>> for Failure {
    ghost use Rattle.al_folder_served.specs.declared.failure.Failure.TheVariants.{Memory};

    ghost from_gives = { λ _ e. e ≡ Memory };

    fn from(_error: AllocFailed<T>) -> Failure {
        Failure::Memory
    }
}
