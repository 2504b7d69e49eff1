// Why there is no image.
ghost use Rattle.std.specs.Prelude.{◌≡◌};
ghost use Rattle.al_link_image.specs.Faults.{decode_fault};
ghost use Rattle.al_link_image.specs.declared.fault.LinkFault.TheVariants.{NoMemory};

use al_base::NoMemory;
use al_instr::DecodeFault;
use std::alloc::{AllocError, AllocFailed};
use thiserror::Error;

/// Why there is no image.
#[derive(Clone, Copy, Debug, PartialEq, Eq, Error)]
pub enum LinkFault {
    /// A partition passes a limit of images.
    #[error("image too large")]
    TooLarge,
    /// The bytes are those of no image.
    #[error("image damaged")]
    Damaged,
    /// The allocator refused memory.
    #[error("no memory")]
    NoMemory,
}

impl From<NoMemory> for LinkFault {
    ghost from_gives = { λ _ e. e ≡ NoMemory };

    fn from(_error: NoMemory) -> LinkFault {
        LinkFault::NoMemory
    }
}

impl From<AllocError> for LinkFault {
    ghost from_gives = { λ _ e. e ≡ NoMemory };

    fn from(_error: AllocError) -> LinkFault {
        LinkFault::NoMemory
    }
}

impl<T: Drop> From<AllocFailed<T>> for LinkFault {
    ghost from_gives = { λ _ e. e ≡ NoMemory };

    fn from(_error: AllocFailed<T>) -> LinkFault {
        LinkFault::NoMemory
    }
}

impl From<DecodeFault> for LinkFault {
    ghost from_gives = { λ fault e. e ≡ decode_fault fault };

    fn from(fault: DecodeFault) -> LinkFault {
        match fault {
            DecodeFault::Damaged => LinkFault::Damaged,
            DecodeFault::NoMemory => LinkFault::NoMemory,
        }
    }
}
