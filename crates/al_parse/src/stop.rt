// Why a parse function stops.
ghost use Rattle.std.specs.Prelude.{◌≡◌};
ghost use Rattle.al_parse.specs.declared.stop.Stop.TheVariants.{Memory};

use al_base::NoMemory;
use std::alloc::{AllocError, AllocFailed};

/// Why no tree is read.
#[derive(Drop)]
pub enum Stop {
    /// The allocator refused memory.
    Memory,
    /// No sentence goes on here, with so many tokens left.
    Fault(usize),
}

impl From<NoMemory> for Stop {
    ghost from_gives = { λ _ e. e ≡ Memory };

    fn from(_error: NoMemory) -> Stop {
        Stop::Memory
    }
}

impl From<AllocError> for Stop {
    ghost from_gives = { λ _ e. e ≡ Memory };

    fn from(_error: AllocError) -> Stop {
        Stop::Memory
    }
}

impl<T: Drop> From<AllocFailed<T>> for Stop {
    ghost from_gives = { λ _ e. e ≡ Memory };

    fn from(_error: AllocFailed<T>) -> Stop {
        Stop::Memory
    }
}

/// What was read, as by `?`; if reading stopped, the value is dropped first.
///
/// At a `?` a tree would be dropped in the function itself, each variant of it in turn, and the function's proof would have them
/// all. Here one call drops it.
#[macro_export]
macro_rules! read_or_drop {
    ($read:expr, $value:expr) => {
        match $read {
            Ok(read) => read,
            Err(stop) => {
                drop($value);
                return Err(stop);
            }
        }
    };
}
