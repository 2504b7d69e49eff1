// The predefined units.
ghost use Rattle.std.specs.Prelude.{◌≡◌, IfOk};
ghost use Rattle.al_check_bounded.specs.Constants.{predefined};

use al_base::NoMemory;
use al_overload::Predefined;
use std::alloc::Global;

/// The predefined units, made anew.
///
/// # Errors
/// `NoMemory` if the allocator refuses memory.
pub fn predefined_everywhere(alloc: Global) -> Result<Predefined, NoMemory>
    ensures { IfOk result (λ p. p ≡ predefined) }
{
    let made = Predefined::new(alloc)?;
    Ok(made)
}
