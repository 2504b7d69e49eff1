// Keys of units.
ghost use Rattle.std.specs.Prelude.{◌≡◌, IfOk};
ghost use Rattle.al_view.specs.Symbols.{same_unit};

use al_base::{NoMemory, UnitKey, same_bytes};
use std::alloc::Global;

/// Whether two keys are of one unit.
pub fn is_unit(unit: &UnitKey, other: &UnitKey) -> bool
    ensures { result ≡ same_unit unit.now other.now }
{
    unit.kind == other.kind && same_bytes(unit.name.as_slice(), other.name.as_slice())
}

/// A copy of the key of a unit.
///
/// # Errors
///
/// `NoMemory` if the allocator refuses memory.
pub fn copied_unit(alloc: Global, unit: &UnitKey) -> Result<UnitKey, NoMemory>
    ensures { IfOk result (λ copy. copy ≡ unit.now) }
{
    let name = unit.name.copy(alloc)?;
    Ok(UnitKey {
        name,
        kind: unit.kind,
    })
}
