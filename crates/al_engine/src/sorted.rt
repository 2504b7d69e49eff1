// Units in the order of their keys.
ghost use Rattle.std.specs.Prelude.{◌≡◌, map, IfOk};
ghost use Rattle.al_base.specs.Batch.{key_of};
ghost use Rattle.al_unit_graph.specs.Orders.{in_order};

use al_base::{NoMemory, UnitKey};
use al_unit_graph::KeySet;
use al_view::copied_unit;
use std::alloc::Global;

/// The units, each once, by unit and kind.
///
/// # Errors
///
/// `NoMemory` if the allocator refuses memory.
pub(crate) fn in_key_order(alloc: Global, units: &[UnitKey]) -> Result<Vec<UnitKey>, NoMemory>
    ensures { IfOk result (λ sorted. map key_of sorted.items ≡ in_order (map key_of units.now)) }
{
    let mut keys = KeySet::new(alloc);
    for unit in units {
        keys.insert(copied_unit(alloc, unit)?)?;
    }
    let sorted = keys.into_keys()?;
    Ok(sorted)
}
