// Names of units.
ghost use Rattle.std.specs.Prelude.{◌≡◌, IfOk};
ghost use Rattle.al_check_start.specs.UnitsAt.{plain_symbol};

use al_base::{Name, NoMemory, UnitKey};
use al_query_outcome::last_of;
use al_view::{Symbol, copied_unit};
use std::alloc::Global;

/// A unit's own symbol, if it completes nothing.
pub(crate) fn plain_symbol(alloc: Global, unit: &UnitKey) -> Result<Symbol, NoMemory>
    ensures { IfOk result (λ symbol. symbol ≡ plain_symbol unit.now) }
{
    let name = Name::from_slice(alloc, last_of(unit.name.as_slice()))?;
    let unit = copied_unit(alloc, unit)?;
    let number = 0;
    Ok(Symbol { unit, name, number })
}
