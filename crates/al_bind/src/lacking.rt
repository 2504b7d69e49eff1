// The first thing that a partition lacks.
ghost use Rattle.std.specs.Prelude.{IfOk, MatchOption, map};
ghost use Rattle.al_base.specs.Batch.{key_of};
ghost use Rattle.al_unit_graph.specs.Needed.{ListsUnits, Needed};
ghost use Rattle.al_bind.specs.Faults.{IsComplete, IsLack};

use crate::missing::{is_main, missing_body, missing_subunit};
use al_base::{Name, NoMemory, UnitKey};
use al_unit_graph::Sources;
use std::alloc::Global;

/// What is missing in a partition.
pub enum MissingItem {
    /// The main unit is not a procedure without parameters (ARM 10.2(7)).
    Main,
    /// The body of the needed declaration with this name is missing (ARM 10.2(4)).
    Body(Name),
    /// The subunit with this name, which a stub of a needed unit names, is missing (ARM 10.2(5)).
    Subunit(Name),
}

impl Drop for MissingItem {
    fn drop(self) {
        match self {
            MissingItem::Main => {}
            MissingItem::Body(_) => {}
            MissingItem::Subunit(_) => {}
        }
    }
}

/// What is missing in a partition with this main unit: its main subprogram, or else the missing body with the least name, or else the missing
/// subunit with the least name. None if it is complete. `needed` lists the needed units.
///
/// # Errors
///
/// `NoMemory` if the allocator refuses memory.
pub fn first_lack(
    alloc: Global,
    sources: &Sources,
    main: &[u8],
    needed: &[UnitKey],
) -> Result<Option<MissingItem>, NoMemory>
    requires { ListsUnits sources.now (map key_of needed.now) (Needed sources.now main.now) }
    ensures { IfOk result (λ found. MatchOption found (IsComplete sources.now main.now) (IsLack sources.now main.now)) }
{
    if !is_main(sources, main) {
        return Ok(Some(MissingItem::Main));
    }
    if let Some(name) = missing_body(alloc, sources, main, needed)? {
        return Ok(Some(MissingItem::Body(name)));
    }
    if let Some(name) = missing_subunit(alloc, sources, main, needed)? {
        return Ok(Some(MissingItem::Subunit(name)));
    }
    Ok(None)
}
