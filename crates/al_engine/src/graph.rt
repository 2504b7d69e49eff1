// The graph of a library's units.
ghost use Rattle.std.specs.Prelude.{◌≡◌, true, IfOk, OnOk, map};
ghost use Rattle.std.specs.List.{Contains};
ghost use Rattle.std.specs.Option.{is_some};
ghost use Rattle.al_base.specs.Batch.{Key, key_of};
ghost use Rattle.al_base.specs.declared.unit_key.UnitKey.{UnitKey};
ghost use Rattle.al_unit_graph.specs.Dependence.{direct};
ghost use Rattle.al_query_store.specs.Units.{at_unit};
ghost use Rattle.al_engine.specs.Kept.{IsGraphOf, unit_of};

use al_base::{NoMemory, UnitKey};
use al_base_shortage::AllocFailures;
use al_query_store::UnitMap;
use al_unit_faults::{FileFaults, dependence_order, faults_by_file};
use al_unit_graph::Sources;
use al_view::copied_unit;
use std::alloc::Global;

/// What a build needs to know of the graph of a library's units.
pub struct UnitGraph {
    /// The rules of the graph that each file breaks.
    pub faults: Vec<FileFaults>,
    /// The units that break no rule of the graph, each after all on which it depends.
    pub order: Vec<UnitKey>,
    /// The units on which one of these depends directly.
    pub bases: UnitMap<()>,
}

impl Drop for UnitGraph {
    fn drop(self) {
        let UnitGraph {
            faults: _,
            order: _,
            bases: _,
        } = self;
    }
}

/// Adds a unit.
fn add_base(alloc: Global, base: &UnitKey, bases: &mut UnitMap<()>) -> Result<(), NoMemory>
    ensures kept { OnOk result ((u : UnitKey) → is_some (at_unit bases.old u) ≡ true → is_some (at_unit bases.new u) ≡ true) }
    ensures added { OnOk result (is_some (at_unit bases.new base.now) ≡ true) }
{
    bases.insert(copied_unit(alloc, base)?, ())?;
    Ok(())
}

/// Adds the units on which a unit depends directly.
fn add_bases(
    alloc: Global,
    sources: &Sources,
    unit: &UnitKey,
    bases: &mut UnitMap<()>,
) -> Result<(), NoMemory>
    ensures kept { OnOk result ((u : UnitKey) → is_some (at_unit bases.old u) ≡ true → is_some (at_unit bases.new u) ≡ true) }
    ensures added { OnOk result ((d : Key) → Contains (direct sources.now (key_of unit.now)) d → is_some (at_unit bases.new (unit_of d)) ≡ true) }
{
    let units = sources.direct(unit)?;
    for base in units.as_slice() {
        add_base(alloc, base, bases)?;
    }
    Ok(())
}

/// The units on which one of these depends directly.
fn bases_of(alloc: Global, sources: &Sources, units: &[UnitKey]) -> Result<UnitMap<()>, NoMemory>
    ensures { IfOk result (λ bases. (w d : Key) → Contains (map key_of units.now) w → Contains (direct sources.now w) d → is_some (at_unit bases (unit_of d)) ≡ true) }
{
    let mut bases = UnitMap::new(alloc);
    for unit in units {
        add_bases(alloc, sources, unit, &mut bases)?;
    }
    Ok(bases)
}

impl UnitGraph {
    /// The graph of the units of a library.
    ///
    /// # Errors
    ///
    /// `NoMemory` if the allocator refuses memory.
    pub fn of(alloc: Global, sources: &Sources) -> Result<Self, NoMemory>
        ensures { IfOk result (IsGraphOf sources.now) }
    {
        let faults = faults_by_file(alloc, sources, &mut AllocFailures::new())?;
        let order = dependence_order(alloc, sources, faults.as_slice())?;
        let bases = bases_of(alloc, sources, order.as_slice())?;
        Ok(UnitGraph {
            faults,
            order,
            bases,
        })
    }
}
