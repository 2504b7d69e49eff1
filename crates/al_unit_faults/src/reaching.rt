// The units that a build can reach.
ghost use Rattle.std.specs.Prelude.{◌≡◌, map, IfOk, OnOk};
ghost use Rattle.std.specs.List.{flat_map, fold};
ghost use Rattle.std.specs.BTreeSet.{insert_key};
ghost use Rattle.al_base.specs.Batch.{key_of};
ghost use Rattle.al_unit_graph.specs.Needed.{ListsUnits};
ghost use Rattle.al_unit_graph.specs.Orders.{in_order, key_cmp};
ghost use Rattle.al_unit_faults.specs.FilesSeen.{file_faults_model};
ghost use Rattle.al_unit_faults.specs.Reached.{AreFaultsOf, IsReachable, has_fault};
ghost use Rattle.al_unit_faults.specs.Steps.{reachable_in};

use crate::faultless::add_faultless;
use crate::{Dependents, FileFaults};
use al_base::{NoMemory, UnitKey};
use al_unit_graph::{KeySet, Sources};
use std::alloc::Global;

/// Which of the files have a fault.
fn faulty_files(alloc: Global, faults: &[FileFaults]) -> Result<Vec<bool>, NoMemory>
    ensures { IfOk result (λ flags. flags.items ≡ map (λ f. has_fault (file_faults_model f)) faults.now) }
{
    let mut flags = Vec::with_capacity(alloc, faults.len())?;
    for file in faults {
        flags.push(!file.faults.is_empty())?;
    }
    Ok(flags)
}

/// Adds the unit of a file, if nothing is wrong with it and it depends on no faulty unit.
fn add_reachable(
    alloc: Global,
    sources: &Sources,
    dependents: &Dependents,
    faults: &FileFaults,
    units: &mut KeySet,
) -> Result<(), NoMemory>
    ensures { OnOk result (units.new ≡ fold (insert_key key_cmp) units.old (reachable_in sources.now dependents.now (file_faults_model faults.now))) }
{
    if dependents.has(faults.file.as_slice()) {
        return Ok(());
    }
    add_faultless(alloc, sources, faults, units)
}

/// The units of the files with which nothing is wrong, and which depend on no faulty unit, in the order of their keys.
#[tactic(auto, unfolding(al_unit_graph::specs::Orders::in_order))]
fn units_on_sound(
    alloc: Global,
    sources: &Sources,
    dependents: &Dependents,
    faults: &[FileFaults],
) -> Result<Vec<UnitKey>, NoMemory>
    ensures { IfOk result (λ units. map key_of units.items ≡ in_order (flat_map (reachable_in sources.now dependents.now) (map file_faults_model faults.now))) }
{
    let mut units = KeySet::new(alloc);
    for file in faults {
        add_reachable(alloc, sources, dependents, file, &mut units)?;
    }
    let list = units.into_keys()?;
    Ok(list)
}

/// The units that break no rule of the graph and depend on no unit that breaks one or isn't there, in the order of their keys. A
/// build reaches each of these unless a check finds a fault in a unit on which it depends. It takes what is wrong with each file.
///
/// # Errors
///
/// `NoMemory` if the allocator refuses memory.
pub fn reachable(
    alloc: Global,
    sources: &Sources,
    faults: &[FileFaults],
) -> Result<Vec<UnitKey>, NoMemory>
    requires { AreFaultsOf sources.now (map file_faults_model faults.now) }
    ensures { IfOk result (λ units. ListsUnits sources.now (map key_of units.items) (IsReachable sources.now)) }
{
    let flags = faulty_files(alloc, faults)?;
    let dependents = Dependents::of(alloc, sources, flags.as_slice())?;
    let units = units_on_sound(alloc, sources, &dependents, faults)?;
    Ok(units)
}
