// The units that break no rule of the graph.
ghost use Rattle.std.specs.Prelude.{◌≡◌, ℕ, List, map, true, IfOk, OnOk};
ghost use Rattle.std.specs.List.{flat_map, fold};
ghost use Rattle.std.specs.BTreeSet.{insert_key};
ghost use Rattle.al_base.specs.Batch.{Key, key_of};
ghost use Rattle.al_unit_graph.specs.Needed.{ListsUnits};
ghost use Rattle.al_unit_graph.specs.Orders.{in_order, key_cmp};
ghost use Rattle.al_unit_faults.specs.FilesSeen.{file_faults_model};
ghost use Rattle.al_unit_faults.specs.Reached.{AreFaultsOf, is_faultless};
ghost use Rattle.al_unit_faults.specs.Steps.{faultless_in};

use crate::FileFaults;
use al_base::{Name, NoMemory, UnitKey};
use al_unit_graph::{KeySet, Sources, kind_of};
use std::alloc::Global;

/// Adds the unit of a file, if nothing is wrong with it.
pub(crate) fn add_faultless(
    alloc: Global,
    sources: &Sources,
    faults: &FileFaults,
    units: &mut KeySet,
) -> Result<(), NoMemory>
    ensures { OnOk result (units.new ≡ fold (insert_key key_cmp) units.old (faultless_in sources.now (file_faults_model faults.now))) }
{
    if !faults.faults.is_empty() {
        return Ok(());
    }
    let Some(header) = sources.unit_in(faults.file.as_slice()) else {
        return Ok(());
    };
    units.insert(UnitKey {
        name: Name::from_slice(alloc, header.name.as_slice())?,
        kind: kind_of(header.form),
    })
}

/// The units of the files with which nothing is wrong, in the order of their keys.
#[tactic(auto, unfolding(al_unit_graph::specs::Orders::in_order))]
fn units_without_faults(
    alloc: Global,
    sources: &Sources,
    faults: &[FileFaults],
) -> Result<Vec<UnitKey>, NoMemory>
    ensures { IfOk result (λ units. map key_of units.items ≡ in_order (flat_map (faultless_in sources.now) (map file_faults_model faults.now))) }
{
    let mut units = KeySet::new(alloc);
    for file in faults {
        add_faultless(alloc, sources, file, &mut units)?;
    }
    let list = units.into_keys()?;
    Ok(list)
}

/// The units that break no rule of the graph, in the order of their keys.
pub(crate) fn faultless_units(
    alloc: Global,
    sources: &Sources,
    faults: &[FileFaults],
) -> Result<Vec<UnitKey>, NoMemory>
    requires { AreFaultsOf sources.now (map file_faults_model faults.now) }
    ensures { IfOk result (λ units. ListsUnits sources.now (map key_of units.items) (λ y. is_faultless sources.now y ≡ true)) }
{
    let units = units_without_faults(alloc, sources, faults)?;
    Ok(units)
}
