// The result of compiling the files of a library whose units are checked, up to what is linked.
ghost use Rattle.std.specs.Prelude.{◌≡◌, [], map, IfOk, IfSome, IsTrue, MatchResult};
ghost use Rattle.std.specs.Map.{keys_of};
ghost use Rattle.al_base.specs.Batch.{finding_of, key_of};
ghost use Rattle.al_bind.specs.Binding.{IsBindFault, IsElaboration};
ghost use Rattle.al_unit_faults.specs.FilesSeen.{file_faults_model};
ghost use Rattle.al_unit_faults.specs.GraphFaults.{file_faults};
ghost use Rattle.al_query_store.specs.Keyed.{now_at};
ghost use Rattle.al_engine_refresh.specs.Found.{AreToldAlone, findings_of};
ghost use Rattle.al_engine_refresh.specs.Builds.{results_of};
ghost use Rattle.al_engine.specs.Objects.{AreCoded};
ghost use Rattle.al_engine.specs.ObjectsSeen.{object_model};
ghost use Rattle.al_engine.specs.Partitions.{IsPartition};
ghost use Rattle.al_engine.specs.Plans.{IsPlanned};
ghost use Rattle.al_engine.specs.declared.compiled.Compiled.{Compiled};

use crate::names::main_symbol;
use crate::objects::objects_at;
use crate::placed;
use crate::planned::{Partition, Planned};
use al_base::{Diagnostic, NoMemory, UnitKey};
use al_bind::{BindFault, bind};
use al_engine_refresh::{KeptEntries, findings_of};
use al_unit_faults::FileFaults;
use al_unit_graph::Sources;
use al_view::copied_unit;
use std::alloc::Global;

/// A copy of these units, in their order.
///
/// # Errors
///
/// `NoMemory` if the allocator refuses memory.
pub(crate) fn copied(alloc: Global, units: &[UnitKey]) -> Result<Vec<UnitKey>, NoMemory>
    ensures { IfOk result (λ copy. copy.items ≡ units.now) }
{
    let mut copy = Vec::with_capacity(alloc, units.len())?;
    for unit in units {
        copy.push(copied_unit(alloc, unit)?)?;
    }
    Ok(copy)
}

/// The order in which the items of a partition are elaborated: the known one, if there is one, or else the result of [`bind`].
fn bound(
    alloc: Global,
    sources: &Sources,
    main: &[u8],
    known: Option<&[UnitKey]>,
) -> Result<Result<Vec<UnitKey>, BindFault>, NoMemory>
    requires { IfSome known (λ order. IsElaboration sources.now main.now (map key_of order.now)) }
    ensures { IfOk result (λ bound. MatchResult bound (λ order. IsElaboration sources.now main.now (map key_of order.items)) (IsBindFault sources.now main.now)) }
{
    match known {
        Some(order) => Ok(Ok(copied(alloc, order)?)),
        None => bind(alloc, sources, main),
    }
}

/// The partition of a main unit whose items are elaborated in this order.
fn partition_of(
    alloc: Global,
    sources: &Sources,
    entries: &KeptEntries,
    main: &[u8],
    order: Vec<UnitKey>,
) -> Result<Partition, NoMemory>
    requires ordered { IsElaboration sources.now main.now (map key_of order.items) }
    requires coded { AreCoded (now_at entries.now) }
    ensures { IfOk result (λ p. IsPartition sources.now (results_of (now_at entries.now)) main.now (map key_of p.order.items) p.main (map object_model p.objects.items)) }
{
    let units = placed(alloc, sources, order.as_slice())?;
    let objects = objects_at(alloc, entries, units.as_slice())?;
    let main = main_symbol(alloc, sources, main)?;
    Ok(Partition {
        order,
        main,
        objects,
    })
}

/// All errors in the files. They aren't looked for if it is known that there are none, and only in one file, if it is known that no other has any.
fn found_in(
    alloc: Global,
    sources: &Sources,
    entries: &KeptEntries,
    faults: &[FileFaults],
    is_clean: bool,
    alone: Option<&[u8]>,
) -> Result<Vec<Diagnostic>, NoMemory>
    requires faults { map file_faults_model faults.now ≡ map (λ file. (file, file_faults sources.now file)) (keys_of sources.now) }
    requires clean { IsTrue is_clean → findings_of sources.now (results_of (now_at entries.now)) ≡ [] }
    requires alone { IfSome alone (λ file. AreToldAlone sources.now (results_of (now_at entries.now)) file.now) }
    ensures { IfOk result (λ found. map finding_of found.items ≡ findings_of sources.now (results_of (now_at entries.now))) }
{
    if is_clean {
        return Ok(Vec::new(alloc));
    }
    findings_of(alloc, sources, entries, faults, alone)
}

/// The result of compiling the files for a main unit, if the units have these entries, up to the image. A known order of elaboration isn't looked for
/// again, and errors aren't looked for where it is known that there are none: in all files, or in all but `alone`.
///
/// # Errors
///
/// `NoMemory` if the allocator refuses memory. Errors in the files are a result.
pub fn plan(
    alloc: Global,
    sources: &Sources,
    entries: &KeptEntries,
    faults: &[FileFaults],
    main: &[u8],
    known: Option<&[UnitKey]>,
    is_clean: bool,
    alone: Option<&[u8]>,
) -> Result<Planned, NoMemory>
    requires faults { map file_faults_model faults.now ≡ map (λ file. (file, file_faults sources.now file)) (keys_of sources.now) }
    requires coded { AreCoded (now_at entries.now) }
    requires known { IfSome known (λ order. IsElaboration sources.now main.now (map key_of order.now)) }
    requires clean { IsTrue is_clean → findings_of sources.now (results_of (now_at entries.now)) ≡ [] }
    requires alone { IfSome alone (λ file. AreToldAlone sources.now (results_of (now_at entries.now)) file.now) }
    ensures { IfOk result (λ planned. (before : Compiled) → IsPlanned sources.now (results_of (now_at entries.now)) main.now before planned) }
{
    let found = found_in(alloc, sources, entries, faults, is_clean, alone)?;
    if !found.is_empty() {
        return Ok(Planned::Faulty(found));
    }
    match bound(alloc, sources, main, known)? {
        Ok(order) => {
            let partition = partition_of(alloc, sources, entries, main, order)?;
            Ok(Planned::Linkable(partition))
        }
        Err(fault) => Ok(Planned::Unbound(fault)),
    }
}
