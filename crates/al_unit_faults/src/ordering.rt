// The order of dependence.
ghost use Rattle.std.specs.Prelude.{map, IfOk};
ghost use Rattle.al_base.specs.Batch.{key_of};
ghost use Rattle.al_unit_faults.specs.FilesSeen.{file_faults_model};
ghost use Rattle.al_unit_faults.specs.Reached.{AreFaultsOf, IsDependenceOrder};

use crate::FileFaults;
use crate::faultless::faultless_units;
use crate::places::units_at;
use crate::steps::graph_of;
use al_base::{NoMemory, UnitKey};
use al_base_graph::order;
use al_base_graph::order_laws::cycle_is_of_steps;
use al_unit_graph::Sources;
use std::alloc::Global;

/// All units of the library that break no rule of the graph, each once, and after all of them on which it depends by itself. There
/// is such an order, since no unit that depends on itself is among them. It takes what is wrong with each file.
///
/// # Errors
///
/// `NoMemory` if the allocator refuses memory.
pub fn dependence_order(
    alloc: Global,
    sources: &Sources,
    faults: &[FileFaults],
) -> Result<Vec<UnitKey>, NoMemory>
    requires { AreFaultsOf sources.now (map file_faults_model faults.now) }
    ensures { IfOk result (λ order. IsDependenceOrder sources.now (map key_of order.items)) }
{
    let units = faultless_units(alloc, sources, faults)?;
    let graph = graph_of(alloc, sources, units.as_slice())?;
    cycle_is_of_steps();
    match order(alloc, &graph)? {
        Ok(places) => {
            let list = units_at(alloc, units.as_slice(), places.as_slice())?;
            Ok(list)
        }
        Err(_) => unreachable!(),
    }
}
