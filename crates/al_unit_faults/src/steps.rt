// The graph of dependences among units.
ghost use Rattle.std.specs.Prelude.{◌≡◌, ◌<◌, length, map, IfOk, OnOk};
ghost use Rattle.std.specs.List.Sorted.{IsStrictlySortedBy};
ghost use Rattle.al_base.specs.Batch.{key_of};
ghost use Rattle.al_unit_graph.specs.Orders.{key_cmp};
ghost use Rattle.al_unit_faults.specs.Steps.{AddsFrom, StepsBelow};

use crate::places::place_of;
use al_base::{NoMemory, UnitKey};
use al_base_graph::Graph;
use al_unit_graph::Sources;
use std::alloc::Global;

/// Adds steps from one place to those of these keys that are among the units.
fn add_steps(
    graph: &mut Graph,
    units: &[UnitKey],
    from: usize,
    keys: &[UnitKey],
) -> Result<(), NoMemory>
    requires ascend { IsStrictlySortedBy key_cmp (map key_of units.now) }
    requires nodes { length graph.old ≡ length units.now }
    requires from_in { from < length units.now }
    ensures { OnOk result (AddsFrom graph.old graph.new from (map key_of units.now) (map key_of keys.now)) }
{
    for key in keys {
        if let Some(to) = place_of(units, key) {
            graph.add(from, to)?;
        }
    }
    Ok(())
}

/// The graph of some units in order, in which steps lead from each to those among them on which it depends by itself.
pub(crate) fn graph_of(
    alloc: Global,
    sources: &Sources,
    units: &[UnitKey],
) -> Result<Graph, NoMemory>
    requires { IsStrictlySortedBy key_cmp (map key_of units.now) }
    ensures { IfOk result (λ graph. StepsBelow sources.now (map key_of units.now) (length units.now) graph) }
{
    let mut graph = Graph::new(alloc, units.len())?;
    for i in 0..units.len() {
        let keys = sources.direct(&units[i])?;
        add_steps(&mut graph, units, i, keys.as_slice())?;
    }
    Ok(graph)
}
