// The graph with each step the other way round: from each node to the nodes that have it as a predecessor.
ghost use Rattle.std.specs.Prelude.{◌≡◌, ℕ, ◌+◌, ◌<◌, ◌==◌, length, IfOk, OnOk, if◌then◌else◌};
ghost use Rattle.std.specs.List.{All};
ghost use Rattle.al_base_graph.specs.Graphs.{successors_of};
ghost use Rattle.al_base_graph.specs.Placings.{times, AreLater};

use crate::Graph;
use std::alloc::{AllocError, Global};

// The nodes that come later than each node.
pub(crate) fn later(alloc: Global, graph: &Graph) -> Result<Graph, AllocError>
    ensures { IfOk result (λ later. AreLater graph.now later) }
{
    let mut later = Graph::new(alloc, graph.count())?;
    for node in 0..graph.count() {
        add_from_all(&mut later, graph.successors(node), node)?;
    }
    Ok(later)
}

// Adds a step from each of some nodes to one node.
fn add_from_all(graph: &mut Graph, nodes: &[usize], to: usize) -> Result<(), AllocError>
    requires nodes_in { All (λ node. node < length graph.old) nodes.now }
    requires to_in { to < length graph.old }
    ensures count { OnOk result (length graph.new ≡ length graph.old) }
    ensures times { OnOk result ((a b : ℕ) → times a (successors_of graph.new b) ≡ times a (successors_of graph.old b) + (if to == a then times b nodes.now else 0)) }
{
    for node in nodes {
        graph.add(*node, to)?;
    }
    Ok(())
}
