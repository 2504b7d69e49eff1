// The order of the nodes, or a cycle.
ghost use Rattle.std.specs.Prelude.{IfOk, MatchResult};
ghost use Rattle.al_base_graph.specs.Orders.{IsOrdered, IsCycle};

use crate::Graph;
use crate::cycle::Cycle;
use crate::later::later;
use crate::least::least_open;
use crate::placing::Placing;
use std::alloc::{AllocError, Global};

/// The order of a graph's nodes, each of whose steps leads to a predecessor: all nodes, each time the least whose predecessors all
/// come before it. There is such an order exactly if no node is stuck; otherwise the result is the cycle to which the walk over
/// stuck nodes comes.
///
/// # Errors
///
/// `AllocError` if the allocator refuses memory.
pub fn order(alloc: Global, graph: &Graph) -> Result<Result<Vec<usize>, Cycle>, AllocError>
    ensures { IfOk result (λ ordered. MatchResult ordered (λ order. IsOrdered graph.now order.items) (λ cycle. IsCycle graph.now cycle.nodes.items)) }
{
    let later = later(alloc, graph)?;
    let mut placing = Placing::new(alloc, graph)?;
    placing.run(graph, &later)?;
    match least_open(&placing.missing) {
        None => Ok(Ok(placing.order)),
        Some(first) => Ok(Err(Cycle::from(alloc, graph, &placing.missing, first)?)),
    }
}
