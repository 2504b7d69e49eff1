// The walk from the least stuck node to its least stuck predecessor, and on, to the first node that is met again.
ghost use Rattle.std.specs.Prelude.{◌≡◌, ℕ, ◌<◌, length, slice_index, slice_index_or, IfOk};
ghost use Rattle.std.specs.List.{Contains};
ghost use Rattle.al_base_graph.specs.Orders.{IsLeast, IsStuck, IsCycle};
ghost use Rattle.al_base_graph.specs.Placings.{TellStuck};

use crate::Graph;
use crate::least::least_open_of;
use std::alloc::{AllocError, Global};

/// Nodes each of which has the next one as a predecessor, and the last one the first.
pub struct Cycle {
    /// The nodes, by their numbers. There is at least one.
    pub nodes: Vec<usize>,
}

impl Drop for Cycle {
    fn drop(self) {
        let Cycle { nodes: _ } = self;
    }
}

impl Cycle {
    // The cycle at the end of the walk from a node.
    pub(crate) fn from(
        alloc: Global,
        graph: &Graph,
        missing: &[usize],
        first: usize,
    ) -> Result<Cycle, AllocError>
        requires count { length missing.now ≡ length graph.now }
        requires stuck { TellStuck graph.now missing.now }
        requires first { IsLeast (IsStuck graph.now) first }
        ensures { IfOk result (λ cycle. IsCycle graph.now cycle.nodes.items) }
    {
        let mut met = vec![in alloc; false; missing.len()]?;
        let mut walk = Vec::new(alloc);
        let mut node = first;
        'walk: while !met[node] {
            met[node] = true;
            walk.push(node)?;
            node = least_open_of(graph.successors(node), missing);
        }
        let begin = place_of(&walk, node);
        Ok(Cycle {
            nodes: Vec::from_slice(alloc, &walk[begin..])?,
        })
    }
}

// The place of a node in the cycle.
fn place_of(nodes: &[usize], node: usize) -> usize
    requires { Contains nodes.now node }
    ensures within { result < length nodes.now }
    ensures there { slice_index_or nodes.now result 0 ≡ node }
{
    let mut place = 0;
    'nodes: while nodes[place] != node {
        place += 1;
    }
    place
}
