// What some nodes of a graph reach, and what reaches them.
ghost use Rattle.std.specs.Prelude.{◌<◌, false, length, slice_index_or, IfOk, IsTrue};
ghost use Rattle.std.specs.List.{All};
ghost use Rattle.al_base_graph.specs.Graphs.{IsReached, IsOnCycle, Marks, Lists};

use crate::graph::Graph;
use crate::search::search;
use crate::walk::on_cycles;
use std::alloc::{AllocError, Global};

impl Graph {
    /// A flag for each node, which is set at those that some number of steps leads to from one of the starts; no step
    /// leads from a start to itself. Each node and each step is looked at once.
    ///
    /// # Errors
    ///
    /// `AllocError` if the allocator refuses memory.
    pub fn reached(&self, starts: &[usize]) -> Result<Vec<bool>, AllocError>
        requires { All (λ start. start < length self.now) starts.now }
        ensures { IfOk result (λ flags. Marks flags.items (length self.now) (IsReached self.now starts.now)) }
    {
        let found = search(self, starts)?;
        Ok(found.flags)
    }

    /// The nodes that `reached` marks, in ascending order.
    ///
    /// # Errors
    ///
    /// `AllocError` if the allocator refuses memory.
    pub fn closure(&self, starts: &[usize]) -> Result<Vec<usize>, AllocError>
        requires { All (λ start. start < length self.now) starts.now }
        ensures { IfOk result (λ nodes. Lists nodes.items (IsReached self.now starts.now)) }
    {
        let found = search(self, starts)?;
        numbers(self.alloc(), &found.flags)
    }

    /// A flag for each node, which is set at those from which at least one step leads back to the node. Each node and each
    /// step is looked at once, and no recursion uses the machine's stack.
    ///
    /// # Errors
    ///
    /// `AllocError` if the allocator refuses memory.
    pub fn on_cycles(&self) -> Result<Vec<bool>, AllocError>
        ensures { IfOk result (λ flags. Marks flags.items (length self.now) (IsOnCycle self.now)) }
    {
        on_cycles(self)
    }
}

// The numbers of the flags that are set.
fn numbers(alloc: Global, flags: &[bool]) -> Result<Vec<usize>, AllocError>
    ensures { IfOk result (λ nodes. Lists nodes.items (λ a. IsTrue (slice_index_or flags.now a false))) }
{
    let mut nodes = Vec::new(alloc);
    for (node, flag) in flags.iter().enumerate() {
        if *flag {
            nodes.push(node)?;
        }
    }
    Ok(nodes)
}
