// The graph with each step the other way round.
ghost use Rattle.std.specs.Prelude.{◌≡◌, ◌↔◌, ◌⊎◌, ℕ, ◌<◌, length, IfOk, OnOk};
ghost use Rattle.std.specs.List.{All, Contains};
ghost use Rattle.al_base_graph.specs.Graphs.{Step, IsReverse, ReachesSome, Marks};

use crate::graph::Graph;
use std::alloc::AllocError;

impl Graph {
    /// The graph with each step the other way round.
    ///
    /// # Errors
    ///
    /// `AllocError` if the allocator refuses memory.
    pub fn reversed(&self) -> Result<Graph, AllocError>
        ensures { IfOk result (λ graph. IsReverse self.now graph) }
    {
        let mut graph = Graph::new(self.alloc(), self.count())?;
        for node in 0..self.count() {
            graph.add_from_all(self.successors(node), node)?;
        }
        Ok(graph)
    }

    /// A flag for each node, which is set at those from which some number of steps leads to one of the goals; no step
    /// leads from a goal to itself. Each node and each step is looked at once.
    ///
    /// # Errors
    ///
    /// `AllocError` if the allocator refuses memory.
    pub fn reaching(&self, goals: &[usize]) -> Result<Vec<bool>, AllocError>
        requires { All (λ goal. goal < length self.now) goals.now }
        ensures { IfOk result (λ flags. Marks flags.items (length self.now) (ReachesSome self.now goals.now)) }
    {
        let reversed = self.reversed()?;
        reversed.reached(goals)
    }

    // Adds a step from each of some nodes to one node.
    fn add_from_all(&mut self, nodes: &[usize], to: usize) -> Result<(), AllocError>
        requires nodes_in { All (λ node. node < length self.old) nodes.now }
        requires to_in { to < length self.old }
        ensures count { OnOk result (length self.new ≡ length self.old) }
        ensures steps { OnOk result ((a b : ℕ) → Step self.new a b ↔ (Step self.old a b ⊎ ((b ≡ to) × Contains nodes.now a))) }
    {
        for node in nodes {
            self.add(*node, to)?;
        }
        Ok(())
    }
}
