// Directed graphs on the numbers below a count.
ghost use Rattle.std.specs.Prelude.{◌≡◌, ◌<◌, [], length, IfOk, OnOk, OnErr, replicate};
ghost use Rattle.std.specs.List.{All};
ghost use Rattle.al_base_graph.specs.Graphs.{successors_of, with_step};

use std::alloc::{AllocError, Global};
use std::marker::Model;

/// A directed graph on the numbers below a count. A clause sees the list of each node's successors.
pub struct Graph {
    alloc: Global,
    successors: Vec<Vec<usize>>,
}

impl Drop for Graph {
    fn drop(self) {
        let Graph {
            alloc: _,
            successors: _,
        } = self;
    }
}

impl Model for Graph {
    ghost use Rattle.std.specs.Prelude.{ℕ, List, map};
    ghost use Rattle.al_base_graph.specs.Graphs.{IsClosed};

    ghost Value = { List (List ℕ) };

    ghost view = { λ g. map (λ v. v.items) g.successors.items };

    ghost invariant = { λ g. IsClosed (map (λ v. v.items) g.successors.items) };
}

impl Graph {
    /// A graph with no step.
    ///
    /// # Errors
    ///
    /// `AllocError` if the allocator refuses memory.
    pub fn new(alloc: Global, count: usize) -> Result<Graph, AllocError>
        ensures { IfOk result (λ graph. graph ≡ replicate count []) }
    {
        let mut successors = Vec::with_capacity(alloc, count)?;
        for _node in 0..count {
            successors.push(Vec::new(alloc))?;
        }
        Ok(Graph { alloc, successors })
    }

    // The allocator from which the graph takes its memory.
    pub(crate) fn alloc(&self) -> Global {
        self.alloc
    }

    /// How many nodes there are.
    pub fn count(&self) -> usize
        ensures { result ≡ length self.now }
    {
        self.successors.len()
    }

    /// The nodes that one step leads to, in the order in which they were added.
    pub fn successors(&self, node: usize) -> &[usize]
        requires { node < length self.now }
        ensures value { result.now ≡ successors_of self.now node }
        ensures nodes { All (λ next. next < length self.now) result.now }
    {
        self.successors[node].as_slice()
    }

    /// Adds a step from one node to another. It may be there already.
    ///
    /// # Errors
    ///
    /// `AllocError` if the allocator refuses memory. Nothing has changed then.
    pub fn add(&mut self, from: usize, to: usize) -> Result<(), AllocError>
        requires from_in { from < length self.old }
        requires to_in { to < length self.old }
        ensures ok { OnOk result (self.new ≡ with_step self.old from to) }
        ensures err { OnErr result (self.new ≡ self.old) }
        ensures count { length self.new ≡ length self.old }
    {
        self.successors[from].push(to)?;
        Ok(())
    }
}
