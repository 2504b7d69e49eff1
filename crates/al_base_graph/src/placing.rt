// Places the nodes one by one, each time the least whose predecessors are all placed.
ghost use Rattle.std.specs.Prelude.{◌≡◌, ◌↔◌, ◌⊎◌, ℕ, ◌+◌, ◌-◌, ◌<◌, ◌≤◌, [], length, slice_index, slice_index_or, slice_set, IfOk, OnOk};
ghost use Rattle.std.specs.List.{All, Contains};
ghost use Rattle.al_base_graph.specs.Graphs.{IsClosed};
ghost use Rattle.al_base_graph.specs.Placings.{times, AreLater, Places};

use crate::Graph;
use crate::ready::Ready;
use std::alloc::{AllocError, Global};

// The nodes that are placed, for each node how many of its predecessors aren't, and the nodes that are ready.
#[derive(Drop)]
pub(crate) struct Placing {
    pub(crate) order: Vec<usize>,
    pub(crate) missing: Vec<usize>,
    ready: Ready,
}

impl Placing {
    // Nothing is placed.
    pub(crate) fn new(alloc: Global, graph: &Graph) -> Result<Placing, AllocError>
        ensures placing { IfOk result (λ placing. Places graph.now placing) }
        ensures closed { IfOk result (λ _. IsClosed graph.now) }
    {
        let mut missing = Vec::with_capacity(alloc, graph.count())?;
        let mut ready = Ready::new(alloc);
        for node in 0..graph.count() {
            let count = graph.successors(node).len();
            missing.push(count)?;
            if count == 0 {
                ready.add(node)?;
            }
        }
        Ok(Placing {
            order: Vec::new(alloc),
            missing,
            ready,
        })
    }

    // Counts that one more of the node's predecessors is placed.
    fn close(&mut self, node: usize) -> Result<(), AllocError>
        requires node_in { node < length self.old.missing.items }
        requires some { 0 < slice_index self.old.missing.items node }
        ensures order { self.new.order ≡ self.old.order }
        ensures missing { OnOk result (self.new.missing.items ≡ slice_set self.old.missing.items node (slice_index self.old.missing.items node - 1)) }
        ensures ready { OnOk result ((a : ℕ) → Contains self.new.ready.nodes.keys a ↔ (Contains self.old.ready.nodes.keys a ⊎ ((node ≡ a) × (slice_index self.old.missing.items node ≡ 1)))) }
    {
        self.missing[node] -= 1;
        if self.missing[node] == 0 {
            self.ready.add(node)?;
        }
        Ok(())
    }

    // Counts for each of the nodes that one more predecessor is placed.
    fn close_all(&mut self, nodes: &[usize]) -> Result<(), AllocError>
        requires nodes_in { All (λ node. node < length self.old.missing.items) nodes.now }
        requires some { (a : ℕ) → times a nodes.now ≤ slice_index_or self.old.missing.items a 0 }
        ensures order { self.new.order ≡ self.old.order }
        ensures count { OnOk result (length self.new.missing.items ≡ length self.old.missing.items) }
        ensures missing { OnOk result ((a : ℕ) → slice_index_or self.new.missing.items a 0 + times a nodes.now ≡ slice_index_or self.old.missing.items a 0) }
        ensures ready { OnOk result ((a : ℕ) → Contains self.new.ready.nodes.keys a ↔ (Contains self.old.ready.nodes.keys a ⊎ ((0 < times a nodes.now) × (slice_index_or self.new.missing.items a 0 ≡ 0)))) }
    {
        for node in nodes {
            self.close(*node)?;
        }
        Ok(())
    }

    // Goes on until no node is ready.
    pub(crate) fn run(&mut self, graph: &Graph, later: &Graph) -> Result<(), AllocError>
        requires placing { Places graph.now self.old }
        requires later { AreLater graph.now later.now }
        ensures placing { OnOk result (Places graph.now self.new) }
        ensures over { OnOk result (self.new.ready.nodes.keys ≡ []) }
    {
        'nodes: while let Some(node) = self.ready.take_least() {
            self.order.push(node)?;
            self.close_all(later.successors(node))?;
        }
        Ok(())
    }
}
