// A search over a graph, by a worklist: each node is found once, and its successors are looked at once.
ghost use Rattle.std.specs.Prelude.{◌≡◌, ◌↔◌, ℕ, ◌<◌, [], ◌∷◌, length, IfOk, OnOk};
ghost use Rattle.std.specs.List.{All, Contains};
ghost use Rattle.al_base_graph.specs.Graphs.{IsReached};
ghost use Rattle.al_base_graph.specs.Searches.{AreFound, Grows};

use crate::graph::Graph;
use std::alloc::{AllocError, Global};

// The nodes found so far, in the order in which they were found, and a flag at each.
#[derive(Drop)]
pub(crate) struct Found {
    pub(crate) flags: Vec<bool>,
    pub(crate) nodes: Vec<usize>,
}

impl Found {
    fn none(alloc: Global, count: usize) -> Result<Found, AllocError>
        ensures found { IfOk result (λ found. AreFound found.flags.items found.nodes.items) }
        ensures count { IfOk result (λ found. length found.flags.items ≡ count) }
        ensures empty { IfOk result (λ found. found.nodes.items ≡ []) }
    {
        let flags = vec![in alloc; false; count]?;
        Ok(Found {
            flags,
            nodes: Vec::new(alloc),
        })
    }

    fn add(&mut self, node: usize) -> Result<(), AllocError>
        requires node_in { node < length self.old.flags.items }
        requires found { AreFound self.old.flags.items self.old.nodes.items }
        ensures found { OnOk result (AreFound self.new.flags.items self.new.nodes.items) }
        ensures count { length self.new.flags.items ≡ length self.old.flags.items }
        ensures grows { OnOk result (Grows self.old.nodes.items self.new.nodes.items (node ∷ [])) }
    {
        if self.flags[node] {
            return Ok(());
        }
        self.flags[node] = true;
        self.nodes.push(node)?;
        Ok(())
    }

    fn add_all(&mut self, nodes: &[usize]) -> Result<(), AllocError>
        requires nodes_in { All (λ node. node < length self.old.flags.items) nodes.now }
        requires found { AreFound self.old.flags.items self.old.nodes.items }
        ensures found { OnOk result (AreFound self.new.flags.items self.new.nodes.items) }
        ensures count { length self.new.flags.items ≡ length self.old.flags.items }
        ensures grows { OnOk result (Grows self.old.nodes.items self.new.nodes.items nodes.now) }
    {
        for node in nodes {
            self.add(*node)?;
        }
        Ok(())
    }
}

// Finds what the starts reach.
pub(crate) fn search(graph: &Graph, starts: &[usize]) -> Result<Found, AllocError>
    requires { All (λ start. start < length graph.now) starts.now }
    ensures found { IfOk result (λ found. AreFound found.flags.items found.nodes.items) }
    ensures count { IfOk result (λ found. length found.flags.items ≡ length graph.now) }
    ensures reached { IfOk result (λ found. (a : ℕ) → Contains found.nodes.items a ↔ IsReached graph.now starts.now a) }
{
    let mut found = Found::none(graph.alloc(), graph.count())?;
    found.add_all(starts)?;
    let mut next = 0;
    'nodes: while next < found.nodes.len() {
        let node = found.nodes[next];
        found.add_all(graph.successors(node))?;
        next += 1;
    }
    Ok(found)
}
