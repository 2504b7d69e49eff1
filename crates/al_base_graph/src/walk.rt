// A walk over a graph that finds the nodes on cycles, in depth first order: each node and each step is looked at once. The path
// from the first node on is cut into stretches, whose nodes lead to one another; a step back to the path joins stretches.
ghost use Rattle.std.specs.Prelude.{◌≡◌, ◌↔◌, ◌≢◌, ℕ, ◌+◌, ◌*◌, ◌<◌, ◌≤◌, IsTrue, [], ◌∷◌, ◌++◌, length, take, drop, fold, sum, slice_index, slice_set, IfOk, OnOk};
ghost use Rattle.std.specs.List.{All, Contains};
ghost use Rattle.al_base_graph.specs.Graphs.{Step, IsOnCycle, IsAscending, Marks};
ghost use Rattle.al_base_graph.specs.Walks.{place_of, IsWalk, Walks, KeepsSeen, IsCut};
ghost use Rattle.al_base_graph.specs.declared.walk.Place.TheVariants.{Unseen, OnPath, Done};

use crate::graph::Graph;
use std::alloc::AllocError;

// What is known of a node: it is not seen yet, on the path at a place, or done, with all that it leads to.
#[derive(Clone, Copy)]
pub(crate) enum Place {
    Unseen,
    OnPath(usize),
    Done,
}

// The walk so far: what is known of each node, how many of its successors are still to be looked at (the first ones), the path, the
// places of the path that are visited, those at which a stretch begins, and for the nodes that are done, whether they are on a
// cycle.
#[derive(Drop)]
pub(crate) struct Walk {
    places: Vec<Place>,
    left: Vec<usize>,
    path: Vec<usize>,
    visiting: Vec<usize>,
    begins: Vec<usize>,
    flags: Vec<bool>,
}

impl Walk {
    // The walk before its first node.
    fn new(graph: &Graph) -> Result<Walk, AllocError>
        ensures walk { IfOk result (λ walk. Walks graph.now walk) }
        ensures between { IfOk result (λ walk. walk.visiting.items ≡ []) }
    {
        let alloc = graph.alloc();
        let count = graph.count();
        let mut left = Vec::with_capacity(alloc, count)?;
        for node in 0..count {
            left.push(graph.successors(node).len())?;
        }
        Ok(Walk {
            places: vec![in alloc; Place::Unseen; count]?,
            left,
            path: Vec::new(alloc),
            visiting: Vec::new(alloc),
            begins: Vec::new(alloc),
            flags: vec![in alloc; false; count]?,
        })
    }

    // A node that wasn't seen goes to the end of the path, as a stretch of its own.
    fn enter(&mut self, node: usize) -> Result<(), AllocError>
        requires { node < length self.old.places.items }
        ensures places { OnOk result (self.new.places.items ≡ slice_set self.old.places.items node (OnPath (length self.old.path.items))) }
        ensures path { OnOk result (self.new.path.items ≡ self.old.path.items ++ node ∷ []) }
        ensures visiting { OnOk result (self.new.visiting.items ≡ self.old.visiting.items ++ length self.old.path.items ∷ []) }
        ensures begins { OnOk result (self.new.begins.items ≡ self.old.begins.items ++ length self.old.path.items ∷ []) }
        ensures left { self.new.left ≡ self.old.left }
        ensures flags { self.new.flags ≡ self.old.flags }
    {
        let at = self.path.len();
        self.places[node] = Place::OnPath(at);
        self.path.push(node)?;
        self.visiting.push(at)?;
        self.begins.push(at)?;
        Ok(())
    }

    // Looks at the last successor that is left of the last node that is visited: it is entered, or joins stretches, or is done.
    fn look(&mut self, graph: &Graph, at: usize) -> Result<(), AllocError>
        requires walk { Walks graph.now self.old }
        requires at_in { at < length self.old.path.items }
        requires last { (i : ℕ) → Contains self.old.visiting.items i → i ≤ at }
        requires some_left { 0 < slice_index self.old.left.items (slice_index self.old.path.items at) }
        ensures walk { OnOk result (Walks graph.now self.new) }
        ensures seen { OnOk result (KeepsSeen self.old.places.items self.new.places.items) }
        ensures fewer { OnOk result (2 * sum self.new.left.items + length self.new.visiting.items < 2 * sum self.old.left.items + length self.old.visiting.items) }
    {
        let node = self.path[at];
        let left = self.left[node] - 1;
        let next = graph.successors(node)[left];
        match self.places[next] {
            Place::Unseen => self.enter(next)?,
            Place::OnPath(to) => cut(&mut self.begins, to),
            Place::Done => {}
        }
        self.left[node] = left;
        Ok(())
    }

    // Ends the visit of a node: if it begins a stretch, the nodes of the stretch are done.
    fn leave(&mut self, graph: &Graph, at: usize)
        requires walk { IsWalk graph.now self.old.places.items self.old.left.items self.old.path.items (self.old.visiting.items ++ at ∷ []) self.old.begins.items self.old.flags.items }
        requires none_left { slice_index self.old.left.items (slice_index self.old.path.items at) ≡ 0 }
        ensures walk { Walks graph.now self.new }
        ensures seen { KeepsSeen self.old.places.items self.new.places.items }
        ensures left { self.new.left ≡ self.old.left }
        ensures visiting { self.new.visiting ≡ self.old.visiting }
    {
        let last = self.begins.len() - 1;
        if self.begins[last] < at {
            return;
        }
        self.begins.truncate(last);
        let on_cycle = self.path.len() - at > 1 || leads_to_itself(graph, self.path[at]);
        self.finish(at, on_cycle);
    }

    // The nodes from a place of the path on are done.
    fn finish(&mut self, at: usize, on_cycle: bool)
        requires at_in { at ≤ length self.old.path.items }
        requires path_in { All (λ node. node < length self.old.places.items) self.old.path.items }
        requires flags_count { length self.old.flags.items ≡ length self.old.places.items }
        ensures places { self.new.places.items ≡ fold (λ written node. slice_set written node Done) self.old.places.items (drop at self.old.path.items) }
        ensures flags { self.new.flags.items ≡ fold (λ written node. slice_set written node on_cycle) self.old.flags.items (drop at self.old.path.items) }
        ensures path { self.new.path.items ≡ take at self.old.path.items }
        ensures visiting { self.new.visiting ≡ self.old.visiting }
        ensures begins { self.new.begins ≡ self.old.begins }
        ensures left { self.new.left ≡ self.old.left }
    {
        let stretch = &self.path[at..];
        write_all(&mut self.places, stretch, Place::Done);
        write_all(&mut self.flags, stretch, on_cycle);
        self.path.truncate(at);
    }

    // Goes on until no node is visited.
    fn run(&mut self, graph: &Graph) -> Result<(), AllocError>
        requires { Walks graph.now self.old }
        ensures walk { OnOk result (Walks graph.now self.new) }
        ensures seen { OnOk result (KeepsSeen self.old.places.items self.new.places.items) }
        ensures over { OnOk result (self.new.visiting.items ≡ []) }
    {
        'nodes: while let Some(at) = self.visiting.pop() {
            if self.left[self.path[at]] > 0 {
                self.visiting.push(at)?;
                self.look(graph, at)?;
            } else {
                self.leave(graph, at);
            }
        }
        Ok(())
    }

    // Visits a node and all that it leads to, as far as they weren't seen.
    fn visit(&mut self, graph: &Graph, node: usize) -> Result<(), AllocError>
        requires node_in { node < length graph.now }
        requires walk { Walks graph.now self.old }
        requires between { self.old.visiting.items ≡ [] }
        ensures walk { OnOk result (Walks graph.now self.new) }
        ensures seen { OnOk result (KeepsSeen self.old.places.items self.new.places.items) }
        ensures over { OnOk result (self.new.visiting.items ≡ []) }
        ensures visited { OnOk result (place_of self.new.places.items node ≢ Unseen) }
    {
        let Place::Unseen = self.places[node] else {
            return Ok(());
        };
        self.enter(node)?;
        self.run(graph)?;
        Ok(())
    }
}

// Takes the numbers above a bound off the end of an ascending list.
fn cut(numbers: &mut Vec<usize>, most: usize)
    requires { IsAscending numbers.old.items }
    ensures { IsCut numbers.old.items numbers.new.items most }
{
    'numbers: while let Some(last) = numbers.last() {
        if *last <= most {
            return;
        }
        numbers.pop();
    }
}

// Writes one value at each of the nodes.
fn write_all<T: Copy>(items: &mut [T], nodes: &[usize], value: T)
    requires { All (λ node. node < length items.old) nodes.now }
    ensures { items.new ≡ fold (λ written node. slice_set written node value) items.old nodes.now }
{
    for node in nodes {
        items[*node] = value;
    }
}

// Whether one step leads from the node to itself.
fn leads_to_itself(graph: &Graph, node: usize) -> bool
    requires { node < length graph.now }
    ensures { IsTrue result ↔ Step graph.now node node }
{
    graph.successors(node).contains(&node)
}

// A flag for each node, which is set at those on cycles.
pub(crate) fn on_cycles(graph: &Graph) -> Result<Vec<bool>, AllocError>
    ensures { IfOk result (λ flags. Marks flags.items (length graph.now) (IsOnCycle graph.now)) }
{
    let mut walk = Walk::new(graph)?;
    for node in 0..graph.count() {
        walk.visit(graph, node)?;
    }
    Ok(walk.flags)
}
