// The edges between nodes: the pair of items that an edge is for, and its reason.
ghost use Rattle.std.specs.Prelude.{◌≡◌, ◌↔◌, ◌⊎◌, ◌<◌, ℕ, List, length, IfOk, IsTrue, MatchOption, MatchResult, slice_index};
ghost use Rattle.std.specs.List.{All, Contains};
ghost use Rattle.al_base_graph.specs.Orders.{IsOrdered, next_in};
ghost use Rattle.al_base_graph.specs.Ties.{rank_of, IsUpto, IsBetween, IsLine, AreLines, IsFault, graph_from};
ghost use Rattle.al_base_graph.specs.declared.edge.Edge.{Edge};

use crate::Graph;
use crate::ordering::order;
use std::alloc::{AllocError, Global};

/// Why an item comes after another one. The first reason is `Depends`.
#[derive(Clone, Copy)]
pub enum Reason {
    /// The one depends on the other.
    Depends,
    /// The one names the other in a pragma Elaborate.
    Elaborate,
    /// The one needs the other by a pragma Elaborate_All.
    ElaborateAll,
}

/// An item of one node, which comes after an item of another node. An item is given by its place in the order of keys.
#[derive(Clone, Copy)]
pub struct Edge {
    /// The node that comes later.
    pub after: usize,
    /// The node that comes earlier.
    pub before: usize,
    /// Why the one comes after the other.
    pub reason: Reason,
    /// The item of the later node.
    pub x: usize,
    /// The item of the earlier node.
    pub y: usize,
}

fn rank(reason: Reason) -> u8
    ensures { result ≡ rank_of reason }
{
    match reason {
        Reason::Depends => 0,
        Reason::Elaborate => 1,
        Reason::ElaborateAll => 2,
    }
}

// Whether a line names this one rather than another.
fn is_upto(one: &Edge, two: &Edge) -> bool
    ensures { IsTrue result ↔ IsUpto one.now two.now }
{
    let (a, b) = (rank(one.reason), rank(two.reason));
    a < b || (a == b && (one.x < two.x || (one.x == two.x && one.y <= two.y)))
}

// The edge that `line` gives: the one found so far, or one more.
fn first_of(found: Option<Edge>, edge: Edge) -> Edge
    ensures { MatchOption found (result ≡ edge) (λ f. ((result ≡ f) × IsUpto f edge) ⊎ ((result ≡ edge) × (IsUpto f edge → ⊥))) }
{
    match found {
        Some(found) if is_upto(&found, &edge) => found,
        _ => edge,
    }
}

/// The edge that stands for all edges between two nodes: the one with the first reason, then the least x, then the least y.
pub fn line(edges: &[Edge], after: usize, before: usize) -> Option<Edge>
    ensures { MatchOption result ((t : Edge) → Contains edges.now t → IsBetween after before t → ⊥) (IsLine edges.now after before) }
{
    let mut least: Option<Edge> = None;
    for edge in edges {
        if edge.after == after && edge.before == before {
            least = Some(first_of(least, *edge));
        }
    }
    least
}

// The graph with a step for each edge.
fn graph_of(alloc: Global, count: usize, edges: &[Edge]) -> Result<Graph, AllocError>
    requires { All (λ t. (t.after < count) × (t.before < count)) edges.now }
    ensures { IfOk result (λ graph. graph ≡ graph_from count edges.now) }
{
    let mut graph = Graph::new(alloc, count)?;
    for edge in edges {
        graph.add(edge.after, edge.before)?;
    }
    Ok(graph)
}

// The edges of a cycle, one for each step.
fn lines_of(alloc: Global, edges: &[Edge], cycle: &[usize]) -> Result<Vec<Edge>, AllocError>
    requires { (i : ℕ) → i < length cycle.now → (t : Edge) × Contains edges.now t × IsBetween (slice_index cycle.now i) (next_in cycle.now i) t }
    ensures { IfOk result (λ lines. AreLines edges.now cycle.now lines.items) }
{
    let mut lines = Vec::new(alloc);
    for place in 0..cycle.len() {
        let next = if place + 1 < cycle.len() {
            cycle[place + 1]
        } else {
            cycle[0]
        };
        if let Some(edge) = line(edges, cycle[place], next) {
            lines.push(edge)?;
        }
    }
    Ok(lines)
}

/// An order of so many nodes in which each edge leads from an earlier node to a later one, or the edges of a cycle.
///
/// # Errors
///
/// `AllocError` if the allocator refuses memory.
pub fn order_of_ties(
    alloc: Global,
    count: usize,
    edges: &[Edge],
) -> Result<Result<Vec<usize>, Vec<Edge>>, AllocError>
    requires { All (λ t. (t.after < count) × (t.before < count)) edges.now }
    ensures { IfOk result (λ bound. MatchResult bound (λ order. IsOrdered (graph_from count edges.now) order.items) (λ lines. IsFault count edges.now lines.items)) }
{
    let graph = graph_of(alloc, count, edges)?;
    match order(alloc, &graph)? {
        Ok(order) => Ok(Ok(order)),
        Err(cycle) => Ok(Err(lines_of(alloc, edges, &cycle.nodes)?)),
    }
}
