// The public call: the elaboration order of a partition, or the first fault.
ghost use Rattle.std.specs.Prelude.{◌≡◌, ◌<◌, ◌++◌, length, map, IfOk, OnOk, MatchResult};
ghost use Rattle.std.specs.List.{All};
ghost use Rattle.al_base.specs.Batch.{key_of};
ghost use Rattle.al_unit_graph.specs.Needed.{ListsUnits, Needed};
ghost use Rattle.al_bind.specs.Binding.{items_at, items_of, line_of, line_model, IsBindFault, IsCycleOfItems, IsElaboration};
ghost use Rattle.al_bind.specs.Faults.{IsComplete};
ghost use Rattle.al_bind.specs.Numbers.{ArePlaces};
ghost use Rattle.al_bind.specs.declared.edges.Extent.TheVariants.{Whole};

use crate::edges::{Extent, ties_of};
use crate::lacking::{MissingItem, first_lack};
use crate::places::{Places, copy_of, is_pair};
use al_base::{Name, NoMemory, UnitKey, UnitKind};
use al_base_graph::{Edge, Reason, order_of_ties};
use al_unit_graph::Sources;
use std::alloc::Global;

/// A line of a cycle: an item that comes after another one, and why.
pub struct Line {
    /// The item that comes after.
    pub after: UnitKey,
    /// The item that comes before.
    pub before: UnitKey,
    /// Why it does.
    pub reason: Reason,
}

impl Drop for Line {
    fn drop(self) {
        let Line {
            after: _,
            before: _,
            reason: _,
        } = self;
    }
}

/// Why a partition has no elaboration order.
pub enum BindFault {
    /// Something that the partition needs is missing.
    Lacks(MissingItem),
    /// A cycle. The node of each line's item comes after that of the next line, and that of the last line after that of the first (ARM 10.2.1(17)).
    Cycle(Vec<Line>),
}

impl Drop for BindFault {
    fn drop(self) {
        match self {
            BindFault::Lacks(_) => {}
            BindFault::Cycle(_) => {}
        }
    }
}

// Adds the items of a node.
fn add_items_of(
    alloc: Global,
    sources: &Sources,
    node: &UnitKey,
    items: &mut Vec<UnitKey>,
) -> Result<(), NoMemory>
    ensures { OnOk result (map key_of items.new.items ≡ map key_of items.old.items ++ items_of sources.now (key_of node.now)) }
{
    items.push(copy_of(alloc, node)?)?;
    let name = node.name.as_slice();
    if matches!(node.kind, UnitKind::Decl) && is_pair(sources, name) {
        items.push(UnitKey {
            name: Name::from_slice(alloc, name)?,
            kind: UnitKind::Body,
        })?;
    }
    Ok(())
}

// The items of the nodes at these places.
fn items_at(
    alloc: Global,
    sources: &Sources,
    nodes: &[UnitKey],
    order: &[usize],
) -> Result<Vec<UnitKey>, NoMemory>
    requires { All (λ i. i < length nodes.now) order.now }
    ensures { IfOk result (λ items. map key_of items.items ≡ items_at sources.now (map key_of nodes.now) order.now) }
{
    let mut items = Vec::new(alloc);
    for place in order {
        add_items_of(alloc, sources, &nodes[*place], &mut items)?;
    }
    Ok(items)
}

// The line that an edge gives.
fn line_of(alloc: Global, keys: &[UnitKey], edge: &Edge) -> Result<Line, NoMemory>
    requires x_in { edge.now.x < length keys.now }
    requires y_in { edge.now.y < length keys.now }
    ensures { IfOk result (λ line. line_model line ≡ line_of (map key_of keys.now) edge.now) }
{
    Ok(Line {
        after: copy_of(alloc, &keys[edge.x])?,
        before: copy_of(alloc, &keys[edge.y])?,
        reason: edge.reason,
    })
}

// The lines that these edges give.
fn lines_of(alloc: Global, keys: &[UnitKey], edges: &[Edge]) -> Result<Vec<Line>, NoMemory>
    requires { All (λ t. (t.x < length keys.now) × (t.y < length keys.now)) edges.now }
    ensures { IfOk result (λ lines. map line_model lines.items ≡ map (line_of (map key_of keys.now)) edges.now) }
{
    let mut lines = Vec::new(alloc);
    for edge in edges {
        lines.push(line_of(alloc, keys, edge)?)?;
    }
    Ok(lines)
}

// The order by these edges, or the lines of the cycle that they show. If these are all edges, the cycle is that of the partition.
fn bound_by(
    alloc: Global,
    sources: &Sources,
    main: &[u8],
    places: &Places,
    extent: Extent,
) -> Result<Result<Vec<UnitKey>, Vec<Line>>, NoMemory>
    requires complete { IsComplete sources.now main.now }
    requires lists { ListsUnits sources.now (map key_of places.now.keys.items) (Needed sources.now main.now) }
    requires places { ArePlaces sources.now places.now }
    ensures { IfOk result (λ bound. MatchResult bound (λ items. IsElaboration sources.now main.now (map key_of items.items)) (λ lines. extent ≡ Whole → IsCycleOfItems sources.now main.now lines.items)) }
{
    let edges = ties_of(alloc, sources, main, places, extent)?;
    match order_of_ties(alloc, places.nodes.len(), &edges)? {
        Ok(order) => {
            let items = items_at(alloc, sources, &places.nodes, &order)?;
            Ok(Ok(items))
        }
        Err(shown) => {
            let lines = lines_of(alloc, &places.keys, &shown)?;
            Ok(Err(lines))
        }
    }
}

/// The elaboration order of a partition (ARM 10.2(9), 10.2.1(26)). Its items are the declarations and bodies that the partition needs. A declaration
/// with Elaborate_Body and its body are one node, and the body comes right after the declaration. The next node is always the least by the bytes of
/// its name, a declaration before a body, among those whose predecessors have all come.
///
/// # Errors
///
/// `BindFault::Lacks` if something is missing; else `BindFault::Cycle` if there is no order, with the cycle that shows it; `NoMemory` if the
/// allocator refuses memory.
pub fn bind(
    alloc: Global,
    sources: &Sources,
    main: &[u8],
) -> Result<Result<Vec<UnitKey>, BindFault>, NoMemory>
    ensures { IfOk result (λ bound. MatchResult bound (λ items. IsElaboration sources.now main.now (map key_of items.items)) (IsBindFault sources.now main.now)) }
{
    let places = Places::of(alloc, sources, main)?;
    if let Some(lack) = first_lack(alloc, sources, main, places.keys.as_slice())? {
        return Ok(Err(BindFault::Lacks(lack)));
    }
    if let Ok(items) = bound_by(alloc, sources, main, &places, Extent::Steps)? {
        return Ok(Ok(items));
    }
    match bound_by(alloc, sources, main, &places, Extent::Whole)? {
        Ok(items) => Ok(Ok(items)),
        Err(lines) => Ok(Err(BindFault::Cycle(lines))),
    }
}
