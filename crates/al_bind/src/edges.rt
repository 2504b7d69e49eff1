// Edges of the elaboration graph. Each edge is between two nodes, and is carried by a pair of items.
ghost use Rattle.std.specs.Prelude.{◌≡◌, ◌↔◌, ◌⊎◌, map, IfOk, MatchBool, OnOk};
ghost use Rattle.std.specs.List.{Contains};
ghost use Rattle.al_base.specs.Batch.{key_of, Key};
ghost use Rattle.al_base.specs.declared.unit_key.UnitKind.TheVariants.{Body};
ghost use Rattle.al_base_graph.specs.declared.edge.Reason.TheVariants.{Depends, Elaborate, ElaborateAll};
ghost use Rattle.al_base_graph.specs.declared.edge.Edge.{Edge};
ghost use Rattle.al_bind.specs.declared.edges.Extent.TheVariants.{Steps};
ghost use Rattle.al_unit_graph.specs.Needed.{Needed, ListsUnits};
ghost use Rattle.al_bind.specs.Numbers.{Adds, ArePlaces, IsFor, IsForAll, OneOf, TellsWant, TiesBy, TiesFrom};
ghost use Rattle.al_bind.specs.Steps.{ArePlaced, IsTold, WantsTold};

use crate::parts::parts_of;
use crate::places::{End, Places};
use al_base::{Name, NoMemory, UnitKey, UnitKind};
use al_base_graph::{Edge, Reason};
use al_unit_graph::Sources;
use std::alloc::Global;

// How many of the edges are listed.
#[derive(Clone, Copy)]
pub(crate) enum Extent {
    // All: one for each pair of nodes, and each pair of items that carries it.
    Whole,
    // Some, from which all others follow by transitivity.
    Steps,
}

// Adds the edge from an item to another one, if that is an item of the partition and of another node.
fn add_tie(
    sources: &Sources,
    places: &Places,
    reason: Reason,
    x: End,
    y: &UnitKey,
    edges: &mut Vec<Edge>,
) -> Result<(), NoMemory>
    requires { ArePlaces sources.now places.now }
    ensures { OnOk result (Adds edges.old.items edges.new.items (TiesBy sources.now (map key_of places.now.keys.items) x (IsFor reason (key_of y.now)))) }
{
    let Some(end) = places.end_of(sources, y) else {
        return Ok(());
    };
    if end.node != x.node {
        edges.push(Edge {
            after: x.node,
            before: end.node,
            reason,
            x: x.item,
            y: end.item,
        })?;
    }
    Ok(())
}

// Adds the edges from an item to each of these items.
fn add_ties(
    sources: &Sources,
    places: &Places,
    reason: Reason,
    x: End,
    ys: &[UnitKey],
    edges: &mut Vec<Edge>,
) -> Result<(), NoMemory>
    requires { ArePlaces sources.now places.now }
    ensures { OnOk result (Adds edges.old.items edges.new.items (OneOf ys.now (λ y. TiesBy sources.now (map key_of places.now.keys.items) x (IsFor reason (key_of y))))) }
{
    for y in ys {
        add_tie(sources, places, reason, x, y, edges)?;
    }
    Ok(())
}

// Whether all of these are items of the partition.
fn are_placed(sources: &Sources, places: &Places, keys: &[UnitKey]) -> bool
    requires { ArePlaces sources.now places.now }
    ensures { MatchBool result (ArePlaced sources.now (map key_of places.now.keys.items) (map key_of keys.now)) (ArePlaced sources.now (map key_of places.now.keys.items) (map key_of keys.now) → ⊥) }
{
    for key in keys {
        let Some(_end) = places.end_of(sources, key) else {
            return false;
        };
    }
    true
}

// The units that a unit depends on directly, if all of them are items of the partition; else all that it depends on.
fn steps_from(sources: &Sources, places: &Places, part: &UnitKey) -> Result<Vec<UnitKey>, NoMemory>
    requires { ArePlaces sources.now places.now }
    ensures { IfOk result (λ keys. (y : Key) → Contains (map key_of places.now.keys.items) y → Contains (map key_of keys.items) y ↔ IsTold Steps sources.now (map key_of places.now.keys.items) (key_of part.now) y) }
{
    let direct = sources.direct(part)?;
    if are_placed(sources, places, &direct) {
        return Ok(direct);
    }
    sources.depends(part)
}

// The dependences of a unit that are listed as edges.
fn dependences_told(
    sources: &Sources,
    places: &Places,
    extent: Extent,
    part: &UnitKey,
) -> Result<Vec<UnitKey>, NoMemory>
    requires { ArePlaces sources.now places.now }
    ensures { IfOk result (λ keys. (y : Key) → Contains (map key_of places.now.keys.items) y → Contains (map key_of keys.items) y ↔ IsTold extent sources.now (map key_of places.now.keys.items) (key_of part.now) y) }
{
    match extent {
        Extent::Whole => sources.depends(part),
        Extent::Steps => steps_from(sources, places, part),
    }
}

// Adds the edges to the items that a part of the item depends on.
fn add_dependences(
    sources: &Sources,
    places: &Places,
    extent: Extent,
    x: End,
    part: &UnitKey,
    edges: &mut Vec<Edge>,
) -> Result<(), NoMemory>
    requires { ArePlaces sources.now places.now }
    ensures { OnOk result (Adds edges.old.items edges.new.items (TiesBy sources.now (map key_of places.now.keys.items) x (λ r k. (r ≡ Depends) × IsTold extent sources.now (map key_of places.now.keys.items) (key_of part.now) k))) }
{
    let keys = dependences_told(sources, places, extent, part)?;
    add_ties(sources, places, Reason::Depends, x, &keys, edges)?;
    Ok(())
}

// Adds the edge to the body with this name.
fn add_body(
    alloc: Global,
    sources: &Sources,
    places: &Places,
    reason: Reason,
    x: End,
    name: &Name,
    edges: &mut Vec<Edge>,
) -> Result<(), NoMemory>
    requires { ArePlaces sources.now places.now }
    ensures { OnOk result (Adds edges.old.items edges.new.items (TiesBy sources.now (map key_of places.now.keys.items) x (IsFor reason (name.now, Body)))) }
{
    let body = UnitKey {
        name: Name::from_slice(alloc, name.as_slice())?,
        kind: UnitKind::Body,
    };
    add_tie(sources, places, reason, x, &body, edges)?;
    Ok(())
}

// Adds the edges to the bodies of the units named in Elaborate.
fn add_bodies(
    alloc: Global,
    sources: &Sources,
    places: &Places,
    x: End,
    names: &[Name],
    edges: &mut Vec<Edge>,
) -> Result<(), NoMemory>
    requires { ArePlaces sources.now places.now }
    ensures { OnOk result (Adds edges.old.items edges.new.items (OneOf names.now (λ q. TiesBy sources.now (map key_of places.now.keys.items) x (IsFor Elaborate (q, Body))))) }
{
    for name in names {
        add_body(alloc, sources, places, Reason::Elaborate, x, name, edges)?;
    }
    Ok(())
}

// Adds the edges to all items that the declaration of a unit needs.
fn add_needed(
    sources: &Sources,
    places: &Places,
    x: End,
    name: &Name,
    edges: &mut Vec<Edge>,
) -> Result<(), NoMemory>
    requires { ArePlaces sources.now places.now }
    ensures { OnOk result (Adds edges.old.items edges.new.items (TiesBy sources.now (map key_of places.now.keys.items) x (λ r k. (r ≡ ElaborateAll) × Needed sources.now name.now k))) }
{
    let keys = sources.needed(name.as_slice())?;
    add_ties(sources, places, Reason::ElaborateAll, x, &keys, edges)?;
    Ok(())
}

// Adds the edges to the body of a unit named in Elaborate_All, and to all items that its declaration needs.
fn add_all_of(
    alloc: Global,
    sources: &Sources,
    places: &Places,
    x: End,
    name: &Name,
    edges: &mut Vec<Edge>,
) -> Result<(), NoMemory>
    requires { ArePlaces sources.now places.now }
    ensures { OnOk result (Adds edges.old.items edges.new.items (TiesBy sources.now (map key_of places.now.keys.items) x (IsForAll sources.now name.now))) }
{
    add_body(alloc, sources, places, Reason::ElaborateAll, x, name, edges)?;
    add_needed(sources, places, x, name, edges)?;
    Ok(())
}

// Adds the edges for each of the units named in Elaborate_All.
fn add_all(
    alloc: Global,
    sources: &Sources,
    places: &Places,
    x: End,
    names: &[Name],
    edges: &mut Vec<Edge>,
) -> Result<(), NoMemory>
    requires { ArePlaces sources.now places.now }
    ensures { OnOk result (Adds edges.old.items edges.new.items (OneOf names.now (λ q. TiesBy sources.now (map key_of places.now.keys.items) x (IsForAll sources.now q)))) }
{
    for name in names {
        add_all_of(alloc, sources, places, x, name, edges)?;
    }
    Ok(())
}

// Adds the edges to all items that must be elaborated before a part of the item.
fn add_part(
    alloc: Global,
    sources: &Sources,
    places: &Places,
    extent: Extent,
    x: End,
    part: &UnitKey,
    edges: &mut Vec<Edge>,
) -> Result<(), NoMemory>
    requires { ArePlaces sources.now places.now }
    ensures { OnOk result (Adds edges.old.items edges.new.items (TiesBy sources.now (map key_of places.now.keys.items) x (WantsTold extent sources.now (map key_of places.now.keys.items) (key_of part.now)))) }
{
    add_dependences(sources, places, extent, x, part, edges)?;
    let Some(header) = sources.unit(part) else {
        return Ok(());
    };
    add_bodies(
        alloc,
        sources,
        places,
        x,
        header.elaborate.as_slice(),
        edges,
    )?;
    add_all(
        alloc,
        sources,
        places,
        x,
        header.elaborate_all.as_slice(),
        edges,
    )?;
    Ok(())
}

// Adds the edges to all items that must be elaborated before one of the item's parts.
fn add_parts(
    alloc: Global,
    sources: &Sources,
    places: &Places,
    extent: Extent,
    x: End,
    parts: &[UnitKey],
    edges: &mut Vec<Edge>,
) -> Result<(), NoMemory>
    requires { ArePlaces sources.now places.now }
    ensures { OnOk result (Adds edges.old.items edges.new.items (OneOf parts.now (λ p. TiesBy sources.now (map key_of places.now.keys.items) x (WantsTold extent sources.now (map key_of places.now.keys.items) (key_of p))))) }
{
    for part in parts {
        add_part(alloc, sources, places, extent, x, part, edges)?;
    }
    Ok(())
}

// Adds the edges that an item carries.
fn add_item(
    alloc: Global,
    sources: &Sources,
    places: &Places,
    extent: Extent,
    key: &UnitKey,
    edges: &mut Vec<Edge>,
) -> Result<(), NoMemory>
    requires { ArePlaces sources.now places.now }
    ensures { OnOk result (Adds edges.old.items edges.new.items (TiesFrom sources.now (map key_of places.now.keys.items) (WantsTold extent sources.now (map key_of places.now.keys.items)) (key_of key.now))) }
{
    let Some(x) = places.end_of(sources, key) else {
        return Ok(());
    };
    let parts = parts_of(alloc, sources, key)?;
    add_parts(alloc, sources, places, extent, x, &parts, edges)?;
    Ok(())
}

// Adds the edges that these items carry.
fn add_items(
    alloc: Global,
    sources: &Sources,
    places: &Places,
    extent: Extent,
    keys: &[UnitKey],
    edges: &mut Vec<Edge>,
) -> Result<(), NoMemory>
    requires { ArePlaces sources.now places.now }
    ensures { OnOk result (Adds edges.old.items edges.new.items (OneOf keys.now (λ k. TiesFrom sources.now (map key_of places.now.keys.items) (WantsTold extent sources.now (map key_of places.now.keys.items)) (key_of k)))) }
{
    for key in keys {
        add_item(alloc, sources, places, extent, key, edges)?;
    }
    Ok(())
}

// The edges of a partition: all, or some from which all others follow.
pub(crate) fn ties_of(
    alloc: Global,
    sources: &Sources,
    main: &[u8],
    places: &Places,
    extent: Extent,
) -> Result<Vec<Edge>, NoMemory>
    requires places { ArePlaces sources.now places.now }
    requires lists { ListsUnits sources.now (map key_of places.now.keys.items) (Needed sources.now main.now) }
    ensures { IfOk result (λ edges. (t : Edge) → Contains edges.items t ↔ TellsWant sources.now main.now (map key_of places.now.keys.items) (WantsTold extent sources.now (map key_of places.now.keys.items)) t) }
{
    let _main = main;
    let mut edges = Vec::new(alloc);
    add_items(
        alloc,
        sources,
        places,
        extent,
        places.keys.as_slice(),
        &mut edges,
    )?;
    Ok(edges)
}
