// The places of items and nodes in the order of keys.
ghost use Rattle.std.specs.Prelude.{◌≡◌, ◌↔◌, ℕ, ◌<◌, length, map, IfOk, MatchOption};
ghost use Rattle.std.specs.List.{Contains};
ghost use Rattle.std.specs.List.Sorted.{IsStrictlySortedBy};
ghost use Rattle.std.specs.Ordering.{nat_cmp};
ghost use Rattle.al_base.specs.Batch.{key_of};
ghost use Rattle.al_unit_graph.specs.Needed.{Needed, ListsUnits};
ghost use Rattle.al_unit_graph.specs.Orders.{key_cmp, kind_place};
ghost use Rattle.al_bind.specs.Elaboration.{is_pair, node_of};
ghost use Rattle.al_bind.specs.Numbers.{is_node, nodes_among, ArePlaces, IsAt, IsEnd};
ghost use Rattle.al_bind.specs.declared.places.End.{End};

use al_base::{Name, NoMemory, UnitKey, UnitKind};
use al_unit_graph::Sources;
use std::alloc::Global;
use std::cmp::Ordering;

// The needed units in the order of their keys, and the nodes among them: items that are nodes of their own, and declarations of pairs.
pub(crate) struct Places {
    pub(crate) keys: Vec<UnitKey>,
    pub(crate) nodes: Vec<UnitKey>,
}

impl Drop for Places {
    fn drop(self) {
        let Places { keys: _, nodes: _ } = self;
    }
}

// The place of an item among the needed units, and the place of its node among the nodes.
#[derive(Clone, Copy)]
pub(crate) struct End {
    pub(crate) item: usize,
    pub(crate) node: usize,
}

fn rank(kind: UnitKind) -> u8
    ensures { result ≡ kind_place kind }
{
    match kind {
        UnitKind::Decl => 0,
        UnitKind::Body => 1,
        UnitKind::Sub => 2,
    }
}

// Compares a key with a name and kind: by the bytes of the names, and for one name declaration, body, subunit.
fn compare(key: &UnitKey, name: &[u8], kind: UnitKind) -> Ordering
    ensures { result ≡ key_cmp (key_of key.now) (name.now, kind) }
{
    key.name
        .as_slice()
        .cmp(name)
        .then(rank(key.kind).cmp(&rank(kind)))
}

// The place of the unit with this name and kind among units in order, if it is there.
pub(crate) fn place_of(keys: &[UnitKey], name: &[u8], kind: UnitKind) -> Option<usize>
    requires { IsStrictlySortedBy key_cmp (map key_of keys.now) }
    ensures { MatchOption result (Contains (map key_of keys.now) (name.now, kind) → ⊥) (IsAt (map key_of keys.now) (name.now, kind)) }
{
    let mut low = 0;
    let mut high = keys.len();
    'places: while low < high {
        let middle = low + (high - low) / 2;
        match compare(&keys[middle], name, kind) {
            Ordering::Less => low = middle + 1,
            Ordering::Equal => return Some(middle),
            Ordering::Greater => high = middle,
        }
    }
    None
}

// A copy of a key.
pub(crate) fn copy_of(alloc: Global, key: &UnitKey) -> Result<UnitKey, NoMemory>
    ensures { IfOk result (λ copy. key_of copy ≡ key_of key.now) }
{
    Ok(UnitKey {
        name: Name::from_slice(alloc, key.name.as_slice())?,
        kind: key.kind,
    })
}

// Whether the declaration with this name has Elaborate_Body and its body exists.
pub(crate) fn is_pair(sources: &Sources, name: &[u8]) -> bool
    ensures { result ≡ is_pair sources.now name.now }
{
    match sources.unit_at(name, UnitKind::Decl) {
        None => false,
        Some(header) => {
            header.has_elaborate_body && sources.unit_at(name, UnitKind::Body).is_some()
        }
    }
}

// Whether the unit is an item that is a node of its own, or the declaration of a pair.
fn is_node(sources: &Sources, key: &UnitKey) -> bool
    ensures { result ≡ is_node sources.now (key_of key.now) }
{
    match key.kind {
        UnitKind::Decl => true,
        UnitKind::Body => !is_pair(sources, key.name.as_slice()),
        UnitKind::Sub => false,
    }
}

// The kind of the unit that names the node of an item. The name is the item's.
fn node_kind(sources: &Sources, key: &UnitKey) -> UnitKind
    ensures { (key.now.name, result) ≡ node_of sources.now (key_of key.now) }
{
    match key.kind {
        UnitKind::Body if is_pair(sources, key.name.as_slice()) => UnitKind::Decl,
        kind => kind,
    }
}

// The nodes among these units.
fn nodes_among(alloc: Global, sources: &Sources, keys: &[UnitKey]) -> Result<Vec<UnitKey>, NoMemory>
    ensures { IfOk result (λ nodes. map key_of nodes.items ≡ nodes_among sources.now (map key_of keys.now)) }
{
    let mut nodes = Vec::new(alloc);
    for key in keys {
        if is_node(sources, key) {
            nodes.push(copy_of(alloc, key)?)?;
        }
    }
    Ok(nodes)
}

impl Places {
    // The places of the units that a partition needs.
    pub(crate) fn of(alloc: Global, sources: &Sources, main: &[u8]) -> Result<Places, NoMemory>
        ensures lists { IfOk result (λ places. ListsUnits sources.now (map key_of places.keys.items) (Needed sources.now main.now)) }
        ensures places { IfOk result (λ places. ArePlaces sources.now places) }
    {
        let keys = sources.needed(main)?;
        let nodes = nodes_among(alloc, sources, &keys)?;
        Ok(Places { keys, nodes })
    }

    // The places of an item and of its node; none if it is not an item of the partition.
    pub(crate) fn end_of(&self, sources: &Sources, key: &UnitKey) -> Option<End>
        requires { ArePlaces sources.now self.now }
        ensures { MatchOption result ((end : End) → IsEnd sources.now (map key_of self.now.keys.items) (key_of key.now) end → ⊥) (IsEnd sources.now (map key_of self.now.keys.items) (key_of key.now)) }
    {
        if matches!(key.kind, UnitKind::Sub) {
            return None;
        }
        let name = key.name.as_slice();
        let item = place_of(&self.keys, name, key.kind)?;
        let node = place_of(&self.nodes, name, node_kind(sources, key))?;
        Some(End { item, node })
    }
}
