// The items in the order of their elaboration, each with its subunits after it.
ghost use Rattle.std.specs.Prelude.{◌≡◌, ◌++◌, ◌∷◌, List, map, IfOk, OnOk};
ghost use Rattle.al_base.specs.Batch.{Key, key_of};
ghost use Rattle.al_engine.specs.Placed.{ArePlaced, AreSubunits, subunits_among, with_subunit};

use al_base::{Name, NoMemory, UnitKey, UnitKind};
use al_bind::parts_of;
use al_unit_graph::{KeySet, Sources};
use std::alloc::Global;

/// A copy of a key.
fn copy_of(alloc: Global, key: &UnitKey) -> Result<UnitKey, NoMemory>
    ensures { IfOk result (λ copy. key_of copy ≡ key_of key.now) }
{
    Ok(UnitKey {
        name: Name::from_slice(alloc, key.name.as_slice())?,
        kind: key.kind,
    })
}

/// Adds a key if it is a subunit's.
fn add_subunit(alloc: Global, key: &UnitKey, found: &mut KeySet) -> Result<(), NoMemory>
    ensures { OnOk result (found.new ≡ with_subunit found.old (key_of key.now)) }
{
    match key.kind {
        UnitKind::Sub => found.insert(copy_of(alloc, key)?),
        UnitKind::Decl | UnitKind::Body => Ok(()),
    }
}

/// The subunits among some keys, each once, by name.
fn subunits_among(alloc: Global, keys: &[UnitKey]) -> Result<Vec<UnitKey>, NoMemory>
    ensures { IfOk result (λ found. map key_of found.items ≡ subunits_among (map key_of keys.now)) }
{
    let mut found = KeySet::new(alloc);
    for key in keys {
        add_subunit(alloc, key, &mut found)?;
    }
    let list = found.into_keys()?;
    Ok(list)
}

/// The subunits that are parts of an item, by name.
fn subunits_of(alloc: Global, sources: &Sources, item: &UnitKey) -> Result<Vec<UnitKey>, NoMemory>
    ensures { IfOk result (λ found. AreSubunits sources.now (key_of item.now) (map key_of found.items)) }
{
    let parts = parts_of(alloc, sources, item)?;
    let found = subunits_among(alloc, parts.as_slice())?;
    Ok(found)
}

/// Adds these keys.
fn add_keys(alloc: Global, more: &[UnitKey], keys: &mut Vec<UnitKey>) -> Result<(), NoMemory>
    ensures { OnOk result (map key_of keys.new.items ≡ map key_of keys.old.items ++ map key_of more.now) }
{
    for key in more {
        keys.push(copy_of(alloc, key)?)?;
    }
    Ok(())
}

/// Adds an item, and its subunits after it.
fn add_item(
    alloc: Global,
    sources: &Sources,
    item: &UnitKey,
    placed: &mut Vec<UnitKey>,
) -> Result<(), NoMemory>
    ensures { OnOk result ((subunits : List Key) × AreSubunits sources.now (key_of item.now) subunits × (map key_of placed.new.items ≡ map key_of placed.old.items ++ (key_of item.now ∷ subunits))) }
{
    let subunits = subunits_of(alloc, sources, item)?;
    placed.push(copy_of(alloc, item)?)?;
    add_keys(alloc, subunits.as_slice(), placed)
}

/// The units of a partition in the order that they have in its image: the items in the order of their elaboration, each with its subunits after it,
/// by name.
///
/// # Errors
///
/// `NoMemory` if the allocator refuses memory.
pub fn placed(alloc: Global, sources: &Sources, items: &[UnitKey]) -> Result<Vec<UnitKey>, NoMemory>
    ensures { IfOk result (λ placed. ArePlaced sources.now (map key_of items.now) (map key_of placed.items)) }
{
    let mut placed = Vec::new(alloc);
    for item in items {
        add_item(alloc, sources, item, &mut placed)?;
    }
    Ok(placed)
}
