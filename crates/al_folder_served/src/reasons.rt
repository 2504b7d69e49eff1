// Which items must be elaborated before an item.
ghost use Rattle.std.specs.Prelude.{◌≡◌, ◌++◌, [], fold, map, IfOk, OnOk};
ghost use Rattle.std.specs.List.{flat_map, list_any};
ghost use Rattle.al_base.specs.Batch.{key_of};
ghost use Rattle.al_unit_graph.specs.Closures.{is_same_key, with_item};
ghost use Rattle.al_folder_served.specs.Reasons.{is_other, with_other, with_part, elaborated, elaborated_all, AreReasonsOf, AreRight};

use al_base::{Name, NoMemory, UnitKey, UnitKind};
use al_bind::parts_of;
use al_unit_graph::Sources;
use std::alloc::Global;

/// An item of an order of elaboration, and what must come before it.
pub struct Reasons {
    /// The item.
    pub item: UnitKey,
    /// The other items that it or a subunit of it depends on directly, each once.
    pub depends: Vec<UnitKey>,
    /// The names in its pragmas Elaborate and those of its subunits.
    pub elaborate: Vec<Name>,
    /// The names in its pragmas Elaborate_All and those of its subunits.
    pub elaborate_all: Vec<Name>,
}

impl Drop for Reasons {
    fn drop(self) {
        let Reasons {
            item: _,
            depends: _,
            elaborate: _,
            elaborate_all: _,
        } = self;
    }
}

// Whether two keys are the same.
fn is_same_key(one: &UnitKey, other: &UnitKey) -> bool
    ensures { result ≡ is_same_key (key_of one.now) (key_of other.now) }
{
    one.name.as_slice() == other.name.as_slice() && one.kind == other.kind
}

// Whether y is an item, and another one than x.
fn is_other(x: &UnitKey, y: &UnitKey) -> bool
    ensures { result ≡ is_other (key_of x.now) (key_of y.now) }
{
    !matches!(y.kind, UnitKind::Sub) && !is_same_key(y, x)
}

// Whether an item was found.
fn is_among(found: &[UnitKey], key: &UnitKey) -> bool
    ensures { result ≡ list_any (λ one. is_same_key (key_of one) (key_of key.now)) found.now }
{
    found.iter().any(|one| is_same_key(one, key))
}

fn copy_of(alloc: Global, key: &UnitKey) -> Result<UnitKey, NoMemory>
    ensures { IfOk result (λ copy. key_of copy ≡ key_of key.now) }
{
    let name = Name::from_slice(alloc, key.name.as_slice())?;
    Ok(UnitKey {
        name,
        kind: key.kind,
    })
}

// Adds an item, if it wasn't found yet.
fn add_new(alloc: Global, key: &UnitKey, found: &mut Vec<UnitKey>) -> Result<(), NoMemory>
    ensures { OnOk result (map key_of found.new.items ≡ with_item is_same_key (map key_of found.old.items) (key_of key.now)) }
{
    if is_among(found.as_slice(), key) {
        return Ok(());
    }
    let copy = copy_of(alloc, key)?;
    found.push(copy)?;
    Ok(())
}

// Adds y, if it is an item other than x that wasn't found yet.
fn add_other(
    alloc: Global,
    x: &UnitKey,
    y: &UnitKey,
    found: &mut Vec<UnitKey>,
) -> Result<(), NoMemory>
    ensures { OnOk result (map key_of found.new.items ≡ with_other (key_of x.now) (map key_of found.old.items) (key_of y.now)) }
{
    if is_other(x, y) {
        return add_new(alloc, y, found);
    }
    Ok(())
}

// Adds those that are items other than x and weren't found yet.
fn add_others(
    alloc: Global,
    x: &UnitKey,
    keys: &[UnitKey],
    found: &mut Vec<UnitKey>,
) -> Result<(), NoMemory>
    ensures { OnOk result (map key_of found.new.items ≡ fold (with_other (key_of x.now)) (map key_of found.old.items) (map key_of keys.now)) }
{
    for key in keys {
        add_other(alloc, x, key, found)?;
    }
    Ok(())
}

// Adds what a part of x depends on directly.
fn add_depends(
    alloc: Global,
    sources: &Sources,
    x: &UnitKey,
    part: &UnitKey,
    found: &mut Vec<UnitKey>,
) -> Result<(), NoMemory>
    ensures { OnOk result (map key_of found.new.items ≡ with_part sources.now (key_of x.now) (map key_of found.old.items) (key_of part.now)) }
{
    let keys = sources.direct(part)?;
    add_others(alloc, x, keys.as_slice(), found)
}

// Adds copies of the names.
fn add_names(alloc: Global, names: &[Name], found: &mut Vec<Name>) -> Result<(), NoMemory>
    ensures { OnOk result (found.new.items ≡ found.old.items ++ names.now) }
{
    for name in names {
        let copy = Name::from_slice(alloc, name.as_slice())?;
        found.push(copy)?;
    }
    Ok(())
}

// Adds the names in a unit's pragmas Elaborate.
fn add_elaborated(
    alloc: Global,
    sources: &Sources,
    part: &UnitKey,
    found: &mut Vec<Name>,
) -> Result<(), NoMemory>
    ensures { OnOk result (found.new.items ≡ found.old.items ++ elaborated sources.now (key_of part.now)) }
{
    match sources.unit(part) {
        Some(header) => add_names(alloc, header.elaborate.as_slice(), found),
        None => Ok(()),
    }
}

// Adds the names in a unit's pragmas Elaborate_All.
fn add_elaborated_all(
    alloc: Global,
    sources: &Sources,
    part: &UnitKey,
    found: &mut Vec<Name>,
) -> Result<(), NoMemory>
    ensures { OnOk result (found.new.items ≡ found.old.items ++ elaborated_all sources.now (key_of part.now)) }
{
    match sources.unit(part) {
        Some(header) => add_names(alloc, header.elaborate_all.as_slice(), found),
        None => Ok(()),
    }
}

// What the parts of x depend on directly.
fn depends_of(
    alloc: Global,
    sources: &Sources,
    x: &UnitKey,
    parts: &[UnitKey],
) -> Result<Vec<UnitKey>, NoMemory>
    ensures { IfOk result (λ keys. map key_of keys.items ≡ fold (with_part sources.now (key_of x.now)) [] (map key_of parts.now)) }
{
    let mut found = Vec::new(alloc);
    for part in parts {
        add_depends(alloc, sources, x, part, &mut found)?;
    }
    Ok(found)
}

// The names in the pragmas Elaborate of these units.
fn elaborated_by(alloc: Global, sources: &Sources, parts: &[UnitKey]) -> Result<Vec<Name>, NoMemory>
    ensures { IfOk result (λ names. names.items ≡ flat_map (elaborated sources.now) (map key_of parts.now)) }
{
    let mut found = Vec::new(alloc);
    for part in parts {
        add_elaborated(alloc, sources, part, &mut found)?;
    }
    Ok(found)
}

// The names in the pragmas Elaborate_All of these units.
fn elaborated_all_by(
    alloc: Global,
    sources: &Sources,
    parts: &[UnitKey],
) -> Result<Vec<Name>, NoMemory>
    ensures { IfOk result (λ names. names.items ≡ flat_map (elaborated_all sources.now) (map key_of parts.now)) }
{
    let mut found = Vec::new(alloc);
    for part in parts {
        add_elaborated_all(alloc, sources, part, &mut found)?;
    }
    Ok(found)
}

// What must come before an item.
fn reasons_of(alloc: Global, sources: &Sources, item: &UnitKey) -> Result<Reasons, NoMemory>
    ensures { IfOk result (λ reasons. (key_of reasons.item ≡ key_of item.now) × AreRight sources.now reasons) }
{
    let parts = parts_of(alloc, sources, item)?;
    let depends = depends_of(alloc, sources, item, parts.as_slice())?;
    let elaborate = elaborated_by(alloc, sources, parts.as_slice())?;
    let elaborate_all = elaborated_all_by(alloc, sources, parts.as_slice())?;
    let reasons = Reasons {
        item: copy_of(alloc, item)?,
        depends,
        elaborate,
        elaborate_all,
    };
    Ok(reasons)
}

/// What must come before each of these items, in their order.
///
/// # Errors
///
/// `NoMemory` if the allocator refuses memory.
pub fn reasons_of_items(
    alloc: Global,
    sources: &Sources,
    items: &[UnitKey],
) -> Result<Vec<Reasons>, NoMemory>
    ensures { IfOk result (λ reasons. AreReasonsOf sources.now (map key_of items.now) reasons.items) }
{
    let mut reasons = Vec::new(alloc);
    for item in items {
        let one = reasons_of(alloc, sources, item)?;
        reasons.push(one)?;
    }
    Ok(reasons)
}
