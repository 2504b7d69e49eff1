// The parts of an item: itself, and its subunits.
ghost use Rattle.std.specs.Prelude.{◌≡◌, ◌↔◌, ◌++◌, ◌∷◌, map, IfOk, OnOk};
ghost use Rattle.std.specs.List.{Contains, flat_map};
ghost use Rattle.al_base.specs.Batch.{key_of, Key};
ghost use Rattle.al_base.specs.declared.unit_key.UnitKind.TheVariants.{Sub};
ghost use Rattle.al_unit_graph.specs.Needed.{present};
ghost use Rattle.al_bind.specs.Elaboration.{IsPartOf};
ghost use Rattle.al_bind.specs.Parts.{subunits_at};

use crate::places::copy_of;
use al_base::{Name, NoMemory, UnitKey, UnitKind};
use al_unit_graph::Sources;
use std::alloc::Global;

// Adds the subunit of a stub, if the library has it.
fn add_subunit(
    alloc: Global,
    sources: &Sources,
    name: &[u8],
    stub: &Name,
    keys: &mut Vec<UnitKey>,
) -> Result<(), NoMemory>
    ensures { OnOk result (map key_of keys.new.items ≡ map key_of keys.old.items ++ present sources.now (name.now ++ 46 ∷ stub.now, Sub)) }
{
    let mut full = Vec::from_slice(alloc, name)?;
    full.push(b'.')?;
    full.extend_from_slice(stub.as_slice())?;
    if sources.unit_at(full.as_slice(), UnitKind::Sub).is_some() {
        keys.push(UnitKey {
            name: Name::new(full),
            kind: UnitKind::Sub,
        })?;
    }
    Ok(())
}

// Adds the subunits of these stubs.
fn add_subunits(
    alloc: Global,
    sources: &Sources,
    name: &[u8],
    stubs: &[Name],
    keys: &mut Vec<UnitKey>,
) -> Result<(), NoMemory>
    ensures { OnOk result (map key_of keys.new.items ≡ map key_of keys.old.items ++ flat_map (λ stub. present sources.now (name.now ++ 46 ∷ stub, Sub)) stubs.now) }
{
    for stub in stubs {
        add_subunit(alloc, sources, name, stub, keys)?;
    }
    Ok(())
}

// The subunits of a unit's stubs.
fn subunits_at(alloc: Global, sources: &Sources, key: &UnitKey) -> Result<Vec<UnitKey>, NoMemory>
    ensures { IfOk result (λ keys. map key_of keys.items ≡ subunits_at sources.now (key_of key.now)) }
{
    let mut keys = Vec::new(alloc);
    if let Some(header) = sources.unit(key) {
        add_subunits(
            alloc,
            sources,
            key.name.as_slice(),
            header.stubs.as_slice(),
            &mut keys,
        )?;
    }
    Ok(keys)
}

// Adds these keys.
fn add_keys(alloc: Global, keys: &mut Vec<UnitKey>, more: &[UnitKey]) -> Result<(), NoMemory>
    ensures { OnOk result (map key_of keys.new.items ≡ map key_of keys.old.items ++ map key_of more.now) }
{
    for key in more {
        keys.push(copy_of(alloc, key)?)?;
    }
    Ok(())
}

/// The parts of an item: itself, its subunits and their subunits (ARM 10.1.3). The subunits of each unit are added once.
///
/// # Errors
/// `NoMemory` if the allocator refuses memory.
pub fn parts_of(alloc: Global, sources: &Sources, key: &UnitKey) -> Result<Vec<UnitKey>, NoMemory>
    ensures { IfOk result (λ parts. (p : Key) → Contains (map key_of parts.items) p ↔ IsPartOf sources.now (key_of key.now) p) }
{
    let mut parts = Vec::new(alloc);
    parts.push(copy_of(alloc, key)?)?;
    for i in 0..usize::MAX {
        if i >= parts.len() {
            return Ok(parts);
        }
        let more = subunits_at(alloc, sources, &parts[i])?;
        add_keys(alloc, &mut parts, &more)?;
    }
    Ok(parts)
}
