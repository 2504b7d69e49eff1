// Missing bodies and subunits.
ghost use Rattle.std.specs.Prelude.{◌≡◌, ℕ, List, map, None, IfOk, MatchOption};
ghost use Rattle.std.specs.Option.{option_map};
ghost use Rattle.std.specs.List.{flat_map};
ghost use Rattle.al_base.specs.Batch.{key_of};
ghost use Rattle.al_unit_graph.specs.Needed.{ListsUnits, Needed};
ghost use Rattle.al_bind.specs.Missing.{is_main, lacks_body, least_of, lesser, missing_bodies, missing_stub, missing_stubs, IsLeastName, LacksBody, LacksSubunit};

use al_base::{Name, NoMemory, UnitKey, UnitKind};
use al_unit_graph::Sources;
use std::alloc::Global;
use std::cmp::Ordering;

// Whether the unit with this name is a procedure without parameters.
pub(crate) fn is_main(sources: &Sources, main: &[u8]) -> bool
    ensures { result ≡ is_main sources.now main.now }
{
    match sources.declaration_of(main) {
        None => false,
        Some(kind) => match sources.unit_at(main, kind) {
            None => false,
            Some(header) => header.is_parameterless_procedure,
        },
    }
}

// Whether the unit is a declaration that needs a body, and the body is missing.
fn lacks_body(sources: &Sources, key: &UnitKey) -> bool
    ensures { result ≡ lacks_body sources.now (key_of key.now) }
{
    if !matches!(key.kind, UnitKind::Decl) {
        return false;
    }
    match sources.unit(key) {
        None => false,
        Some(header) => {
            header.needs_body
                && sources
                    .unit_at(key.name.as_slice(), UnitKind::Body)
                    .is_none()
        }
    }
}

// The lesser of two names.
fn lesser(found: Option<Name>, name: Name) -> Option<Name>
    ensures { result ≡ lesser found name }
{
    match found {
        None => Some(name),
        Some(found) => match found.cmp(&name) {
            Ordering::Greater => Some(name),
            Ordering::Less | Ordering::Equal => Some(found),
        },
    }
}

// The lesser of the name found so far and the name of this declaration, if its body is missing.
fn with_body(
    alloc: Global,
    sources: &Sources,
    key: &UnitKey,
    found: Option<Name>,
) -> Result<Option<Name>, NoMemory>
    ensures { IfOk result (λ least. least ≡ least_of found (missing_bodies sources.now (key_of key.now))) }
{
    if lacks_body(sources, key) {
        let name = Name::from_slice(alloc, key.name.as_slice())?;
        Ok(lesser(found, name))
    } else {
        Ok(found)
    }
}

// The least name of a declaration whose body is missing.
fn least_body(alloc: Global, sources: &Sources, keys: &[UnitKey]) -> Result<Option<Name>, NoMemory>
    ensures { IfOk result (λ least. least ≡ least_of None (flat_map (missing_bodies sources.now) (map key_of keys.now))) }
{
    let mut found = None;
    for key in keys {
        found = with_body(alloc, sources, key, found)?;
    }
    Ok(found)
}

// The lesser of the name found so far and the name of the stub's subunit, if that is missing.
fn with_stub(
    alloc: Global,
    sources: &Sources,
    name: &[u8],
    stub: &Name,
    found: Option<Name>,
) -> Result<Option<Name>, NoMemory>
    ensures { IfOk result (λ least. least ≡ least_of found (missing_stub sources.now name.now stub.now)) }
{
    let mut full = Vec::from_slice(alloc, name)?;
    full.push(b'.')?;
    full.extend_from_slice(stub.as_slice())?;
    if sources.unit_at(full.as_slice(), UnitKind::Sub).is_some() {
        Ok(found)
    } else {
        Ok(lesser(found, Name::new(full)))
    }
}

// The least of the name found so far and the names of a body's subunits that are missing.
fn with_stubs(
    alloc: Global,
    sources: &Sources,
    name: &[u8],
    stubs: &[Name],
    found: Option<Name>,
) -> Result<Option<Name>, NoMemory>
    ensures { IfOk result (λ least. least ≡ least_of found (flat_map (missing_stub sources.now name.now) stubs.now)) }
{
    let mut least = found;
    for stub in stubs {
        least = with_stub(alloc, sources, name, stub, least)?;
    }
    Ok(least)
}

// The least of the name found so far and the names of the unit's subunits that are missing.
fn with_subunits(
    alloc: Global,
    sources: &Sources,
    key: &UnitKey,
    found: Option<Name>,
) -> Result<Option<Name>, NoMemory>
    ensures { IfOk result (λ least. least ≡ least_of found (missing_stubs sources.now (key_of key.now))) }
{
    match sources.unit(key) {
        None => Ok(found),
        Some(header) => with_stubs(
            alloc,
            sources,
            key.name.as_slice(),
            header.stubs.as_slice(),
            found,
        ),
    }
}

// The least name of a subunit that is missing.
fn least_subunit(
    alloc: Global,
    sources: &Sources,
    keys: &[UnitKey],
) -> Result<Option<Name>, NoMemory>
    ensures { IfOk result (λ least. least ≡ least_of None (flat_map (missing_stubs sources.now) (map key_of keys.now))) }
{
    let mut found = None;
    for key in keys {
        found = with_subunits(alloc, sources, key, found)?;
    }
    Ok(found)
}

/// The least name of a needed declaration whose body is missing. `needed` lists the needed units.
pub(crate) fn missing_body(
    alloc: Global,
    sources: &Sources,
    main: &[u8],
    needed: &[UnitKey],
) -> Result<Option<Name>, NoMemory>
    requires { ListsUnits sources.now (map key_of needed.now) (Needed sources.now main.now) }
    ensures { IfOk result (λ found. MatchOption found ((name : List ℕ) → LacksBody sources.now main.now name → ⊥) (IsLeastName (LacksBody sources.now main.now))) }
{
    let _main = main;
    let least = least_body(alloc, sources, needed)?;
    Ok(least)
}

/// The least name of a missing subunit that a stub of a needed unit names. `needed` lists the needed units.
pub(crate) fn missing_subunit(
    alloc: Global,
    sources: &Sources,
    main: &[u8],
    needed: &[UnitKey],
) -> Result<Option<Name>, NoMemory>
    requires { ListsUnits sources.now (map key_of needed.now) (Needed sources.now main.now) }
    ensures { IfOk result (λ found. MatchOption found ((name : List ℕ) → LacksSubunit sources.now main.now name → ⊥) (IsLeastName (LacksSubunit sources.now main.now))) }
{
    let _main = main;
    let least = least_subunit(alloc, sources, needed)?;
    Ok(least)
}
