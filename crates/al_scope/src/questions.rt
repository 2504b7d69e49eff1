// What units declare under a name, as they are asked.
ghost use Rattle.std.specs.Prelude.{◌≡◌, [], ◌∷◌, ◌++◌, IfOk, false, flat_map, is_ok, true};
ghost use Rattle.al_query.specs.Reads.{FromAnswers};
ghost use Rattle.al_scope.specs.Asked.{AsksParts, query_of};
ghost use Rattle.al_scope.specs.Expanded.{part_of};
ghost use Rattle.al_scope.specs.Places.{child_name, is_visible_part, visible_part};
ghost use Rattle.al_scope.specs.Visible.{children_in, declared_by};

use crate::region::UnitPart;
use al_base::{Name, NoMemory, UnitKey, UnitKind};
use al_query::{Answers, Query, Recorder};
use al_view::{Interface, Part, Symbol, Views, copied_unit};
use std::alloc::Global;

/// The visible part of the package of that name.
/// # Errors
/// `NoMemory` if the allocator refuses memory.
pub fn visible_part_of(alloc: Global, package_name: &[u8]) -> Result<UnitPart, NoMemory>
    ensures { IfOk result (λ part. part ≡ visible_part package_name.now) }
{
    let name = Name::from_slice(alloc, package_name)?;
    let unit = UnitKey {
        name,
        kind: UnitKind::Decl,
    };
    Ok(UnitPart {
        unit,
        part: Part::Visible,
    })
}

/// The visible part of the unit with that symbol.
/// # Errors
/// `NoMemory` if the allocator refuses memory.
pub fn visible_part_at(alloc: Global, symbol: &Symbol) -> Result<UnitPart, NoMemory>
    ensures { IfOk result (λ part. part ≡ part_of symbol.now) }
{
    Ok(UnitPart {
        unit: copied_unit(alloc, &symbol.unit)?,
        part: Part::Visible,
    })
}

fn is_visible(part: &UnitPart) -> bool
    ensures { result ≡ is_visible_part part.now }
{
    part.part.is(&Part::Visible) && matches!(part.unit.kind, UnitKind::Decl)
}

/// The full name of a child of that name.
fn child_of(alloc: Global, parent: &[u8], name: &[u8]) -> Result<Vec<u8>, NoMemory>
    ensures { IfOk result (λ child. child.items ≡ child_name parent.now name.now) }
{
    if parent == b"standard".as_slice() {
        return Ok(Vec::from_slice(alloc, name)?);
    }
    let mut child = Vec::from_slice(alloc, parent)?;
    child.push(b'.')?;
    child.extend_from_slice(name)?;
    Ok(child)
}

/// The question which declarations a part of a unit has of a name.
fn query_of(alloc: Global, from: &UnitPart, name: &[u8]) -> Result<Query, NoMemory>
    ensures { IfOk result (λ query. query ≡ query_of name.now from.now) }
{
    Ok(Query::Named {
        unit: copied_unit(alloc, &from.unit)?,
        part: from.part.copy(alloc)?,
        name: Name::from_slice(alloc, name)?,
    })
}

/// Appends the mentioned children of that name, if the part is a unit's visible part. For another part it takes no memory.
fn append_children(
    alloc: Global,
    mentioned: &Interface,
    from: &UnitPart,
    name: &[u8],
    views: &mut Views,
) -> Result<(), NoMemory>
    ensures is { IfOk result (λ _. views.new ≡ views.old ++ children_in mentioned.now name.now from.now) }
    ensures takes_none { is_visible_part from.now ≡ false → is_ok result ≡ true }
{
    if is_visible(from) {
        let child = child_of(alloc, from.unit.name.as_slice(), name)?;
        views.append(mentioned.views(child.as_slice()))?;
    }
    Ok(())
}

/// Appends what a part of a unit declares under a name.
/// # Errors
/// `NoMemory` if the allocator refuses memory.
pub fn ask_more<A: Answers>(
    alloc: Global,
    mentioned: &Interface,
    from: &UnitPart,
    name: &[u8],
    views: &mut Views,
    recorder: &mut Recorder<A>,
) -> Result<(), NoMemory>
    ensures asked { recorder.new.asked ≡ recorder.old.asked }
    ensures answered { IfOk result (λ _. FromAnswers recorder.old.log recorder.new.log (λ t. views.new ≡ views.old ++ declared_by t mentioned.now name.now from.now)) }
    ensures asks { IfOk result (λ _. AsksParts (from.now ∷ []) name.now recorder.old.log recorder.new.log) }
{
    let query = query_of(alloc, from, name)?;
    let answer = recorder.ask(&query)?;
    views.append(answer.views())?;
    append_children(alloc, mentioned, from, name, views)?;
    Ok(())
}

/// What some parts of units declare under a name. Of no parts it takes no memory.
/// # Errors
/// `NoMemory` if the allocator refuses memory.
pub fn ask_each<A: Answers>(
    alloc: Global,
    mentioned: &Interface,
    parts: &[UnitPart],
    name: &[u8],
    recorder: &mut Recorder<A>,
) -> Result<Views, NoMemory>
    ensures asked { recorder.new.asked ≡ recorder.old.asked }
    ensures answered { IfOk result (λ views. FromAnswers recorder.old.log recorder.new.log (λ t. views ≡ flat_map (declared_by t mentioned.now name.now) parts.now)) }
    ensures asks { IfOk result (λ _. AsksParts parts.now name.now recorder.old.log recorder.new.log) }
    ensures takes_none { parts.now ≡ [] → is_ok result ≡ true }
    ensures none { parts.now ≡ [] → IfOk result (λ views. views ≡ []) }
{
    let mut views = Views::new(alloc);
    for part in parts {
        ask_more(alloc, mentioned, part, name, &mut views, recorder)?;
    }
    Ok(views)
}
