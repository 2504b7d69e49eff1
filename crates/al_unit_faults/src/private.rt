// Mentions of private children that aren't allowed (ARM 10.1.1(12), 10.1.2(8)).
ghost use Rattle.std.specs.Prelude.{◌≡◌, ◌++◌, ◌&&◌, length, map, IfOk, OnOk};
ghost use Rattle.std.specs.Option.{option_map};
ghost use Rattle.std.specs.List.{flat_map, list_any};
ghost use Rattle.al_base.specs.Batch.{finding_of};
ghost use Rattle.al_unit_graph.specs.Views.{header_model, mention_model};
ghost use Rattle.al_unit_faults.specs.Parts.{part_of};
ghost use Rattle.al_unit_faults.specs.Private.{is_private, is_one_of, descends, descends_below, is_private_descendant, is_behind_declaration, may_mention_as, may_mention_children, is_hidden, private_faults};

use crate::parts::part_of;
use al_base::{Diagnostic, Name, NoMemory, UnitKind};
use al_unit_graph::{
    Header, Mention, Sources, ancestors, is_subprogram_body, kind_of, lineage, parent_of,
};
use std::alloc::Global;

/// Whether the declaration of this name is sound and private (ARM 10.1.1(12)).
fn is_private(sources: &Sources, name: &[u8]) -> bool
    ensures { result ≡ is_private sources.now name.now }
{
    match sources.unit_at(name, UnitKind::Decl) {
        Some(header) => header.is_private,
        None => false,
    }
}

/// Whether the name is one of these.
fn is_one_of(names: &[&[u8]], name: &[u8]) -> bool
    ensures { result ≡ is_one_of (map (λ n. n.now) names.now) name.now }
{
    for n in names {
        if *n == name {
            return true;
        }
    }
    false
}

/// Whether a unit descends from this one, or is it; each descends from Standard (ARM 10.1.1(10, 11)).
fn descends(alloc: Global, name: &[u8], ancestor: Option<&[u8]>) -> Result<bool, NoMemory>
    ensures { IfOk result (λ is. is ≡ descends name.now (option_map (λ n. n.now) ancestor.entry)) }
{
    let Some(ancestor) = ancestor else {
        return Ok(true);
    };
    let names = lineage(alloc, name)?;
    Ok(is_one_of(names.as_slice(), ancestor))
}

/// Whether a unit descends from this one, and isn't it.
fn descends_below(alloc: Global, name: &[u8], ancestor: Option<&[u8]>) -> Result<bool, NoMemory>
    ensures { IfOk result (λ is. is ≡ descends_below name.now (option_map (λ n. n.now) ancestor.entry)) }
{
    let Some(ancestor) = ancestor else {
        return Ok(true);
    };
    let names = ancestors(alloc, name)?;
    Ok(is_one_of(names.as_slice(), ancestor))
}

/// Whether one of these is private and comes below the ancestor.
fn has_private_below(
    alloc: Global,
    sources: &Sources,
    names: &[&[u8]],
    ancestor: Option<&[u8]>,
) -> Result<bool, NoMemory>
    ensures { IfOk result (λ is. is ≡ list_any (λ n. is_private sources.now n && descends_below n (option_map (λ a. a.now) ancestor.entry)) (map (λ n. n.now) names.now)) }
{
    for name in names {
        if is_private(sources, name) && descends_below(alloc, name, ancestor)? {
            return Ok(true);
        }
    }
    Ok(false)
}

/// Whether a unit is a body or a subunit, and not a body that acts as a declaration (ARM 10.1.4(4)).
fn is_behind_declaration(sources: &Sources, header: &Header) -> bool
    ensures { result ≡ is_behind_declaration sources.now (header_model header.now) }
{
    let has_file = sources.has_declaration_file(header.name.as_slice());
    let acts = is_subprogram_body(header.form) && !has_file;
    kind_of(header.form) != UnitKind::Decl && !acts
}

/// Whether the private children of a parent may be mentioned in a unit that is part of this library unit.
fn may_mention_as(
    alloc: Global,
    sources: &Sources,
    header: &Header,
    parent: Option<&[u8]>,
    name: &[u8],
) -> Result<bool, NoMemory>
    ensures { IfOk result (λ is. is ≡ may_mention_as sources.now (header_model header.now) (option_map (λ n. n.now) parent.entry) name.now) }
{
    let names = lineage(alloc, name)?;
    if has_private_below(alloc, sources, names.as_slice(), parent)? {
        return Ok(true);
    }
    Ok(is_behind_declaration(sources, header) && descends(alloc, name, parent)?)
}

/// Whether a private child may not be mentioned in a unit that is part of this library unit.
fn is_hidden(
    alloc: Global,
    sources: &Sources,
    header: &Header,
    part: Option<&[u8]>,
    child: &[u8],
) -> Result<bool, NoMemory>
    requires { option_map (λ n. n.now) part ≡ part_of sources.now (header_model header.now) }
    ensures { IfOk result (λ is. is ≡ is_hidden sources.now (header_model header.now) child.now) }
{
    if !is_private(sources, child) {
        return Ok(false);
    }
    match part {
        Some(name) => Ok(!may_mention_as(alloc, sources, header, parent_of(child), name)?),
        None => Ok(true),
    }
}

/// Whether one of these units is a private child that may not be mentioned there.
fn has_hidden(
    alloc: Global,
    sources: &Sources,
    header: &Header,
    part: Option<&[u8]>,
    names: &[&[u8]],
) -> Result<bool, NoMemory>
    requires { option_map (λ n. n.now) part ≡ part_of sources.now (header_model header.now) }
    ensures { IfOk result (λ is. is ≡ list_any (is_hidden sources.now (header_model header.now)) (map (λ n. n.now) names.now)) }
{
    for name in names {
        if is_hidden(alloc, sources, header, part, name)? {
            return Ok(true);
        }
    }
    Ok(false)
}

/// Adds a mention that reaches a private child which may not be mentioned there.
fn add_private_fault(
    alloc: Global,
    sources: &Sources,
    file: &[u8],
    header: &Header,
    part: Option<&[u8]>,
    mention: &Mention,
    found: &mut Vec<Diagnostic>,
) -> Result<(), NoMemory>
    requires { option_map (λ n. n.now) part ≡ part_of sources.now (header_model header.now) }
    ensures { OnOk result (map finding_of found.new.items ≡ map finding_of found.old.items ++ private_faults sources.now file.now (header_model header.now) (mention_model mention.now)) }
{
    let names = lineage(alloc, mention.name.as_slice())?;
    if has_hidden(alloc, sources, header, part, names.as_slice())? {
        let file = Name::from_slice(alloc, file)?;
        found.push(Diagnostic {
            file,
            place: mention.place,
            code: 204,
        })?;
    }
    Ok(())
}

/// Adds the mentions of private children that may not be mentioned there.
pub(crate) fn add_private_faults(
    alloc: Global,
    sources: &Sources,
    count: usize,
    file: &[u8],
    header: &Header,
    found: &mut Vec<Diagnostic>,
) -> Result<(), NoMemory>
    requires { count ≡ length sources.now }
    ensures { OnOk result (map finding_of found.new.items ≡ map finding_of found.old.items ++ flat_map (private_faults sources.now file.now (header_model header.now)) (map mention_model header.now.mentions.items)) }
{
    let part = part_of(sources, count, header);
    for mention in header.mentions.as_slice() {
        add_private_fault(alloc, sources, file, header, part, mention, found)?;
    }
    Ok(())
}
