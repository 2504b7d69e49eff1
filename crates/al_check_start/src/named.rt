// The units that the source of a unit names.
ghost use Rattle.std.specs.Prelude.{◌≡◌, ◌∷◌, [], ◌++◌, map, IfOk, OnOk};
ghost use Rattle.std.specs.List.{flat_map};
ghost use Rattle.std.specs.Option.{option_map, option_map_or};
ghost use Rattle.al_query.specs.Answers.{declaration};
ghost use Rattle.al_query.specs.Known.{body, predefined_units};
ghost use Rattle.al_query_outcome.specs.ReadsLaw.{named_by, own_names, subunit};
ghost use Rattle.al_unit_graph.specs.Headers.{is_library_body};
ghost use Rattle.al_unit_graph.specs.Names as names;
ghost use Rattle.al_unit_graph.specs.Views.{header_model, mention_model};
ghost use Rattle.al_check_start.specs.Starts.{declarations, own_declaration, own_mentions};

use crate::mentions::{add_declaration, add_declarations};
use al_base::{Name, NoMemory, UnitKey, UnitKind};
use al_unit_graph::{Header, Mention, UnitForm, parent_of};
use std::alloc::Global;

/// Adds the predefined units.
fn add_predefined(alloc: Global, units: &mut Vec<UnitKey>) -> Result<(), NoMemory>
    ensures { OnOk result (units.new.items ≡ units.old.items ++ predefined_units) }
{
    add_declaration(alloc, b"standard", units)?;
    add_declaration(alloc, b"ada", units)?;
    add_declaration(alloc, b"ada.text_io", units)?;
    add_declaration(alloc, b"ada.real_time", units)?;
    Ok(())
}

/// Whether it is the body of a library unit.
fn is_library_body(form: UnitForm) -> bool
    ensures { result ≡ is_library_body form }
{
    match form {
        UnitForm::PackageDeclaration => false,
        UnitForm::SubprogramDeclaration => false,
        UnitForm::PackageBody => true,
        UnitForm::SubprogramBody => true,
        UnitForm::SubunitBody => false,
    }
}

/// Adds the declaration of a library unit's body.
pub(crate) fn add_own_declaration(
    alloc: Global,
    header: &Header,
    units: &mut Vec<UnitKey>,
) -> Result<(), NoMemory>
    ensures { OnOk result (units.new.items ≡ units.old.items ++ own_declaration (header_model header.now)) }
{
    if is_library_body(header.form) {
        add_declaration(alloc, header.name.as_slice(), units)?;
    }
    Ok(())
}

/// Adds the declaration of the parent of a library unit.
fn add_parent(alloc: Global, name: &[u8], units: &mut Vec<UnitKey>) -> Result<(), NoMemory>
    ensures { OnOk result (units.new.items ≡ units.old.items ++ option_map_or (λ p. declaration p ∷ []) (names.parent_of name.now) []) }
{
    match parent_of(name) {
        Some(parent) => add_declaration(alloc, parent, units),
        None => Ok(()),
    }
}

/// Adds both units that may be the parent body of a subunit: the body and the subunit with that name.
fn add_parent_bodies(
    alloc: Global,
    parent: &Mention,
    units: &mut Vec<UnitKey>,
) -> Result<(), NoMemory>
    ensures { OnOk result (units.new.items ≡ units.old.items ++ (body (mention_model parent.now).name ∷ subunit (mention_model parent.now).name ∷ [])) }
{
    let name = Name::from_slice(alloc, parent.name.as_slice())?;
    let kind = UnitKind::Body;
    units.push(UnitKey { name, kind })?;
    let name = Name::from_slice(alloc, parent.name.as_slice())?;
    let kind = UnitKind::Sub;
    units.push(UnitKey { name, kind })?;
    Ok(())
}

/// Adds the declarations of a library unit's body and of its parent, or the parent bodies of a subunit.
fn add_own_names(alloc: Global, header: &Header, units: &mut Vec<UnitKey>) -> Result<(), NoMemory>
    ensures { OnOk result (units.new.items ≡ units.old.items ++ own_names (header_model header.now) (header_model header.now).parent_body) }
{
    match &header.parent_body {
        Some(parent) => add_parent_bodies(alloc, parent, units),
        None => {
            add_own_declaration(alloc, header, units)?;
            add_parent(alloc, header.name.as_slice(), units)
        }
    }
}

/// Adds the units that these with clauses name, each after its ancestors.
fn add_mentioned(
    alloc: Global,
    mentions: &[Mention],
    units: &mut Vec<UnitKey>,
) -> Result<(), NoMemory>
    ensures { OnOk result (units.new.items ≡ units.old.items ++ flat_map (λ m. declarations m.name) (map mention_model mentions.now)) }
{
    for mention in mentions {
        add_declarations(alloc, mention.name.as_slice(), units)?;
    }
    Ok(())
}

/// The units that the unit's own with clauses mention.
pub(crate) fn own_mentions(alloc: Global, header: &Header) -> Result<Vec<UnitKey>, NoMemory>
    ensures { IfOk result (λ units. units.items ≡ own_mentions (header_model header.now)) }
{
    let mut units = Vec::new(alloc);
    add_mentioned(alloc, header.mentions.as_slice(), &mut units)?;
    Ok(units)
}

/// The units that the source of a unit names.
#[tactic(auto, unfolding(al_query_outcome::specs::ReadsLaw::named_by))]
pub(crate) fn named_units(alloc: Global, header: &Header) -> Result<Vec<UnitKey>, NoMemory>
    ensures { IfOk result (λ units. units.items ≡ named_by (header_model header.now)) }
{
    let mut units = Vec::new(alloc);
    add_predefined(alloc, &mut units)?;
    add_own_names(alloc, header, &mut units)?;
    add_mentioned(alloc, header.mentions.as_slice(), &mut units)?;
    Ok(units)
}
