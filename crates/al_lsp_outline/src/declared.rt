// Declarations and their names.
ghost use Rattle.std.specs.Prelude.{◌≡◌, ◌++◌, ◌∷◌, [], map, OnOk};
ghost use Rattle.al_tree.specs.DeclarationViews.{compound_model, formal_model, formal_part_model, identifiers_model, specification_model};
ghost use Rattle.al_tree.specs.Lexemes.{identifier_label, place_label};
ghost use Rattle.al_lsp_outline.specs.Named.{all_named, compound, compound_name, deeper, last_formal, last_identifier, last_of, named};

use al_base::{NoMemory, Place};
use al_tree::{CompoundName, Formal, FormalPart, Identifier, Identifiers, Specification};

/// What a declaration declares.
#[derive(Clone, Copy, Debug, PartialEq, Eq)]
pub enum DeclaredKind {
    Package,
    Subprogram,
    Entry,
    Task,
    Protected,
    Type,
    Enumeration,
    Subtype,
    Literal,
    Component,
    Constant,
    Variable,
}

/// A declaration, or the body that completes one.
#[derive(Clone, Copy)]
pub struct Declared {
    pub kind: DeclaredKind,
    /// In how many other declarations it is.
    pub depth: u32,
    /// The first identifier of its name.
    pub first: Place,
    /// The identifier that it declares, which is the last of its name.
    pub name: Place,
    /// A place in it behind which the next semicolon ends it.
    pub last: Place,
}

/// The depth of what is declared inside.
pub(crate) fn deeper(depth: u32) -> u32
    ensures { result ≡ deeper depth }
{
    depth.saturating_add(1)
}

/// Adds what an identifier alone declares.
pub(crate) fn add_named(
    list: &mut Vec<Declared>,
    kind: DeclaredKind,
    depth: u32,
    name: &Identifier,
) -> Result<(), NoMemory>
    ensures { OnOk result (list.new.items ≡ list.old.items ++ named kind depth (identifier_label name.now) ∷ []) }
{
    let place = name.place;
    list.push(Declared {
        kind,
        depth,
        first: place,
        name: place,
        last: place,
    })?;
    Ok(())
}

/// Adds what identifiers declare, each alone.
pub(crate) fn add_all_named(
    list: &mut Vec<Declared>,
    kind: DeclaredKind,
    depth: u32,
    names: &Identifiers,
) -> Result<(), NoMemory>
    ensures { OnOk result (list.new.items ≡ list.old.items ++ all_named kind depth (identifiers_model names.now)) }
{
    add_named(list, kind, depth, &names.first)?;
    add_each_named(list, kind, depth, names.others.as_slice())
}

fn add_each_named(
    list: &mut Vec<Declared>,
    kind: DeclaredKind,
    depth: u32,
    names: &[Identifier],
) -> Result<(), NoMemory>
    ensures { OnOk result (list.new.items ≡ list.old.items ++ map (named kind depth) (map identifier_label names.now)) }
{
    for name in names {
        add_named(list, kind, depth, name)?;
    }
    Ok(())
}

/// Adds what a compound name declares, whose declaration has these last words.
pub(crate) fn add_compound(
    list: &mut Vec<Declared>,
    kind: DeclaredKind,
    depth: u32,
    name: &CompoundName,
    last: Place,
) -> Result<(), NoMemory>
    ensures { OnOk result (list.new.items ≡ list.old.items ++ compound kind depth (compound_model name.now) (place_label last) ∷ []) }
{
    list.push(Declared {
        kind,
        depth,
        first: name.first.place,
        name: last_identifier(name).place,
        last,
    })?;
    Ok(())
}

fn last_identifier(name: &CompoundName) -> &Identifier
    ensures { identifier_label result.now ≡ last_identifier (compound_model name.now) }
{
    match name.selectors.as_slice() {
        [.., last] => last,
        [] => &name.first,
    }
}

fn last_formal(part: &FormalPart) -> &Formal
    ensures { formal_model result.now ≡ last_formal (formal_part_model part.now) }
{
    match part.others.as_slice() {
        [.., last] => last,
        [] => &part.first,
    }
}

/// The name in a specification (ARM 6.1).
pub(crate) fn name_of(specification: &Specification) -> &CompoundName
    ensures { compound_model result.now ≡ compound_name (specification_model specification.now) }
{
    match specification {
        Specification::Procedure(_, name, _) => name,
        Specification::Function(_, name, _, _, _) => name,
    }
}

/// A place in a specification behind which no semicolon is.
pub(crate) fn last_of(specification: &Specification) -> Place
    ensures { place_label result ≡ last_of (specification_model specification.now) }
{
    match specification {
        Specification::Procedure(place, _, None) => *place,
        Specification::Procedure(_, _, Some(part)) => last_formal(part).mark.first.place,
        Specification::Function(_, _, _, place, _) => *place,
    }
}
