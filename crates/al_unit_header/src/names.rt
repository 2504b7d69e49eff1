// Names in the trees of units.
ghost use Rattle.std.specs.Prelude.{◌≡◌, ◌++◌, ◌∷◌, map, IfOk, OnOk};
ghost use Rattle.std.specs.Option.{option_map};
ghost use Rattle.std.specs.List.{flat_map};
ghost use Rattle.al_tree_syntax.specs.DeclarationTrees.{CompoundNameTree};
ghost use Rattle.al_tree.specs.Lexemes.{identifier_label};
ghost use Rattle.al_tree.specs.DeclarationViews.{compound_model, specification_model};
ghost use Rattle.al_unit_graph.specs.Views.{mention_model};
ghost use Rattle.al_unit_header.specs.Units.{dotted, designator, full_name, place_of, mention_of};

use al_base::{Name, NoMemory, Place};
use al_tree::{CompoundName, Identifier, Specification};
use al_unit_graph::Mention;
use std::alloc::Global;

/// Adds the selectors, each after a dot.
fn add_selectors(selectors: &[Identifier], bytes: &mut Vec<u8>) -> Result<(), NoMemory>
    ensures { OnOk result (bytes.new.items ≡ bytes.old.items ++ flat_map (λ l. 46 ∷ l.text) (map identifier_label selectors.now)) }
{
    for selector in selectors {
        bytes.push(b'.')?;
        bytes.extend_from_slice(selector.name.as_slice())?;
    }
    Ok(())
}

/// The identifiers of a compound name, with dots between them.
pub(crate) fn dotted(alloc: Global, name: &CompoundName) -> Result<Name, NoMemory>
    ensures { IfOk result (λ bytes. bytes ≡ dotted (compound_model name.now)) }
{
    let mut bytes = Vec::from_slice(alloc, name.first.name.as_slice())?;
    add_selectors(name.selectors.as_slice(), &mut bytes)?;
    Ok(Name::new(bytes))
}

/// The name in a specification (ARM 6.1).
pub(crate) fn designator(specification: &Specification) -> &CompoundName
    ensures { compound_model result.now ≡ designator (specification_model specification.now) }
{
    match specification {
        Specification::Procedure(_, name, _) => name,
        Specification::Function(_, name, _, _, _) => name,
    }
}

/// The full name of a unit: for a subunit with that of its parent body before it (ARM 10.1.3(8)).
pub(crate) fn full_name(
    alloc: Global,
    parent: Option<&CompoundName>,
    name: &CompoundName,
) -> Result<Name, NoMemory>
    ensures { IfOk result (λ n. n ≡ full_name (option_map (λ p. compound_model p.now) parent.entry) (compound_model name.now)) }
{
    match parent {
        None => dotted(alloc, name),
        Some(parent) => {
            let mut bytes = dotted(alloc, parent)?.into_vec(alloc)?;
            bytes.push(b'.')?;
            bytes.extend_from_slice(dotted(alloc, name)?.as_slice())?;
            Ok(Name::new(bytes))
        }
    }
}

/// The place of a name.
pub(crate) fn place_of(name: &CompoundName) -> Place
    ensures { result ≡ place_of (compound_model name.now) }
{
    name.first.place
}

/// A name and its place.
pub(crate) fn mention_of(alloc: Global, name: &CompoundName) -> Result<Mention, NoMemory>
    ensures { IfOk result (λ mention. mention_model mention ≡ mention_of (compound_model name.now)) }
{
    Ok(Mention {
        name: dotted(alloc, name)?,
        place: place_of(name),
    })
}
