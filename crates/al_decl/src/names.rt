// The defining names in declarations, with their places (ARM 3.1(4)).
ghost use Rattle.std.specs.Prelude.{◌≡◌, IfOk};
ghost use Rattle.al_decl.specs.Defining.{defined, defining_names};
ghost use Rattle.al_tree.specs.DeclarationViews.{identifiers_model};
ghost use Rattle.al_tree.specs.Lexemes.{identifier_label};

use al_base::{Name, NoMemory};
use al_decl_judged::DefiningName;
use al_tree::{Identifier, Identifiers};
use al_view::Seq;
use std::alloc::Global;

/// An identifier as a defining name.
/// # Errors
/// `NoMemory` if the allocator refuses memory.
pub fn defining_name(alloc: Global, identifier: &Identifier) -> Result<DefiningName, NoMemory>
    ensures { IfOk result (λ name. name ≡ defined (identifier_label identifier.now)) }
{
    let name = Name::from_slice(alloc, identifier.name.as_slice())?;
    Ok(DefiningName {
        name,
        place: identifier.place,
    })
}

/// The defining names of a list of identifiers, in its order.
/// # Errors
/// `NoMemory` if the allocator refuses memory.
pub fn defining_names(
    alloc: Global,
    identifiers: &Identifiers,
) -> Result<Seq<DefiningName>, NoMemory>
    ensures { IfOk result (λ names. names ≡ defining_names (identifiers_model identifiers.now)) }
{
    let mut names = Seq::empty(alloc);
    names.push(defining_name(alloc, &identifiers.first)?)?;
    for identifier in &identifiers.others {
        names.push(defining_name(alloc, identifier)?)?;
    }
    Ok(names)
}
