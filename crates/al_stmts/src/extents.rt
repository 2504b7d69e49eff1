// Where loops, blocks and bodies begin and end.
ghost use Rattle.std.specs.Prelude.{◌≡◌, IfOk, option_map};
ghost use Rattle.al_stmts.specs.Walking.{first_line, named_extent, named_line, specified_name, subprogram_extent};
ghost use Rattle.al_tree.specs.DeclarationViews.{compound_model, specification_model};
ghost use Rattle.al_tree.specs.Lexemes.{identifier_label, place_label};
ghost use Rattle.al_tree.specs.StatementViews.{compound_end_model, named_end_model};

use crate::BodyExtent;
use crate::walked_ends::{end_of_compound, end_of_named};
use al_base::{NoMemory, Place};
use al_tree::{CompoundEnd, CompoundName, Identifier, NamedEnd, Specification};
use std::alloc::Global;

/// The line of the first token of a loop or a block, which is its name if it has one.
pub fn named_line(name: &Option<Identifier>, opening: Place) -> usize
    ensures { result ≡ named_line (option_map identifier_label name.now) (place_label opening) }
{
    match name {
        Some(identifier) => identifier.place.line as usize,
        None => opening.line as usize,
    }
}

/// The line of the first token of a specification.
pub fn first_line(specification: &Specification) -> usize
    ensures { result ≡ first_line (specification_model specification.now) }
{
    match specification {
        Specification::Procedure(place, _, _) => place.line as usize,
        Specification::Function(place, _, _, _, _) => place.line as usize,
    }
}

/// The name of a subprogram.
fn specified_name(specification: &Specification) -> &CompoundName
    ensures { compound_model result.now ≡ specified_name (specification_model specification.now) }
{
    match specification {
        Specification::Procedure(_, name, _) => name,
        Specification::Function(_, name, _, _, _) => name,
    }
}

/// From the first token of a subprogram's body to its `end`.
/// # Errors
/// `NoMemory` if the allocator refuses memory.
pub fn subprogram_extent(
    alloc: Global,
    specification: &Specification,
    end: &CompoundEnd,
) -> Result<BodyExtent, NoMemory>
    ensures { IfOk result (λ extent. extent ≡ subprogram_extent (specification_model specification.now) (compound_end_model end.now)) }
{
    let name = specified_name(specification);
    let name_fault = end_of_compound(alloc, name, &end.end_name)?;
    Ok(BodyExtent {
        line: first_line(specification),
        end: end.end,
        name_fault,
    })
}

/// From the first token of a body with a name that is one identifier to its `end`.
pub fn named_extent(opening: Place, name: &Identifier, end: &NamedEnd) -> BodyExtent
    ensures { result ≡ named_extent (place_label opening) (identifier_label name.now) (named_end_model end.now) }
{
    BodyExtent {
        line: opening.line as usize,
        end: end.end,
        name_fault: end_of_named(name, &end.end_name),
    }
}
