// The header of a compilation unit.
ghost use Rattle.std.specs.Prelude.{◌≡◌, map, IfOk};
ghost use Rattle.std.specs.Option.{option_map};
ghost use Rattle.al_tree.specs.UnitViews.{library_item_model, unit_model};
ghost use Rattle.al_unit_graph.specs.Views.{header_model, mention_model};
ghost use Rattle.al_unit_header.specs.Units.{header_of, mention_of, parent_body_name};

use crate::context::{mentions, named_in_pragmas};
use crate::item::{
    form_of, is_parameterless_procedure, is_private, item_has_elaborate_body, item_name,
    needs_body, parent_body_name,
};
use crate::names::{dotted, full_name, mention_of, place_of};
use crate::stubs::stubs;
use al_base::NoMemory;
use al_tree::{CompilationUnit, LibraryItem};
use al_unit_graph::{Header, Mention};
use std::alloc::Global;

/// What a compilation unit says of itself: its name, the name's place, what it is, whether it is private and needs a body, its
/// parent body, the names in its with clauses and the stubs in it (ARM 10.1.1 to 10.1.3), what its pragmas say of elaboration (ARM
/// 10.2.1), and whether it is a procedure without parameters.
///
/// # Errors
///
/// `NoMemory` if the allocator refuses memory.
#[tactic(auto, unfolding(al_tree::specs::UnitViews::unit_model, crate::specs::Units::header_of))]
pub fn header_of(alloc: Global, unit: &CompilationUnit) -> Result<Header, NoMemory>
    ensures { IfOk result (λ header. header_model header ≡ header_of (unit_model unit.now)) }
{
    let item = &unit.item;
    let name = item_name(item);
    Ok(Header {
        name: full_name(alloc, parent_body_name(item), name)?,
        place: place_of(name),
        form: form_of(item),
        is_private: is_private(item),
        needs_body: needs_body(item),
        parent_body: parent_body(alloc, item)?,
        designator: dotted(alloc, name)?,
        mentions: mentions(alloc, unit.context.as_slice())?,
        stubs: stubs(alloc, item)?,
        elaborate: named_in_pragmas(alloc, unit.context.as_slice(), b"elaborate")?,
        elaborate_all: named_in_pragmas(alloc, unit.context.as_slice(), b"elaborate_all")?,
        has_elaborate_body: item_has_elaborate_body(item),
        is_parameterless_procedure: is_parameterless_procedure(item),
    })
}

/// Whether a unit is a declaration that a body completes, as its header says. It takes no memory.
#[tactic(auto, unfolding(al_tree::specs::UnitViews::unit_model, crate::specs::Units::header_of))]
pub fn unit_needs_body(unit: &CompilationUnit) -> bool
    ensures { result ≡ (header_of (unit_model unit.now)).needs_body }
{
    needs_body(&unit.item)
}

/// The parent body of a subunit, with the place of its name (ARM 10.1.3(8)).
fn parent_body(alloc: Global, item: &LibraryItem) -> Result<Option<Mention>, NoMemory>
    ensures { IfOk result (λ parent. option_map mention_model parent ≡ option_map mention_of (parent_body_name (library_item_model item.now))) }
{
    match parent_body_name(item) {
        None => Ok(None),
        Some(name) => Ok(Some(mention_of(alloc, name)?)),
    }
}
