// The declaration that a unit completes, and the unit that encloses it.
ghost use Rattle.std.specs.Prelude.{◌≡◌, IfOk};
ghost use Rattle.std.specs.Option.{option_map};
ghost use Rattle.al_scope_context.specs.ContextPragmas.{full_name};
ghost use Rattle.al_query.specs.Answers.{declaration};
ghost use Rattle.al_query.specs.Reads.{FromAnswers};
ghost use Rattle.al_tree.specs.DeclarationViews.{compound_model};
ghost use Rattle.al_tree.specs.UnitViews.{library_item_model};
ghost use Rattle.al_unit_graph.specs.Names as names;
ghost use Rattle.al_check_start.specs.UnitsAt.{above, completed_at, declared_view, of_library, of_subunit};

use crate::item::item_name;
use crate::stub::{body_named, stub_view, stubs_round};
use al_base::{Name, NoMemory, UnitKey, UnitKind};
use al_query::{Answers, Recorder};
use al_scope::UnitPart;
use al_scope_context::{full_name, view_of};
use al_tree::{CompoundName, LibraryItem};
use al_unit_graph::parent_of;
use al_view::{Seq, View};
use std::alloc::Global;

/// The declaration that a unit completes, and the unit that encloses it.
#[derive(Drop)]
pub struct Completed {
    /// The own view of the declaration of a library body, or the subprogram whose body the stub of a subunit replaces.
    pub view: Option<View>,
    /// The declaration of a library unit's parent, or the parent body of a subunit.
    pub parent: Option<UnitKey>,
    /// For a subunit, the stubs that enclose it, outermost first.
    pub stubs: Seq<UnitPart>,
}

/// The declaration of the parent of the library unit with this name.
fn parent_of_name(alloc: Global, name: &[u8]) -> Result<Option<UnitKey>, NoMemory>
    ensures { IfOk result (λ parent. parent ≡ option_map declaration (names.parent_of name.now)) }
{
    match parent_of(name) {
        Some(parent) => {
            let name = Name::from_slice(alloc, parent)?;
            let kind = UnitKind::Decl;
            Ok(Some(UnitKey { name, kind }))
        }
        None => Ok(None),
    }
}

/// The declaration of a library unit's parent, by the name in the unit itself.
fn above(alloc: Global, item: &LibraryItem) -> Result<Option<UnitKey>, NoMemory>
    ensures { IfOk result (λ parent. parent ≡ above (library_item_model item.now)) }
{
    let name = full_name(alloc, item_name(item))?;
    let parent = parent_of_name(alloc, name.as_slice())?;
    Ok(parent)
}

/// The declaration that a library unit completes (`view`), and its parent.
fn of_library(alloc: Global, item: &LibraryItem, view: Option<View>) -> Result<Completed, NoMemory>
    ensures { IfOk result (λ completed. completed ≡ of_library (library_item_model item.now) view) }
{
    let parent = above(alloc, item)?;
    let stubs = Seq::empty(alloc);
    Ok(Completed {
        view,
        parent,
        stubs,
    })
}

/// The declaration that a library body completes, and its parent.
fn of_body<A: Answers>(
    alloc: Global,
    unit: &UnitKey,
    item: &LibraryItem,
    recorder: &mut Recorder<A>,
) -> Result<Completed, NoMemory>
    ensures asked { recorder.new.asked ≡ recorder.old.asked }
    ensures answered { IfOk result (λ completed. FromAnswers recorder.old.log recorder.new.log (λ t. completed ≡ of_library (library_item_model item.now) (declared_view t unit.now))) }
{
    let view = view_of(alloc, unit.name.as_slice(), UnitKind::Decl, recorder)?;
    let completed = of_library(alloc, item, view)?;
    Ok(completed)
}

/// The declaration that a subunit with this parent body completes.
fn of_subunit<A: Answers>(
    alloc: Global,
    unit: &UnitKey,
    parent: &CompoundName,
    recorder: &mut Recorder<A>,
) -> Result<Completed, NoMemory>
    ensures asked { recorder.new.asked ≡ recorder.old.asked }
    ensures answered { IfOk result (λ completed. FromAnswers recorder.old.log recorder.new.log (λ t. completed ≡ of_subunit t unit.now (full_name (compound_model parent.now)))) }
{
    let name = unit.name.as_slice();
    let full = full_name(alloc, parent)?;
    let view = stub_view(alloc, name, full.as_slice(), recorder)?;
    let parent = body_named(alloc, full.as_slice(), recorder)?;
    let stubs = stubs_round(alloc, name, full.as_slice(), recorder)?;
    let parent = Some(parent);
    Ok(Completed {
        view,
        parent,
        stubs,
    })
}

/// The declaration that a unit completes, and the unit that encloses it.
pub(crate) fn completed_at<A: Answers>(
    alloc: Global,
    unit: &UnitKey,
    item: &LibraryItem,
    recorder: &mut Recorder<A>,
) -> Result<Completed, NoMemory>
    ensures asked { recorder.new.asked ≡ recorder.old.asked }
    ensures answered { IfOk result (λ completed. FromAnswers recorder.old.log recorder.new.log (λ t. completed ≡ completed_at t unit.now (library_item_model item.now))) }
{
    match item {
        LibraryItem::Subprogram(_, _) => of_library(alloc, item, None),
        LibraryItem::Package(_, _, _) => of_library(alloc, item, None),
        LibraryItem::Body(_, _) => of_body(alloc, unit, item, recorder),
        LibraryItem::PackageBody(_, _) => of_body(alloc, unit, item, recorder),
        LibraryItem::Subunit(_, _, parent, _, _) => of_subunit(alloc, unit, parent, recorder),
    }
}
