// The stubs in a body's declarative part.
ghost use Rattle.std.specs.Prelude.{◌≡◌, ◌++◌, map, IfOk, OnOk};
ghost use Rattle.al_tree.specs.StatementViews.{body_model, item_model, items_of};
ghost use Rattle.al_tree.specs.UnitViews.{library_item_model};
ghost use Rattle.al_unit_header.specs.Units.{body_items, stub_of, stubs, stubs_in};

use crate::names::{designator, dotted};
use al_base::{Name, NoMemory};
use al_tree::{Item, LibraryItem, SubprogramBody};
use std::alloc::Global;

/// The names of the stubs that are immediately in the declarative part of a body (ARM 10.1.3(2)).
pub(crate) fn stubs(alloc: Global, item: &LibraryItem) -> Result<Vec<Name>, NoMemory>
    ensures { IfOk result (λ names. names.items ≡ stubs (library_item_model item.now)) }
{
    match item {
        LibraryItem::Subprogram(_, _) => Ok(Vec::new(alloc)),
        LibraryItem::Package(_, _, _) => Ok(Vec::new(alloc)),
        LibraryItem::Body(_, body) => stubs_in(alloc, body_items(body)),
        LibraryItem::PackageBody(_, package) => stubs_in(alloc, package.items.as_slice()),
        LibraryItem::Subunit(_, _, _, _, body) => stubs_in(alloc, body_items(body)),
    }
}

/// The declarative part of a subprogram's body.
#[tactic(auto, using(crate::proofs::StubLemmas::body_items_model))]
fn body_items(body: &SubprogramBody) -> &[Item]
    ensures { items_of (map item_model result.now) ≡ body_items (body_model body.now) }
{
    body.items.as_slice()
}

/// The names of the stubs among the items.
fn stubs_in(alloc: Global, items: &[Item]) -> Result<Vec<Name>, NoMemory>
    ensures { IfOk result (λ names. names.items ≡ stubs_in (items_of (map item_model items.now))) }
{
    let mut names = Vec::new(alloc);
    for item in items {
        add_stub(alloc, item, &mut names)?;
    }
    Ok(names)
}

/// Adds the name of the item, if it is a stub.
#[tactic(auto, using(al_tree::proofs::StatementsMade::item_stub_model))]
fn add_stub(alloc: Global, item: &Item, names: &mut Vec<Name>) -> Result<(), NoMemory>
    ensures { OnOk result (names.new.items ≡ names.old.items ++ stub_of (item_model item.now)) }
{
    match item {
        Item::StubItem(specification, _) => {
            Ok(names.push(dotted(alloc, designator(specification))?)?)
        }
        Item::CommonItem(_) => Ok(()),
        Item::SubprogramItem(_) => Ok(()),
        Item::BodyItem(_, _) => Ok(()),
        Item::TaskItem(_) => Ok(()),
        Item::TaskBodyItem(_, _, _) => Ok(()),
        Item::ProtectedItem(_, _) => Ok(()),
        Item::ProtectedBodyItem(_, _, _, _) => Ok(()),
    }
}
