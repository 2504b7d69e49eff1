// Properties of a library item that its own source shows.
ghost use Rattle.std.specs.Prelude.{◌≡◌};
ghost use Rattle.al_unit_header.specs.Units.{designator, is_private, item_name, last_identifier};
ghost use Rattle.al_tree.specs.DeclarationViews.{compound_model, specification_model};
ghost use Rattle.al_tree.specs.UnitViews.{library_item_model};
ghost use Rattle.al_check_start.specs.UnitsAt.{is_package_item};

use al_tree::{CompoundName, LibraryItem, Specification};

/// Whether it is a package or the body of one.
pub(crate) fn is_package_item(item: &LibraryItem) -> bool
    ensures { result ≡ is_package_item (library_item_model item.now) }
{
    match item {
        LibraryItem::Subprogram(_, _) => false,
        LibraryItem::Package(_, _, _) => true,
        LibraryItem::Body(_, _) => false,
        LibraryItem::PackageBody(_, _) => true,
        LibraryItem::Subunit(_, _, _, _, _) => false,
    }
}

/// Whether it is declared with the reserved word `private` (ARM 10.1.1(12)).
pub(crate) fn is_private(item: &LibraryItem) -> bool
    ensures { result ≡ is_private (library_item_model item.now) }
{
    match item {
        LibraryItem::Subprogram(private, _) => private.is_some(),
        LibraryItem::Package(private, _, _) => private.is_some(),
        LibraryItem::Body(_, _) => false,
        LibraryItem::PackageBody(_, _) => false,
        LibraryItem::Subunit(_, _, _, _, _) => false,
    }
}

/// The name in a specification.
fn designator(specification: &Specification) -> &CompoundName
    ensures { compound_model result.now ≡ designator (specification_model specification.now) }
{
    match specification {
        Specification::Procedure(_, name, _) => name,
        Specification::Function(_, name, _, _, _) => name,
    }
}

/// The last identifier of a name.
pub(crate) fn last_identifier(name: &CompoundName) -> &[u8]
    ensures { result.now ≡ (last_identifier (compound_model name.now)).text }
{
    match name.selectors.as_slice() {
        [.., last] => last.name.as_slice(),
        [] => name.first.name.as_slice(),
    }
}

/// The name that it declares or completes.
pub(crate) fn item_name(item: &LibraryItem) -> &CompoundName
    ensures { compound_model result.now ≡ item_name (library_item_model item.now) }
{
    match item {
        LibraryItem::Subprogram(_, specification) => designator(specification),
        LibraryItem::Package(_, _, library_package) => &library_package.name,
        LibraryItem::Body(specification, _) => designator(specification),
        LibraryItem::PackageBody(_, body) => &body.name,
        LibraryItem::Subunit(_, _, _, specification, _) => designator(specification),
    }
}
