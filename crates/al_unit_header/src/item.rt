// What library items are, by their trees.
ghost use Rattle.std.specs.Prelude.{◌≡◌};
ghost use Rattle.std.specs.Option.{option_map};
ghost use Rattle.al_tree.specs.DeclarationViews.{compound_model, specification_model};
ghost use Rattle.al_tree.specs.UnitViews.{library_item_model};
ghost use Rattle.al_unit_header.specs.Units.{form_of, is_parameterless, is_parameterless_procedure, is_private, item_has_elaborate_body, item_name, needs_body, parent_body_name};

use crate::names::designator;
use crate::package::{has_elaborate_body, package_needs_body};
use al_tree::{CompoundName, LibraryItem, Specification};
use al_unit_graph::UnitForm;

/// The name that an item declares or completes; of a subunit the name of its body.
pub(crate) fn item_name(item: &LibraryItem) -> &CompoundName
    ensures { compound_model result.now ≡ item_name (library_item_model item.now) }
{
    match item {
        LibraryItem::Subprogram(_, specification) => designator(specification),
        LibraryItem::Package(_, _, package) => &package.name,
        LibraryItem::Body(specification, _) => designator(specification),
        LibraryItem::PackageBody(_, package) => &package.name,
        LibraryItem::Subunit(_, _, _, specification, _) => designator(specification),
    }
}

/// The name of a subunit's parent body (ARM 10.1.3(8)).
pub(crate) fn parent_body_name(item: &LibraryItem) -> Option<&CompoundName>
    ensures { option_map (λ n. compound_model n.now) result ≡ parent_body_name (library_item_model item.now) }
{
    match item {
        LibraryItem::Subunit(_, _, parent, _, _) => Some(parent),
        _ => None,
    }
}

/// What a library item is.
pub(crate) fn form_of(item: &LibraryItem) -> UnitForm
    ensures { result ≡ form_of (library_item_model item.now) }
{
    match item {
        LibraryItem::Subprogram(_, _) => UnitForm::SubprogramDeclaration,
        LibraryItem::Package(_, _, _) => UnitForm::PackageDeclaration,
        LibraryItem::Body(_, _) => UnitForm::SubprogramBody,
        LibraryItem::PackageBody(_, _) => UnitForm::PackageBody,
        LibraryItem::Subunit(_, _, _, _, _) => UnitForm::SubunitBody,
    }
}

/// Whether the item is declared with the word private (ARM 10.1.1(12)).
pub(crate) fn is_private(item: &LibraryItem) -> bool
    ensures { result ≡ is_private (library_item_model item.now) }
{
    match item {
        LibraryItem::Subprogram(private, _) => private.is_some(),
        LibraryItem::Package(private, _, _) => private.is_some(),
        LibraryItem::Body(_, _) => false,
        LibraryItem::PackageBody(_, _) => false,
        LibraryItem::Subunit(_, _, _, _, _) => false,
    }
}

/// Whether the item is a declaration that a body completes: each of a subprogram, and some of packages.
pub(crate) fn needs_body(item: &LibraryItem) -> bool
    ensures { result ≡ needs_body (library_item_model item.now) }
{
    match item {
        LibraryItem::Subprogram(_, _) => true,
        LibraryItem::Package(_, _, package) => package_needs_body(package),
        LibraryItem::Body(_, _) => false,
        LibraryItem::PackageBody(_, _) => false,
        LibraryItem::Subunit(_, _, _, _, _) => false,
    }
}

/// Whether the item is a package's declaration with the pragma Elaborate_Body in its place (ARM 10.2.1(20)).
pub(crate) fn item_has_elaborate_body(item: &LibraryItem) -> bool
    ensures { result ≡ item_has_elaborate_body (library_item_model item.now) }
{
    match item {
        LibraryItem::Subprogram(_, _) => false,
        LibraryItem::Package(_, _, package) => has_elaborate_body(package),
        LibraryItem::Body(_, _) => false,
        LibraryItem::PackageBody(_, _) => false,
        LibraryItem::Subunit(_, _, _, _, _) => false,
    }
}

/// Whether this specifies a procedure without parameters.
fn is_parameterless(specification: &Specification) -> bool
    ensures { result ≡ is_parameterless (specification_model specification.now) }
{
    match specification {
        Specification::Procedure(_, _, formals) => formals.is_none(),
        Specification::Function(_, _, _, _, _) => false,
    }
}

/// Whether the item is the declaration or the body of a library procedure without parameters (ARM 10.2(7)).
pub(crate) fn is_parameterless_procedure(item: &LibraryItem) -> bool
    ensures { result ≡ is_parameterless_procedure (library_item_model item.now) }
{
    match item {
        LibraryItem::Subprogram(_, specification) => is_parameterless(specification),
        LibraryItem::Package(_, _, _) => false,
        LibraryItem::Body(specification, _) => is_parameterless(specification),
        LibraryItem::PackageBody(_, _) => false,
        LibraryItem::Subunit(_, _, _, _, _) => false,
    }
}
