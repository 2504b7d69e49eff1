// The private types that a package declares.
ghost use Rattle.std.specs.Prelude.{◌≡◌, ◌++◌, map, IfOk, OnOk};
ghost use Rattle.std.specs.List.{flat_map};
ghost use Rattle.al_tree.specs.DeclarationViews.{declaration_model, type_definition_model, type_model};
ghost use Rattle.al_tree.specs.UnitViews.{library_item_model};
ghost use Rattle.al_unit_header.specs.PrivateTypes.{is_private_definition, private_name, private_names, private_types};

use al_base::{Name, NoMemory};
use al_tree::{CommonDeclaration, Declaration, LibraryItem, TypeDeclaration, TypeDefinition};
use std::alloc::Global;

fn is_private_definition(definition: &TypeDefinition) -> bool
    ensures { result ≡ is_private_definition (type_definition_model definition.now) }
{
    match definition {
        TypeDefinition::Private(_) => true,
        TypeDefinition::Integer(_) => false,
        TypeDefinition::NullRecord => false,
        TypeDefinition::Enumeration(_, _) => false,
        TypeDefinition::Array(_) => false,
        TypeDefinition::Record(_, _) => false,
    }
}

/// Adds the name of a type, if it is private.
fn add_type(
    alloc: Global,
    declaration: &TypeDeclaration,
    names: &mut Vec<Name>,
) -> Result<(), NoMemory>
    ensures { OnOk result (names.new.items ≡ names.old.items ++ private_name (type_model declaration.now)) }
{
    if is_private_definition(&declaration.definition) {
        let name = Name::from_slice(alloc, declaration.name.name.as_slice())?;
        names.push(name)?;
        return Ok(());
    }
    Ok(())
}

/// Adds the name of the private type that the declaration declares, if it declares one.
fn add_private(
    alloc: Global,
    declaration: &Declaration,
    names: &mut Vec<Name>,
) -> Result<(), NoMemory>
    ensures { OnOk result (names.new.items ≡ names.old.items ++ private_names (declaration_model declaration.now)) }
{
    match declaration {
        Declaration::Common(CommonDeclaration::Type(of)) => add_type(alloc, of, names),
        Declaration::Common(CommonDeclaration::Object(_)) => Ok(()),
        Declaration::Common(CommonDeclaration::Subtype(_)) => Ok(()),
        Declaration::Common(CommonDeclaration::Use(_)) => Ok(()),
        Declaration::Common(CommonDeclaration::Pragma(_)) => Ok(()),
        Declaration::Subprogram(_) => Ok(()),
        Declaration::Task(_) => Ok(()),
        Declaration::Protected(_, _) => Ok(()),
    }
}

/// The names of the private types among these declarations, in order.
fn private_in(alloc: Global, declarations: &[Declaration]) -> Result<Vec<Name>, NoMemory>
    ensures { IfOk result (λ names. names.items ≡ flat_map private_names (map declaration_model declarations.now)) }
{
    let mut names = Vec::new(alloc);
    for declaration in declarations {
        add_private(alloc, declaration, &mut names)?;
    }
    Ok(names)
}

/// The names of the private types in the visible part of a package, in order (ARM 7.3); no other place may have any.
///
/// # Errors
///
/// `NoMemory` if the allocator refuses memory.
pub fn private_types(alloc: Global, item: &LibraryItem) -> Result<Vec<Name>, NoMemory>
    ensures { IfOk result (λ names. names.items ≡ private_types (library_item_model item.now)) }
{
    match item {
        LibraryItem::Package(_, _, package) => private_in(alloc, package.visible.as_slice()),
        LibraryItem::Subprogram(_, _) => Ok(Vec::new(alloc)),
        LibraryItem::Body(_, _) => Ok(Vec::new(alloc)),
        LibraryItem::PackageBody(_, _) => Ok(Vec::new(alloc)),
        LibraryItem::Subunit(_, _, _, _, _) => Ok(Vec::new(alloc)),
    }
}
