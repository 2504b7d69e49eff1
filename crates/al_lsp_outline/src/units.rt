// What a unit declares.
ghost use Rattle.std.specs.Prelude.{◌≡◌, ◌++◌, map, IfOk, OnOk};
ghost use Rattle.al_tree.specs.DeclarationViews.{declaration_model};
ghost use Rattle.al_tree.specs.UnitViews.{library_item_model, package_model, unit_model};
ghost use Rattle.al_lsp_outline.specs.Units.{item_declared, package_declared, private_declarations, unit_declared};

use crate::bodies::{add_body, add_items};
use crate::declared::{Declared, DeclaredKind, add_compound, deeper, last_of};
use crate::parts::{add_declarations, add_subprogram};
use al_base::NoMemory;
use al_tree::{CompilationUnit, Declaration, LibraryItem, PackageDeclaration};
use std::alloc::Global;

fn private_declarations(library_package: &PackageDeclaration) -> &[Declaration]
    ensures { map declaration_model result.now ≡ private_declarations (package_model library_package.now) }
{
    match &library_package.private_part {
        Some(part) => part.declarations.as_slice(),
        None => &[],
    }
}

fn add_package(
    list: &mut Vec<Declared>,
    library_package: &PackageDeclaration,
) -> Result<(), NoMemory>
    ensures { OnOk result (list.new.items ≡ list.old.items ++ package_declared (package_model library_package.now)) }
{
    let end = library_package.end.end;
    add_compound(list, DeclaredKind::Package, 0, &library_package.name, end)?;
    let inside = deeper(0);
    add_declarations(list, inside, library_package.visible.as_slice())?;
    add_declarations(list, inside, private_declarations(library_package))
}

fn add_library_item(list: &mut Vec<Declared>, item: &LibraryItem) -> Result<(), NoMemory>
    ensures { OnOk result (list.new.items ≡ list.old.items ++ item_declared (library_item_model item.now)) }
{
    match item {
        LibraryItem::Subprogram(_, of) => add_subprogram(list, 0, of, last_of(of)),
        LibraryItem::Package(_, _, of) => add_package(list, of),
        LibraryItem::Body(of, body) => add_body(list, 0, of, body),
        LibraryItem::PackageBody(_, of) => {
            add_compound(list, DeclaredKind::Package, 0, &of.name, of.end.end)?;
            add_items(list, deeper(0), of.items.as_slice())
        }
        LibraryItem::Subunit(_, _, _, of, body) => add_body(list, 0, of, body),
    }
}

/// What a unit declares, in the order of the names.
///
/// # Errors
///
/// `NoMemory` if the allocator refuses memory.
#[tactic(auto, unfolding(al_tree::specs::UnitViews::unit_model))]
pub fn unit_declared(alloc: Global, unit: &CompilationUnit) -> Result<Vec<Declared>, NoMemory>
    ensures { IfOk result (λ list. list.items ≡ unit_declared (unit_model unit.now)) }
{
    let mut list = Vec::new(alloc);
    add_library_item(&mut list, &unit.item)?;
    Ok(list)
}
