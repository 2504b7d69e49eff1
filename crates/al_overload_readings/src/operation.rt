// Operations of protected objects after the object's name (ARM 9.5, 4.1.3).
ghost use Rattle.std.specs.Prelude.{◌≡◌, ◌++◌, IfOk, OnOk};
ghost use Rattle.std.specs.Option.{option_copied};
ghost use Rattle.al_overload.specs.TermViews.{term_model};
ghost use Rattle.al_overload_readings.specs.Operations.{called, named_so, operation_of, operations_named, protected_in, protected_of};

use crate::copied::copied_subprogram;
use al_base::{NoMemory, Place};
use al_overload::Term;
use al_overload_lookup::is_none;
use al_view::{Operation, ProtectedView, View, ViewKind, Views};
use std::alloc::Global;

/// The protected object whose view this is.
pub fn protected_of(view: &View) -> Option<&ProtectedView>
    ensures { option_copied result ≡ protected_of view.now }
{
    match view.kind() {
        ViewKind::OfProtected(object) => Some(object),
        ViewKind::OfType(_) => None,
        ViewKind::OfSubtype(_) => None,
        ViewKind::OfObject(_) => None,
        ViewKind::OfComponent => None,
        ViewKind::OfNumber(_) => None,
        ViewKind::OfLiteral(_) => None,
        ViewKind::OfSubprogram(_) => None,
        ViewKind::OfTask(_) => None,
        ViewKind::OfPackage(_) => None,
    }
}

/// The protected object that is all that is visible under a name.
pub fn protected_in(views: &[View]) -> Option<&ProtectedView>
    ensures { option_copied result ≡ protected_in views.now }
{
    match views {
        [] => None,
        [view] => protected_of(view),
        [_, _, ..] => None,
    }
}

/// Adds an operation after others, if it has that name.
fn add_if_named(
    alloc: Global,
    views: &mut Views,
    operation: &Operation,
    name: &[u8],
) -> Result<(), NoMemory>
    ensures { OnOk result (views.new ≡ views.old ++ named_so name.now operation.now) }
{
    if name == operation.name.as_slice() {
        let subprogram = copied_subprogram(alloc, &operation.subprogram)?;
        let view = View::new(alloc, ViewKind::OfSubprogram(subprogram))?;
        views.push(view)?;
    }
    Ok(())
}

fn add_named(
    alloc: Global,
    views: &mut Views,
    operations: &[Operation],
    name: &[u8],
) -> Result<(), NoMemory>
    ensures { OnOk result (views.new ≡ views.old ++ operations_named name.now operations.now) }
{
    for operation in operations {
        add_if_named(alloc, views, operation, name)?;
    }
    Ok(())
}

/// All operations of that name.
fn operations_named(alloc: Global, operations: &[Operation], name: &[u8]) -> Result<Views, NoMemory>
    ensures { IfOk result (λ views. views ≡ operations_named name.now operations.now) }
{
    let mut views = Views::new(alloc);
    add_named(alloc, &mut views, operations, name)?;
    Ok(views)
}

fn called(place: Place, views: Views) -> Term
    ensures { term_model result ≡ called place views }
{
    if is_none(views.as_slice()) {
        Term::nothing(place)
    } else {
        Term::named(place, views)
    }
}

/// The operations of that name of the object.
/// # Errors
/// `NoMemory` if the allocator refuses memory.
#[tactic(auto, unfolding(crate::specs::Operations::operation_of))]
pub fn operation_of(
    alloc: Global,
    place: Place,
    object: &ProtectedView,
    name: &[u8],
) -> Result<Term, NoMemory>
    ensures { IfOk result (λ term. term_model term ≡ operation_of place object.now name.now) }
{
    let views = operations_named(alloc, object.operations.as_slice(), name)?;
    Ok(called(place, views))
}
