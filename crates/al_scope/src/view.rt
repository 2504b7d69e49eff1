// Declarations whose types are seen otherwise.
ghost use Rattle.std.specs.Prelude.{◌≡◌, IfOk};
ghost use Rattle.al_view.specs.declared.view.ViewKind.TheVariants.{OfLiteral, OfObject, OfProtected, OfSubprogram, OfSubtype, OfType};
ghost use Rattle.al_scope.specs.Recasts.{recast, recast_declared, recast_literal, recast_object, recast_protected, recast_subprogram, recast_subtype_view, recast_view};

use crate::operations::{recast_operations, recast_subprogram};
use crate::own_type;
use crate::recast::{Recast, recast_components, recast_subtype};
use crate::types::{recast_literals, recast_types};
use al_base::NoMemory;
use al_view::{
    DeclaredType, LiteralView, Names, ObjectView, ProtectedView, SubprogramView, SubtypeView, View,
    ViewKind,
};
use std::alloc::Global;

/// The names of the literals of a type that is declared.
fn own_literals(recasts: &[Recast], of: &DeclaredType) -> Result<Names, NoMemory>
    ensures { IfOk result (λ made. made ≡ (recast_declared recasts.now of.now).literals) }
{
    match own_type(of.types.as_slice()) {
        Some(own) => recast_literals(recasts, &own.symbol, &of.literals),
        None => Ok(of.literals.share()?),
    }
}

fn recast_declared(
    alloc: Global,
    recasts: &[Recast],
    of: &DeclaredType,
) -> Result<DeclaredType, NoMemory>
    ensures { IfOk result (λ made. made ≡ recast_declared recasts.now of.now) }
{
    let types = recast_types(alloc, recasts, &of.types)?;
    let literals = own_literals(recasts, of)?;
    Ok(DeclaredType { types, literals })
}

pub(crate) fn recast_subtype_view(
    alloc: Global,
    recasts: &[Recast],
    of: &SubtypeView,
) -> Result<SubtypeView, NoMemory>
    ensures { IfOk result (λ made. made ≡ recast_subtype_view recasts.now of.now) }
{
    let subtype = recast_subtype(alloc, recasts, &of.subtype)?;
    let types = recast_types(alloc, recasts, &of.types)?;
    let literals = recast_literals(recasts, &of.subtype.base, &of.literals)?;
    Ok(SubtypeView {
        subtype,
        types,
        literals,
    })
}

fn recast_object(alloc: Global, recasts: &[Recast], of: &ObjectView) -> Result<ObjectView, NoMemory>
    ensures { IfOk result (λ made. made ≡ recast_object recasts.now of.now) }
{
    let subtype = recast_subtype(alloc, recasts, &of.subtype)?;
    let types = recast_types(alloc, recasts, &of.types)?;
    let place = of.place.copy(alloc)?;
    Ok(ObjectView {
        subtype,
        types,
        is_constant: of.is_constant,
        value: of.value,
        place,
    })
}

fn recast_literal(
    alloc: Global,
    recasts: &[Recast],
    of: &LiteralView,
) -> Result<LiteralView, NoMemory>
    ensures { IfOk result (λ made. made ≡ recast_literal recasts.now of.now) }
{
    let base = of.base.copy(alloc)?;
    let types = recast_types(alloc, recasts, &of.types)?;
    Ok(LiteralView {
        base,
        types,
        position: of.position,
    })
}

fn recast_protected(
    alloc: Global,
    recasts: &[Recast],
    of: &ProtectedView,
) -> Result<ProtectedView, NoMemory>
    ensures { IfOk result (λ made. made ≡ recast_protected recasts.now of.now) }
{
    let symbol = of.symbol.copy(alloc)?;
    let operations = recast_operations(alloc, recasts, of.operations.as_slice())?;
    let components = recast_components(alloc, recasts, of.components.as_slice())?;
    let types = recast_types(alloc, recasts, &of.types)?;
    Ok(ProtectedView {
        symbol,
        operations,
        components,
        types,
        ceiling: of.ceiling,
    })
}

/// The view with these contents.
fn made(alloc: Global, kind: ViewKind) -> Result<View, NoMemory>
    ensures { IfOk result (λ view. view ≡ kind) }
{
    let view = View::new(alloc, kind)?;
    Ok(view)
}

fn of_type(alloc: Global, recasts: &[Recast], of: &DeclaredType) -> Result<View, NoMemory>
    ensures { IfOk result (λ made. made ≡ OfType (recast_declared recasts.now of.now)) }
{
    let of = recast_declared(alloc, recasts, of)?;
    made(alloc, ViewKind::OfType(of))
}

fn of_subtype(alloc: Global, recasts: &[Recast], of: &SubtypeView) -> Result<View, NoMemory>
    ensures { IfOk result (λ made. made ≡ OfSubtype (recast_subtype_view recasts.now of.now)) }
{
    let of = recast_subtype_view(alloc, recasts, of)?;
    made(alloc, ViewKind::OfSubtype(of))
}

fn of_object(alloc: Global, recasts: &[Recast], of: &ObjectView) -> Result<View, NoMemory>
    ensures { IfOk result (λ made. made ≡ OfObject (recast_object recasts.now of.now)) }
{
    let of = recast_object(alloc, recasts, of)?;
    made(alloc, ViewKind::OfObject(of))
}

fn of_literal(alloc: Global, recasts: &[Recast], of: &LiteralView) -> Result<View, NoMemory>
    ensures { IfOk result (λ made. made ≡ OfLiteral (recast_literal recasts.now of.now)) }
{
    let of = recast_literal(alloc, recasts, of)?;
    made(alloc, ViewKind::OfLiteral(of))
}

fn of_subprogram(alloc: Global, recasts: &[Recast], of: &SubprogramView) -> Result<View, NoMemory>
    ensures { IfOk result (λ made. made ≡ OfSubprogram (recast_subprogram recasts.now of.now)) }
{
    let of = recast_subprogram(alloc, recasts, of)?;
    made(alloc, ViewKind::OfSubprogram(of))
}

fn of_protected(alloc: Global, recasts: &[Recast], of: &ProtectedView) -> Result<View, NoMemory>
    ensures { IfOk result (λ made. made ≡ OfProtected (recast_protected recasts.now of.now)) }
{
    let of = recast_protected(alloc, recasts, of)?;
    made(alloc, ViewKind::OfProtected(of))
}

fn shared(view: &View) -> Result<View, NoMemory>
    ensures { IfOk result (λ shared. shared ≡ view.now) }
{
    Ok(view.share()?)
}

fn recast_view(alloc: Global, recasts: &[Recast], view: &View) -> Result<View, NoMemory>
    ensures { IfOk result (λ made. made ≡ recast_view recasts.now view.now) }
{
    match view.kind() {
        ViewKind::OfType(of) => of_type(alloc, recasts, of),
        ViewKind::OfSubtype(of) => of_subtype(alloc, recasts, of),
        ViewKind::OfObject(of) => of_object(alloc, recasts, of),
        ViewKind::OfLiteral(of) => of_literal(alloc, recasts, of),
        ViewKind::OfSubprogram(of) => of_subprogram(alloc, recasts, of),
        ViewKind::OfProtected(of) => of_protected(alloc, recasts, of),
        ViewKind::OfComponent => shared(view),
        ViewKind::OfNumber(_) => shared(view),
        ViewKind::OfTask(_) => shared(view),
        ViewKind::OfPackage(_) => shared(view),
    }
}

/// A declaration, some of whose types are seen otherwise. If none is, the view is shared.
#[tactic(auto, unfolding(crate::specs::Recasts::recast))]
pub(crate) fn recast(alloc: Global, recasts: &[Recast], view: &View) -> Result<View, NoMemory>
    ensures { IfOk result (λ made. made ≡ recast recasts.now view.now) }
{
    match recasts {
        [] => shared(view),
        [_, ..] => recast_view(alloc, recasts, view),
    }
}
