// A type that is seen otherwise, and subtypes of it.
ghost use Rattle.std.specs.Prelude.{◌≡◌, map, IfOk};
ghost use Rattle.std.specs.Option.{option_copied};
ghost use Rattle.al_scope.specs.Recasts.{is_recast, new_bounds, recast_bounds, recast_component, recast_definition, recast_of, recast_subtype, recast_type, same_bounds};

use crate::own_type;
use al_base::{Name, NoMemory};
use al_view::{Bounds, Component, DeclaredType, Seq, Subtype, Symbol, TypeDefinition, TypeView};
use al_view_predefined::copied_layout;
use std::alloc::Global;

/// How a type is seen: by its full view in place of the partial one, or the other way round.
pub struct Recast {
    /// The bounds of all its values, as views declared elsewhere have them. A partial view has none.
    pub bounds: Option<Bounds>,
    /// What it is seen as.
    pub by: DeclaredType,
}

impl Drop for Recast {
    fn drop(self) {
        let Recast { bounds: _, by: _ } = self;
    }
}

fn is_recast(symbol: &Symbol, recast: &Recast) -> bool
    ensures { result ≡ is_recast symbol.now recast.now }
{
    match own_type(recast.by.types.as_slice()) {
        Some(of) => symbol.is(&of.symbol),
        None => false,
    }
}

/// How the type with that symbol is seen, if otherwise.
pub(crate) fn recast_of<'a>(recasts: &'a [Recast], symbol: &Symbol) -> Option<&'a Recast>
    ensures { option_copied result ≡ recast_of recasts.now symbol.now }
{
    recasts.iter().find(|recast| is_recast(symbol, recast))
}

/// The bounds of a scalar type as it is seen then.
fn new_bounds(recast: &Recast) -> Option<Bounds>
    ensures { result ≡ new_bounds recast.now }
{
    match own_type(recast.by.types.as_slice()) {
        Some(of) => of.definition.bounds(),
        None => None,
    }
}

fn same_bounds(bounds: &Option<Bounds>, others: &Option<Bounds>) -> bool
    ensures { result ≡ same_bounds bounds.now others.now }
{
    match (bounds, others) {
        (None, None) => true,
        (None, Some(_)) => false,
        (Some(_), None) => false,
        (Some(a), Some(b)) => {
            (a.low <= b.low && b.low <= a.low) && (a.high <= b.high && b.high <= a.high)
        }
    }
}

fn recast_bounds(recasts: &[Recast], of: &Subtype) -> Option<Bounds>
    ensures { result ≡ recast_bounds recasts.now of.now }
{
    match recast_of(recasts, &of.base) {
        Some(recast) => {
            if same_bounds(&of.bounds, &recast.bounds) {
                new_bounds(recast)
            } else {
                of.bounds
            }
        }
        None => of.bounds,
    }
}

pub(crate) fn recast_subtype(
    alloc: Global,
    recasts: &[Recast],
    of: &Subtype,
) -> Result<Subtype, NoMemory>
    ensures { IfOk result (λ made. made ≡ recast_subtype recasts.now of.now) }
{
    let base = of.base.copy(alloc)?;
    let bounds = recast_bounds(recasts, of);
    Ok(Subtype { base, bounds })
}

fn recast_component(
    alloc: Global,
    recasts: &[Recast],
    of: &Component,
) -> Result<Component, NoMemory>
    ensures { IfOk result (λ made. made ≡ recast_component recasts.now of.now) }
{
    let name = Name::from_slice(alloc, of.name.as_slice())?;
    let subtype = recast_subtype(alloc, recasts, &of.subtype)?;
    Ok(Component { name, subtype })
}

pub(crate) fn recast_components(
    alloc: Global,
    recasts: &[Recast],
    of: &[Component],
) -> Result<Seq<Component>, NoMemory>
    ensures { IfOk result (λ made. made ≡ map (recast_component recasts.now) of.now) }
{
    let mut made = Seq::empty(alloc);
    for component in of {
        made.push(recast_component(alloc, recasts, component)?)?;
    }
    Ok(made)
}

fn recast_definition(
    alloc: Global,
    recasts: &[Recast],
    of: &TypeDefinition,
) -> Result<TypeDefinition, NoMemory>
    ensures { IfOk result (λ made. made ≡ recast_definition recasts.now of.now) }
{
    match of {
        TypeDefinition::Array { index, component } => {
            let index = recast_subtype(alloc, recasts, index)?;
            let component = recast_subtype(alloc, recasts, component)?;
            Ok(TypeDefinition::Array { index, component })
        }
        TypeDefinition::Record(components) => {
            let components = recast_components(alloc, recasts, components.as_slice())?;
            Ok(TypeDefinition::Record(components))
        }
        TypeDefinition::Integer(bounds) => Ok(TypeDefinition::Integer(*bounds)),
        TypeDefinition::Enumeration { literals } => Ok(TypeDefinition::Enumeration {
            literals: *literals,
        }),
        TypeDefinition::Time => Ok(TypeDefinition::Time),
        TypeDefinition::Private => Ok(TypeDefinition::Private),
    }
}

/// A type whose parts are of types that are seen otherwise.
pub(crate) fn recast_type(
    alloc: Global,
    recasts: &[Recast],
    of: &TypeView,
) -> Result<TypeView, NoMemory>
    ensures { IfOk result (λ made. made ≡ recast_type recasts.now of.now) }
{
    let symbol = of.symbol.copy(alloc)?;
    let definition = recast_definition(alloc, recasts, &of.definition)?;
    let layout = copied_layout(alloc, &of.layout)?;
    Ok(TypeView {
        symbol,
        definition,
        layout,
    })
}
