// Lists of types, some of which are seen otherwise.
ghost use Rattle.std.specs.Prelude.{◌≡◌, fold, IfOk, OnOk};
ghost use Rattle.std.specs.List.{list_any};
ghost use Rattle.al_view.specs.Symbols.{same_symbol};
ghost use Rattle.al_scope.specs.Recasts.{recast_literals, recast_types, with_recast, with_type};

use crate::recast::{Recast, recast_of, recast_type};
use al_base::NoMemory;
use al_view::{Names, Seq, Symbol, TypeView, Types};
use al_view_predefined::copied_type;
use std::alloc::Global;

/// Whether the type with that symbol is one of these.
fn is_there(types: &[TypeView], symbol: &Symbol) -> bool
    ensures { result ≡ list_any (λ of. same_symbol of.symbol symbol.now) types.now }
{
    types.iter().any(|of| of.symbol.is(symbol))
}

/// Adds a type, unless it is there.
fn add_type(types: &mut Seq<TypeView>, of: TypeView) -> Result<(), NoMemory>
    ensures { OnOk result (types.new ≡ with_type types.old of) }
{
    if is_there(types.as_slice(), &of.symbol) {
        drop(of);
        return Ok(());
    }
    types.push(of)?;
    Ok(())
}

/// Adds types, each unless it is there.
fn add_types(alloc: Global, types: &mut Seq<TypeView>, others: &[TypeView]) -> Result<(), NoMemory>
    ensures { OnOk result (types.new ≡ fold with_type types.old others.now) }
{
    for of in others {
        let of = copied_type(alloc, of)?;
        add_type(types, of)?;
    }
    Ok(())
}

/// Adds a type as it is seen.
fn add_recast(
    alloc: Global,
    recasts: &[Recast],
    types: &mut Seq<TypeView>,
    of: &TypeView,
) -> Result<(), NoMemory>
    ensures { OnOk result (types.new ≡ with_recast recasts.now types.old of.now) }
{
    match recast_of(recasts, &of.symbol) {
        Some(recast) => add_types(alloc, types, recast.by.types.as_slice()),
        None => {
            let of = recast_type(alloc, recasts, of)?;
            add_type(types, of)
        }
    }
}

/// Types as they are seen.
pub(crate) fn recast_types(
    alloc: Global,
    recasts: &[Recast],
    types: &Types,
) -> Result<Types, NoMemory>
    ensures { IfOk result (λ made. made ≡ recast_types recasts.now types.now) }
{
    let mut made = Seq::empty(alloc);
    for of in types.as_slice() {
        add_recast(alloc, recasts, &mut made, of)?;
    }
    let made = Types::new(alloc, made)?;
    Ok(made)
}

/// The names of the literals of a type as it is seen.
pub(crate) fn recast_literals(
    recasts: &[Recast],
    base: &Symbol,
    literals: &Names,
) -> Result<Names, NoMemory>
    ensures { IfOk result (λ made. made ≡ recast_literals recasts.now base.now literals.now) }
{
    match recast_of(recasts, base) {
        Some(recast) => Ok(recast.by.literals.share()?),
        None => Ok(literals.share()?),
    }
}
