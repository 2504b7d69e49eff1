// What a visible part shows of private types whose full views its place sees: their partial views alone.
ghost use Rattle.std.specs.Prelude.{◌≡◌, ◌<◌, ◌++◌, ℕ, IfOk, List, OnOk, Some, length, slice_get};
ghost use Rattle.std.specs.List.{flat_map};
ghost use Rattle.al_scope.specs.Hidden.{all_hidden, by_partial, hidden, hidden_in, is_hidden, is_named, partial_if_hidden, with_hidden};
ghost use Rattle.al_view.specs.declared.view.ViewKind.{ViewKind};
ghost use Rattle.al_view.specs.declared.view.ViewKind.TheVariants.{OfProtected};
ghost use Rattle.al_scope.specs.Recasts.{operation_types, view_types};

use crate::recast::Recast;
use crate::view::recast;
use al_base::{Name, NoMemory, UnitKey};
use al_view::{
    DeclaredType, Interface, Names, Operation, ProtectedView, Seq, Symbol, TypeView, View,
    ViewKind, is_unit,
};
use al_view_predefined::private_type;
use std::alloc::Global;

/// A private type by its name and the package that declares it.
pub struct PrivateName {
    /// The package that declares it.
    pub unit: UnitKey,
    /// Its name in lower case.
    pub name: Name,
}

impl Drop for PrivateName {
    fn drop(self) {
        let PrivateName { unit: _, name: _ } = self;
    }
}

fn is_named(symbol: &Symbol, of: &PrivateName) -> bool
    ensures { result ≡ is_named symbol.now of.now }
{
    is_unit(&of.unit, &symbol.unit) && of.name.as_slice() == symbol.name.as_slice()
}

fn is_hidden(names: &[PrivateName], symbol: &Symbol) -> bool
    ensures { result ≡ is_hidden names.now symbol.now }
{
    names.iter().any(|of| is_named(symbol, of))
}

/// The recast of a type to a partial view, which shows only how many words its values take.
fn by_partial(alloc: Global, of: &TypeView) -> Result<Recast, NoMemory>
    ensures { IfOk result (λ made. made ≡ by_partial of.now) }
{
    let types = private_type(alloc, &of.symbol, of.layout.words())?;
    let literals = Names::new(alloc, Seq::empty(alloc))?;
    Ok(Recast {
        bounds: of.definition.bounds(),
        by: DeclaredType { types, literals },
    })
}

/// Adds the recast to the partial view of a type, if the full one is hidden.
fn add_partial(
    alloc: Global,
    names: &[PrivateName],
    of: &TypeView,
    recasts: &mut Seq<Recast>,
) -> Result<(), NoMemory>
    ensures { OnOk result (recasts.new ≡ recasts.old ++ partial_if_hidden names.now of.now) }
{
    if is_hidden(names, &of.symbol) {
        let recast = by_partial(alloc, of)?;
        recasts.push(recast)?;
    }
    Ok(())
}

fn add_partials(
    alloc: Global,
    names: &[PrivateName],
    types: &[TypeView],
    recasts: &mut Seq<Recast>,
) -> Result<(), NoMemory>
    ensures { OnOk result (recasts.new ≡ recasts.old ++ flat_map (partial_if_hidden names.now) types.now) }
{
    for of in types {
        add_partial(alloc, names, of, recasts)?;
    }
    Ok(())
}

/// Adds the recasts to the partial views of the types of operations that are hidden.
fn add_operations(
    alloc: Global,
    names: &[PrivateName],
    operations: &[Operation],
    recasts: &mut Seq<Recast>,
) -> Result<(), NoMemory>
    ensures { OnOk result (recasts.new ≡ recasts.old ++ flat_map (partial_if_hidden names.now) (operation_types operations.now)) }
{
    for operation in operations {
        let types = operation.subprogram.types.as_slice();
        add_partials(alloc, names, types, recasts)?;
    }
    Ok(())
}

/// Adds the recasts to the partial views of the types of a protected object that are hidden.
fn add_protected(
    alloc: Global,
    names: &[PrivateName],
    of: &ProtectedView,
    recasts: &mut Seq<Recast>,
) -> Result<(), NoMemory>
    ensures { OnOk result (recasts.new ≡ recasts.old ++ flat_map (partial_if_hidden names.now) (view_types (OfProtected of.now))) }
{
    add_partials(alloc, names, of.types.as_slice(), recasts)?;
    add_operations(alloc, names, of.operations.as_slice(), recasts)?;
    Ok(())
}

/// Adds the recasts to the partial views of the types of a declaration that are hidden.
fn add_of_view(
    alloc: Global,
    names: &[PrivateName],
    view: &View,
    recasts: &mut Seq<Recast>,
) -> Result<(), NoMemory>
    ensures { OnOk result (recasts.new ≡ recasts.old ++ flat_map (partial_if_hidden names.now) (view_types view.now)) }
{
    match view.kind() {
        ViewKind::OfType(of) => add_partials(alloc, names, of.types.as_slice(), recasts),
        ViewKind::OfSubtype(of) => add_partials(alloc, names, of.types.as_slice(), recasts),
        ViewKind::OfObject(of) => add_partials(alloc, names, of.types.as_slice(), recasts),
        ViewKind::OfLiteral(of) => add_partials(alloc, names, of.types.as_slice(), recasts),
        ViewKind::OfSubprogram(of) => add_partials(alloc, names, of.types.as_slice(), recasts),
        ViewKind::OfProtected(of) => add_protected(alloc, names, of, recasts),
        ViewKind::OfComponent => Ok(()),
        ViewKind::OfNumber(_) => Ok(()),
        ViewKind::OfTask(_) => Ok(()),
        ViewKind::OfPackage(_) => Ok(()),
    }
}

/// The recasts to the partial views of the types of a declaration that are hidden.
fn partials_of(alloc: Global, names: &[PrivateName], view: &View) -> Result<Seq<Recast>, NoMemory>
    ensures { IfOk result (λ recasts. recasts ≡ flat_map (partial_if_hidden names.now) (view_types view.now)) }
{
    let mut recasts = Seq::empty(alloc);
    add_of_view(alloc, names, view, &mut recasts)?;
    Ok(recasts)
}

/// A declaration as a visible part shows it.
/// # Errors
/// `NoMemory` if the allocator refuses memory.
#[tactic(auto, unfolding(crate::specs::Hidden::hidden))]
pub fn hidden(alloc: Global, names: &[PrivateName], view: &View) -> Result<View, NoMemory>
    ensures { IfOk result (λ answered. answered ≡ hidden names.now view.now) }
{
    let recasts = partials_of(alloc, names, view)?;
    recast(alloc, recasts.as_slice(), view)
}

/// Adds a name with its views, as a visible part shows them.
fn add_hidden(
    alloc: Global,
    names: &[PrivateName],
    answered: &mut Interface,
    name: &[u8],
    views: &[View],
) -> Result<(), NoMemory>
    ensures { OnOk result (answered.new ≡ with_hidden names.now answered.old (name.now, views.now)) }
{
    for view in views {
        let view = hidden(alloc, names, view)?;
        answered.declare(name, view)?;
    }
    Ok(())
}

/// Adds the i-th name of what is declared with its views, as a visible part shows them.
fn add_hidden_at(
    alloc: Global,
    names: &[PrivateName],
    answered: &mut Interface,
    declared: &Interface,
    i: usize,
) -> Result<(), NoMemory>
    requires { i < length declared.now }
    ensures { OnOk result ((named : List ℕ × List ViewKind) → slice_get declared.now i ≡ Some named → answered.new ≡ with_hidden names.now answered.old named) }
{
    match declared.at(i) {
        Some((name, views)) => add_hidden(alloc, names, answered, name, views),
        None => Ok(()),
    }
}

fn all_hidden(
    alloc: Global,
    names: &[PrivateName],
    declared: &Interface,
) -> Result<Interface, NoMemory>
    ensures { IfOk result (λ answered. answered ≡ all_hidden names.now declared.now) }
{
    let mut answered = Interface::new(alloc);
    for i in 0..declared.len() {
        add_hidden_at(alloc, names, &mut answered, declared, i)?;
    }
    Ok(answered)
}

/// What a visible part declares, as other units see it: of these private types only the partial views.
/// # Errors
/// `NoMemory` if the allocator refuses memory.
pub fn hidden_in(
    alloc: Global,
    names: &[PrivateName],
    declared: Interface,
) -> Result<Interface, NoMemory>
    ensures { IfOk result (λ answered. answered ≡ hidden_in names.now declared) }
{
    match names {
        [] => Ok(declared),
        [_, ..] => {
            let answered = all_hidden(alloc, names, &declared);
            drop(declared);
            answered
        }
    }
}
