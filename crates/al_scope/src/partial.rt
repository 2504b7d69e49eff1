// Partial views of private types, and the full views that replace them.
ghost use Rattle.std.specs.Prelude.{◌≡◌, [], find, IfOk, is_ok, is_some, true};
ghost use Rattle.std.specs.List.{list_any};
ghost use Rattle.std.specs.Option.{option_copied};
ghost use Rattle.al_scope.specs.PartialViews.{declared_type, first_partial, gives_way, has_incomplete, incomplete_at, is_full_view, is_incomplete, is_private, own_type, partial_type, some_incomplete, without_partial};

use al_base::NoMemory;
use al_view::{Interface, Symbol, TypeDefinition, TypeView, View, ViewKind, Views};
use std::alloc::Global;

/// Whether only the partial view of a type is seen.
pub fn is_private(definition: &TypeDefinition) -> bool
    ensures { result ≡ is_private definition.now }
{
    match definition {
        TypeDefinition::Private => true,
        TypeDefinition::Integer(_) => false,
        TypeDefinition::Enumeration { .. } => false,
        TypeDefinition::Array { .. } => false,
        TypeDefinition::Record(_) => false,
        TypeDefinition::Time => false,
    }
}

/// The last of the types that a type is made of: the type itself.
pub fn own_type(types: &[TypeView]) -> Option<&TypeView>
    ensures { option_copied result ≡ own_type types.now }
{
    types.last()
}

/// The type that a view declares.
pub fn declared_type(view: &View) -> Option<&TypeView>
    ensures { option_copied result ≡ declared_type view.now }
{
    match view.kind() {
        ViewKind::OfType(declared) => own_type(declared.types.as_slice()),
        ViewKind::OfSubtype(_) => None,
        ViewKind::OfObject(_) => None,
        ViewKind::OfComponent => None,
        ViewKind::OfNumber(_) => None,
        ViewKind::OfLiteral(_) => None,
        ViewKind::OfSubprogram(_) => None,
        ViewKind::OfTask(_) => None,
        ViewKind::OfProtected(_) => None,
        ViewKind::OfPackage(_) => None,
    }
}

/// The private type whose partial view this is (ARM 7.3).
pub fn partial_type(view: &View) -> Option<&Symbol>
    ensures { option_copied result ≡ partial_type view.now }
{
    match declared_type(view) {
        Some(of) => {
            if is_private(&of.definition) {
                Some(&of.symbol)
            } else {
                None
            }
        }
        None => None,
    }
}

/// Whether the view is the full view of that type.
pub fn is_full_view(symbol: &Symbol, view: &View) -> bool
    ensures { result ≡ is_full_view symbol.now view.now }
{
    match declared_type(view) {
        Some(of) => !is_private(&of.definition) && symbol.is(&of.symbol),
        None => false,
    }
}

/// Whether the full view of that type is among the views.
fn has_full_view(views: &[View], symbol: &Symbol) -> bool
    ensures { result ≡ list_any (is_full_view symbol.now) views.now }
{
    views.iter().any(|view| is_full_view(symbol, view))
}

/// Whether a view is a partial view while the full view of its type is there too.
fn gives_way(views: &[View], view: &View) -> bool
    ensures { result ≡ gives_way views.now view.now }
{
    match partial_type(view) {
        Some(symbol) => has_full_view(views, symbol),
        None => false,
    }
}

/// Whether some of the views gives way to a full view.
fn some_give_way(views: &[View]) -> bool
    ensures { result ≡ list_any (gives_way views.now) views.now }
{
    views.iter().any(|view| gives_way(views, view))
}

/// The views that don't give way to a full view.
fn left_of(alloc: Global, all: &[View]) -> Result<Views, NoMemory>
    ensures { IfOk result (λ left. left ≡ without_partial all.now) }
{
    let mut left = Views::new(alloc);
    for view in all {
        if !gives_way(all, view) {
            left.push(view.share()?)?;
        }
    }
    Ok(left)
}

/// The views that don't give way to a full view. If none gives way, it takes no memory.
pub(crate) fn without_partial(alloc: Global, views: Views) -> Result<Views, NoMemory>
    ensures is { IfOk result (λ left. left ≡ without_partial views) }
    ensures takes_none { views ≡ [] → is_ok result ≡ true }
{
    if !some_give_way(views.as_slice()) {
        return Ok(views);
    }
    let left = left_of(alloc, views.as_slice());
    drop(views);
    left
}

/// Whether a view is a partial view whose type has no full view there.
fn is_incomplete(views: &[View], view: &View) -> bool
    ensures { result ≡ is_incomplete views.now view.now }
{
    partial_type(view).is_some() && !gives_way(views, view)
}

fn has_incomplete(views: &[View]) -> bool
    ensures { result ≡ has_incomplete views.now }
{
    views.iter().any(|view| is_incomplete(views, view))
}

/// Whether the i-th name, from 0, is that of a private type that has no full declaration yet.
fn is_incomplete_at(declared: &Interface, i: usize) -> bool
    ensures { result ≡ incomplete_at declared.now i }
{
    match declared.at(i) {
        Some((_name, views)) => has_incomplete(views),
        None => false,
    }
}

/// Whether a private type among these declarations has no full declaration yet.
pub(crate) fn some_incomplete(declared: &Interface) -> bool
    ensures { result ≡ some_incomplete declared.now }
{
    for i in 0..declared.len() {
        if is_incomplete_at(declared, i) {
            return true;
        }
    }
    false
}

/// The first of the partial views among these.
fn partial_view(views: &[View]) -> Option<&View>
    ensures { option_copied result ≡ find (λ v. is_some (partial_type v)) views.now }
{
    views.iter().find(|view| partial_type(view).is_some())
}

/// The private type that the first of these partial views shows.
pub fn first_partial(views: &[View]) -> Option<&Symbol>
    ensures { option_copied result ≡ first_partial views.now }
{
    match partial_view(views) {
        Some(view) => partial_type(view),
        None => None,
    }
}
