// The region of a protected body.
ghost use Rattle.std.specs.Prelude.{◌≡◌, ◌<◌, fold, length, IfOk, OnOk};
ghost use Rattle.al_check_declared.specs.ObjectRegions.{component_view, entered_alone, has_form, is_first_object, is_object, region_entered, with_component, with_operation, word_after};

use al_base::{Name, NoMemory};
use al_check_here::declare_alone;
use al_decl::Environment;
use al_decl_judged::Declaration;
use al_overload::words_in;
use al_overload_readings::copied_subprogram;
use al_scope::Scope;
use al_view::{
    Component, Interface, ObjectPlace, ObjectView, Operation, ProtectedView, Seq, View, ViewKind,
};
use al_view_predefined::StandardTypes;
use std::alloc::Global;

/// Makes an operation visible.
fn declare_operation(
    alloc: Global,
    env: &mut Environment,
    operation: &Operation,
) -> Result<(), NoMemory>
    requires { 0 < length env.old.scope.regions }
    ensures declared { OnOk result (env.new ≡ with_operation env.old operation.now) }
    ensures depth { length env.new.scope.regions ≡ length env.old.scope.regions }
{
    let subprogram = copied_subprogram(alloc, &operation.subprogram)?;
    let view = View::new(alloc, ViewKind::OfSubprogram(subprogram))?;
    let name = Name::from_slice(alloc, operation.name.as_slice())?;
    declare_alone(alloc, env, Declaration { name, view })
}

fn declare_operations(
    alloc: Global,
    env: &mut Environment,
    operations: &[Operation],
) -> Result<(), NoMemory>
    requires { 0 < length env.old.scope.regions }
    ensures declared { OnOk result (env.new ≡ fold with_operation env.old operations.now) }
    ensures depth { length env.new.scope.regions ≡ length env.old.scope.regions }
{
    for operation in operations {
        declare_operation(alloc, env, operation)?;
    }
    Ok(())
}

/// The view of a component whose first word in its object is `word`.
fn component_view(
    alloc: Global,
    object: &ProtectedView,
    is_constant: bool,
    component: &Component,
    word: u32,
) -> Result<View, NoMemory>
    ensures { IfOk result (λ view. view ≡ component_view object.now is_constant component.now word) }
{
    let subtype = component.subtype.copy(alloc)?;
    let types = object.types.share()?;
    let symbol = object.symbol.copy(alloc)?;
    let place = ObjectPlace::Static { symbol, word };
    let view = ObjectView {
        subtype,
        types,
        is_constant,
        value: None,
        place,
    };
    match View::new(alloc, ViewKind::OfObject(view)) {
        Ok(view) => Ok(view),
        Err(_) => Err(NoMemory),
    }
}

/// The word after a component whose first word is `word`.
pub(crate) fn word_after(
    standard: &StandardTypes,
    object: &ProtectedView,
    component: &Component,
    word: u32,
) -> u32
    ensures { result ≡ word_after object.now component.now word }
{
    let words = words_in(standard, &object.types, &component.subtype.base);
    word.saturating_add(words)
}

/// Makes a component visible, and gives the word after it.
fn declare_component(
    alloc: Global,
    standard: &StandardTypes,
    env: &mut Environment,
    object: &ProtectedView,
    is_constant: bool,
    component: &Component,
    word: u32,
) -> Result<u32, NoMemory>
    requires { 0 < length env.old.scope.regions }
    ensures declared { IfOk result (λ after. (env.new, after) ≡ with_component object.now is_constant (env.old, word) component.now) }
    ensures depth { length env.new.scope.regions ≡ length env.old.scope.regions }
{
    let view = component_view(alloc, object, is_constant, component, word)?;
    let name = Name::from_slice(alloc, component.name.as_slice())?;
    declare_alone(alloc, env, Declaration { name, view })?;
    Ok(word_after(standard, object, component, word))
}

fn declare_components(
    alloc: Global,
    standard: &StandardTypes,
    env: &mut Environment,
    object: &ProtectedView,
    components: &[Component],
    is_constant: bool,
) -> Result<(), NoMemory>
    requires { 0 < length env.old.scope.regions }
    ensures declared { OnOk result (env.new ≡ (fold (with_component object.now is_constant) (env.old, 0) components.now).0) }
    ensures depth { length env.new.scope.regions ≡ length env.old.scope.regions }
{
    let mut word = 0;
    for component in components {
        let after = declare_component(alloc, standard, env, object, is_constant, component, word)?;
        word = after;
    }
    Ok(())
}

/// Enters a region of the object in which nothing is declared yet.
fn enter_alone(alloc: Global, env: &mut Environment, object: &ProtectedView) -> Result<(), NoMemory>
    ensures entered { OnOk result (env.new ≡ entered_alone env.old object.now.symbol) }
    ensures inside { OnOk result (0 < length env.new.scope.regions) }
{
    let symbol = object.symbol.copy(alloc)?;
    env.scope.enter_construct(symbol, Seq::empty(alloc))?;
    env.declared = Interface::new(alloc);
    Ok(())
}

/// Enters the region of a protected body, in which its operations and components are visible (ARM 8.1). In the body of a protected function the
/// components are constants (ARM 9.5.1(2)).
pub(crate) fn enter_region(
    alloc: Global,
    standard: &StandardTypes,
    env: &mut Environment,
    object: &ProtectedView,
    is_constant: bool,
) -> Result<(), NoMemory>
    ensures { OnOk result (env.new ≡ region_entered env.old object.now is_constant) }
{
    enter_alone(alloc, env, object)?;
    declare_operations(alloc, env, object.operations.as_slice())?;
    let components = object.components.as_slice();
    declare_components(alloc, standard, env, object, components, is_constant)
}

/// Whether the view is of an object that is a constant, if `is_constant`, or a variable, if not.
fn is_object(view: &View, is_constant: bool) -> bool
    ensures { result ≡ is_object is_constant view.now }
{
    match view.kind() {
        ViewKind::OfObject(object) => object.is_constant == is_constant,
        ViewKind::OfType(_) => false,
        ViewKind::OfSubtype(_) => false,
        ViewKind::OfComponent => false,
        ViewKind::OfNumber(_) => false,
        ViewKind::OfLiteral(_) => false,
        ViewKind::OfSubprogram(_) => false,
        ViewKind::OfTask(_) => false,
        ViewKind::OfProtected(_) => false,
        ViewKind::OfPackage(_) => false,
    }
}

fn is_first_object(views: &[View], is_constant: bool) -> bool
    ensures { result ≡ is_first_object is_constant views.now }
{
    match views {
        [view, ..] => is_object(view, is_constant),
        [] => false,
    }
}

/// Whether the innermost region has these components in this form. The first component decides; without components both forms are the same.
pub(crate) fn has_form(scope: &Scope, components: &[Component], is_constant: bool) -> bool
    ensures { result ≡ has_form is_constant components.now scope.now.regions }
{
    match components {
        [first, ..] => is_first_object(scope.declared_alone(first.name.as_slice()), is_constant),
        [] => !scope.is_empty(),
    }
}
