// Barriers of entries.
ghost use Rattle.std.specs.Prelude.{◌≡◌, Some, option_map, IfOk};
ghost use Rattle.al_check_declared.specs.Barriers.{barrier_among, barrier_fault, barrier_named, barrier_of, is_barrier};
ghost use Rattle.al_tree.specs.ExpressionViews.{expression_model};

use crate::region::word_after;
use al_base::NoMemory;
use al_base_fault::{CheckRule, Fault};
use al_overload_lookup::{first_place, key_of};
use al_tree::Expression;
use al_view::{Component, ObjectPlace, ProtectedView, Symbol};
use al_view_predefined::{StandardTypes, standard_symbol};
use std::alloc::Global;

fn is_barrier(name: &[u8], of: &Symbol, component: &Component) -> bool
    ensures { result ≡ is_barrier name.now of.now component.now }
{
    component.name.as_slice() == name && component.subtype.base.is(of)
}

/// The component with this name and this type.
fn barrier_among(
    alloc: Global,
    standard: &StandardTypes,
    object: &ProtectedView,
    name: &[u8],
    of: &Symbol,
    components: &[Component],
) -> Result<Option<ObjectPlace>, NoMemory>
    ensures { IfOk result (λ barrier. barrier ≡ barrier_among object.now name.now of.now 0 components.now) }
{
    let mut word = 0;
    for component in components {
        if is_barrier(name, of, component) {
            let symbol = object.symbol.copy(alloc)?;
            return Ok(Some(ObjectPlace::Static { symbol, word }));
        }
        let after = word_after(standard, object, component, word);
        word = after;
    }
    Ok(None)
}

fn barrier_named(
    alloc: Global,
    standard: &StandardTypes,
    object: &ProtectedView,
    name: &[u8],
) -> Result<Option<ObjectPlace>, NoMemory>
    ensures { IfOk result (λ barrier. barrier ≡ barrier_named object.now (Some name.now)) }
{
    let of = standard_symbol(alloc, b"boolean")?;
    let components = object.components.as_slice();
    barrier_among(alloc, standard, object, name, &of, components)
}

/// The place of a barrier that is right: it is the name of a component of the object, of type Boolean (ARM D.7).
pub(crate) fn barrier_of(
    alloc: Global,
    standard: &StandardTypes,
    object: &ProtectedView,
    barrier: &Expression,
) -> Result<Option<ObjectPlace>, NoMemory>
    ensures { IfOk result (λ place. place ≡ barrier_of object.now (expression_model barrier.now)) }
{
    let key = key_of(alloc, barrier)?;
    match key {
        Some(name) => barrier_named(alloc, standard, object, name.as_slice()),
        None => Ok(None),
    }
}

/// E603 at the first token of a barrier that isn't right.
pub(crate) fn barrier_fault(
    alloc: Global,
    standard: &StandardTypes,
    object: &ProtectedView,
    barrier: &Expression,
) -> Result<Option<Fault>, NoMemory>
    ensures { IfOk result (λ fault. fault ≡ barrier_fault object.now (expression_model barrier.now)) }
{
    let found = barrier_of(alloc, standard, object, barrier)?;
    match found {
        Some(_) => Ok(None),
        None => {
            let place = first_place(barrier);
            let rule = CheckRule::BadBarrier;
            Ok(Some(Fault { place, rule }))
        }
    }
}
