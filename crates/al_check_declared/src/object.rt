// How the check enters and leaves protected bodies.
ghost use Rattle.std.specs.Prelude.{◌≡◌, Some, map, IfOk, OnOk};
ghost use Rattle.al_check_declared.specs.OpenObjects.{barrier_fault_here, entered_anew, fault_by, in_object, inside, is_of_object, object_left, object_opened, opened_object, out_of_object, renewed, renewed_by, renewed_in};
ghost use Rattle.al_decl.specs.Regions.{outside_of};
ghost use Rattle.al_overload_readings.specs.Operations.{protected_of};
ghost use Rattle.al_tree.specs.ExpressionViews.{expression_model};
ghost use Rattle.al_tree.specs.StatementViews.{operation_bodies_of, operation_body_model};

use crate::barrier::barrier_fault;
use crate::entry::entry_of;
use crate::region::{enter_region, has_form};
use al_base::NoMemory;
use al_base_fault::Fault;
use al_check_here::{AnalyzedHeading, BodyRole, CheckState, OpenObject, leave_region, leave_to};
use al_decl::{Environment, Outside, set_aside};
use al_decl_judged::is_function;
use al_decl_protected::operations_waiting;
use al_overload_readings::protected_of;
use al_tree::{Expression, OperationBody};
use al_view::{ProtectedView, View};
use al_view_predefined::StandardTypes;
use al_view_typed::EntryOf;
use std::alloc::Global;

/// Enters the region in which operations wait for their bodies, and gives what was declared and what waited outside of it.
fn enter_inside(
    alloc: Global,
    standard: &StandardTypes,
    env: &mut Environment,
    view: &View,
    object: &ProtectedView,
) -> Result<Outside, NoMemory>
    ensures env { OnOk result (env.new ≡ inside env.old view.now object.now) }
    ensures outside { IfOk result (λ outside. outside ≡ outside_of env.old) }
{
    let outside = set_aside(alloc, env);
    enter_region(alloc, standard, env, object, false)?;
    env.uncompleted = operations_waiting(alloc, view.kind())?;
    Ok(outside)
}

/// Keeps the object whose body the place is in, with what was declared and what waited outside of that body.
fn keep_object(
    alloc: Global,
    state: &mut CheckState,
    view: &View,
    object: &ProtectedView,
    entry: Option<EntryOf>,
    outside: Outside,
) -> Result<(), NoMemory>
    ensures { OnOk result (state.new ≡ in_object state.old (Some (record { symbol = object.now.symbol; view = view.now; entry = entry; outside = outside })) (Some object.now.symbol)) }
{
    let symbol = object.symbol.copy(alloc)?;
    let own = object.symbol.copy(alloc)?;
    let view = view.share()?;
    state.object = Some(OpenObject {
        symbol,
        view,
        entry,
        outside,
    });
    state.unit.labeller.own = Some(own);
    Ok(())
}

fn enter_object(
    alloc: Global,
    state: &mut CheckState,
    view: &View,
    object: &ProtectedView,
    bodies: &[OperationBody],
) -> Result<(), NoMemory>
    ensures { OnOk result (state.new ≡ opened_object state.old view.now object.now (operation_bodies_of (map operation_body_model bodies.now))) }
{
    let standard = &state.unit.labeller.predefined.standard;
    let entry = entry_of(alloc, standard, object, bodies)?;
    let outside = enter_inside(alloc, standard, &mut state.env, view, object)?;
    keep_object(alloc, state, view, object, entry, outside)
}

/// Enters the body of the protected object with this view (ARM 9.4).
///
/// # Errors
/// `NoMemory` if the allocator refuses memory.
pub fn open_object(
    alloc: Global,
    state: &mut CheckState,
    view: &View,
    bodies: &[OperationBody],
) -> Result<(), NoMemory>
    ensures { OnOk result (state.new ≡ object_opened state.old view.now (operation_bodies_of (map operation_body_model bodies.now))) }
{
    match protected_of(view) {
        Some(object) => enter_object(alloc, state, view, object, bodies),
        None => Ok(()),
    }
}

/// Leaves the body of an object that has been taken from the state.
fn leave_open(state: &mut CheckState, object: OpenObject)
    ensures { state.new ≡ out_of_object state.old (Some object) }
{
    leave_to(&mut state.env, object.into_outside());
    state.object = None;
    state.unit.labeller.own = None;
}

/// Leaves the body of the protected object that the place is in, if there is one: what was declared and what waited outside of it is back.
pub fn leave_object(state: &mut CheckState)
    ensures { state.new ≡ object_left state.old }
{
    match state.object.take() {
        Some(object) => leave_open(state, object),
        None => {}
    }
}

/// Whether a body with this role is in a protected body.
pub fn is_of_object(role: BodyRole) -> bool
    ensures { result ≡ is_of_object role }
{
    match role {
        BodyRole::Subprogram => false,
        BodyRole::Task => false,
        BodyRole::Operation => true,
        BodyRole::Entry => true,
    }
}

fn enter_anew(
    alloc: Global,
    standard: &StandardTypes,
    env: &mut Environment,
    object: &ProtectedView,
    is_constant: bool,
) -> Result<(), NoMemory>
    ensures { OnOk result (env.new ≡ entered_anew env.old object.now is_constant) }
{
    leave_region(&mut env.scope);
    enter_region(alloc, standard, env, object, is_constant)
}

/// Gives the region this form. If it has the form already, nothing is done.
fn renew_object(
    alloc: Global,
    standard: &StandardTypes,
    env: &mut Environment,
    object: &ProtectedView,
    is_constant: bool,
) -> Result<(), NoMemory>
    ensures { OnOk result (env.new ≡ renewed_by env.old is_constant (Some object.now)) }
{
    if has_form(&env.scope, object.components.as_slice(), is_constant) {
        return Ok(());
    }
    enter_anew(alloc, standard, env, object, is_constant)
}

fn renew_by(
    alloc: Global,
    standard: &StandardTypes,
    env: &mut Environment,
    view: &View,
    is_constant: bool,
) -> Result<(), NoMemory>
    ensures { OnOk result (env.new ≡ renewed_by env.old is_constant (protected_of view.now)) }
{
    match protected_of(view) {
        Some(object) => renew_object(alloc, standard, env, object, is_constant),
        None => Ok(()),
    }
}

fn renew_in(alloc: Global, state: &mut CheckState, is_constant: bool) -> Result<(), NoMemory>
    ensures { OnOk result (state.new ≡ renewed_in state.old is_constant state.old.object) }
{
    match &state.object {
        Some(object) => renew_by(
            alloc,
            &state.unit.labeller.predefined.standard,
            &mut state.env,
            &object.view,
            is_constant,
        ),
        None => Ok(()),
    }
}

/// Gives the region of the protected object the form that the next body sees, before that body: in the body of a function the components are
/// constants (ARM 9.5.1(2)). Bodies of one form that follow one another share a region.
///
/// # Errors
/// `NoMemory` if the allocator refuses memory.
pub fn renew_region(
    alloc: Global,
    state: &mut CheckState,
    heading: &AnalyzedHeading,
) -> Result<(), NoMemory>
    ensures { OnOk result (state.new ≡ renewed state.old heading.now) }
{
    renew_in(alloc, state, is_function(&heading.heading.returned))
}

fn fault_by(
    alloc: Global,
    standard: &StandardTypes,
    view: &View,
    barrier: &Expression,
) -> Result<Option<Fault>, NoMemory>
    ensures { IfOk result (λ fault. fault ≡ fault_by (protected_of view.now) (expression_model barrier.now)) }
{
    match protected_of(view) {
        Some(object) => barrier_fault(alloc, standard, object, barrier),
        None => Ok(None),
    }
}

/// What is wrong with the barrier of an entry's body in the protected object that the place is in.
///
/// # Errors
/// `NoMemory` if the allocator refuses memory.
pub fn barrier_fault_here(
    alloc: Global,
    state: &CheckState,
    barrier: &Expression,
) -> Result<Option<Fault>, NoMemory>
    ensures { IfOk result (λ fault. fault ≡ barrier_fault_here state.now (expression_model barrier.now)) }
{
    match &state.object {
        Some(object) => fault_by(
            alloc,
            &state.unit.labeller.predefined.standard,
            &object.view,
            barrier,
        ),
        None => Ok(None),
    }
}
