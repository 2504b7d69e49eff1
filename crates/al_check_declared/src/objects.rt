// Tasks and protected objects at the place that the check of a unit has reached (ARM 9.1, 9.4, 9.5.2).
ghost use Rattle.std.specs.Prelude.{◌≡◌, ◌<◌, length, map, IfOk};
ghost use Rattle.al_base_fault.specs.Judging.{map_ok};
ghost use Rattle.al_check_declared.specs.ObjectsHere.{entry_head, object_entered, object_here, task_head, task_here};
ghost use Rattle.al_query.specs.Reads.{FromAnswers};
ghost use Rattle.al_stmts.specs.Views.{effects_model};
ghost use Rattle.al_tree.specs.DeclarationViews.{protected_model, task_model};
ghost use Rattle.al_tree.specs.ExpressionViews.{expression_model};
ghost use Rattle.al_tree.specs.Lexemes.{identifier_label};
ghost use Rattle.al_tree.specs.StatementViews.{operation_bodies_of, operation_body_model};

use crate::barrier_fault_here;
use crate::settled::{Effects, settle_named, settle_object};
use al_base::NoMemory;
use al_base_fault::unless;
use al_check_here::{BodyRole, CheckState, settle_effect};
use al_decl::defining_name;
use al_decl_ada::AdaPartAnalyzer;
use al_decl_judged::BodyHead;
use al_decl_protected::{check_named_body, check_protected, check_task};
use al_query::{Answers, Recorder};
use al_tree::{Expression, Identifier, OperationBody, ProtectedDefinition, TaskDeclaration};

/// Judges the declaration of a task (ARM 9.1).
///
/// # Errors
/// `NoMemory` if the allocator refuses memory.
pub fn declare_task<A: Answers>(
    state: &mut CheckState,
    task: &TaskDeclaration,
    recorder: &mut Recorder<A>,
) -> Result<Effects, NoMemory>
    requires { 0 < length state.old.env.scope.regions }
    ensures asked { recorder.new.asked ≡ recorder.old.asked }
    ensures answered { IfOk result (λ checked. FromAnswers recorder.old.log recorder.new.log (λ t. (state.new, map_ok effects_model checked) ≡ task_here t state.old (task_model task.now))) }
{
    let labeller = &state.unit.labeller;
    let packages = state.unit.packages.as_slice();
    let unit = &state.unit.own.unit;
    let parts = AdaPartAnalyzer {
        labeller,
        packages,
        unit,
    };
    let checked = check_task(labeller.alloc, &parts, &mut state.env, task, recorder)?;
    settle_effect(state.unit.labeller.alloc, state, checked)
}

/// Judges the declaration of a protected object, whose first token is on line `line` (ARM 9.4).
///
/// # Errors
/// `NoMemory` if the allocator refuses memory.
pub fn declare_object<A: Answers>(
    state: &mut CheckState,
    line: usize,
    object: &ProtectedDefinition,
    recorder: &mut Recorder<A>,
) -> Result<Effects, NoMemory>
    requires { 0 < length state.old.env.scope.regions }
    ensures asked { recorder.new.asked ≡ recorder.old.asked }
    ensures answered { IfOk result (λ checked. FromAnswers recorder.old.log recorder.new.log (λ t. (state.new, map_ok effects_model checked) ≡ object_here t state.old line (protected_model object.now))) }
{
    let labeller = &state.unit.labeller;
    let packages = state.unit.packages.as_slice();
    let unit = &state.unit.own.unit;
    let parts = AdaPartAnalyzer {
        labeller,
        packages,
        unit,
    };
    let checked = check_protected(
        labeller.alloc,
        &labeller.predefined.standard,
        &parts,
        &mut state.env,
        line,
        object,
        recorder,
    )?;
    settle_effect(state.unit.labeller.alloc, state, checked)
}

/// Judges what precedes the `is` of a task's body (ARM 9.1).
///
/// # Errors
/// `NoMemory` if the allocator refuses memory.
pub fn task_head<A: Answers>(
    state: &mut CheckState,
    task_name: &Identifier,
    recorder: &mut Recorder<A>,
) -> Result<Effects, NoMemory>
    requires { 0 < length state.old.env.scope.regions }
    ensures asked { recorder.new.asked ≡ recorder.old.asked }
    ensures answered { IfOk result (λ checked. FromAnswers recorder.old.log recorder.new.log (λ t. (state.new, map_ok effects_model checked) ≡ task_head t state.old (identifier_label task_name.now))) }
{
    let labeller = &state.unit.labeller;
    let name = defining_name(labeller.alloc, task_name)?;
    let checked = check_named_body(
        labeller.alloc,
        &labeller.predefined.standard,
        &mut state.env,
        name.place.line as usize,
        &name,
        &BodyHead::Task,
        recorder,
    )?;
    settle_named(state, BodyRole::Task, name, checked)
}

/// Judges what precedes the `is` of an entry's body: its name and its barrier (ARM 9.5.2).
///
/// # Errors
/// `NoMemory` if the allocator refuses memory.
pub fn entry_head<A: Answers>(
    state: &mut CheckState,
    entry_name: &Identifier,
    barrier: &Expression,
    recorder: &mut Recorder<A>,
) -> Result<Effects, NoMemory>
    requires { 0 < length state.old.env.scope.regions }
    ensures asked { recorder.new.asked ≡ recorder.old.asked }
    ensures answered { IfOk result (λ checked. FromAnswers recorder.old.log recorder.new.log (λ t. (state.new, map_ok effects_model checked) ≡ entry_head t state.old (identifier_label entry_name.now) (expression_model barrier.now))) }
{
    let wrong = barrier_fault_here(state.unit.labeller.alloc, state, barrier)?;
    let labeller = &state.unit.labeller;
    let name = defining_name(labeller.alloc, entry_name)?;
    let checked = check_named_body(
        labeller.alloc,
        &labeller.predefined.standard,
        &mut state.env,
        name.place.line as usize,
        &name,
        &BodyHead::Entry,
        recorder,
    )?;
    settle_named(state, BodyRole::Entry, name, unless(wrong, checked))
}

/// Judges what precedes the operations of a protected body, whose first token is on line `line` (ARM 9.4), and enters that body.
///
/// # Errors
/// `NoMemory` if the allocator refuses memory.
pub fn enter_object<A: Answers>(
    state: &mut CheckState,
    line: usize,
    object_name: &Identifier,
    operations: &[OperationBody],
    recorder: &mut Recorder<A>,
) -> Result<Effects, NoMemory>
    requires { 0 < length state.old.env.scope.regions }
    ensures asked { recorder.new.asked ≡ recorder.old.asked }
    ensures answered { IfOk result (λ checked. FromAnswers recorder.old.log recorder.new.log (λ t. (state.new, map_ok effects_model checked) ≡ object_entered t state.old line (identifier_label object_name.now) (operation_bodies_of (map operation_body_model operations.now)))) }
{
    let labeller = &state.unit.labeller;
    let name = defining_name(labeller.alloc, object_name)?;
    let checked = check_named_body(
        labeller.alloc,
        &labeller.predefined.standard,
        &mut state.env,
        line,
        &name,
        &BodyHead::Protected,
        recorder,
    )?;
    settle_object(state, operations, checked)
}
