// Bodies that are found by their names alone: of tasks, protected objects, entries (ARM 9.1(8), 9.4(8), 9.5.2(8)).
ghost use Rattle.std.specs.Prelude.{◌≡◌, ◌<◌, length, option_map, slice_get, IfOk, MatchOption, None, OnOk, Some};
ghost use Rattle.std.specs.List.{remove};
ghost use Rattle.al_base_fault.specs.Judging.{map_ok};
ghost use Rattle.al_decl.specs.Checking.{at_place};
ghost use Rattle.al_decl_protected.specs.Bodies.{IsNamedFirst, body_by, body_effect, first_named, lone_body, lone_fault, named_body, named_duplicate, named_model, all_waiting, operations_waiting, with_operation};
ghost use Rattle.al_decl_protected.specs.Operations.{bare_head};
ghost use Rattle.al_decl.specs.Placing.{head_duplicate, with_awaiting};
ghost use Rattle.al_query.specs.Reads.{FromAnswers};
ghost use Rattle.al_query.specs.declared.answer.Completion.{Completion};
ghost use Rattle.al_view_typed.specs.DeclarationTrees.{declaration_model};

use crate::operation::bare_head;
use al_base::{Name, NoMemory, Place};
use al_base_fault::{CheckResult, CheckRule, Fault};
use al_decl::{Environment, fixed_duplicate, head_duplicate};
use al_decl_judged::{BodyHead, DefiningName, Uncompleted};
use al_overload_readings::copied_subprogram;
use al_query::{Answers, Recorder};
use al_view::{ObjectPlace, Operation, View, ViewKind};
use al_view_predefined::StandardTypes;
use al_view_typed::{DeclarationForm, TypedDeclaration};
use std::alloc::Global;

/// A body that completes what has this view, and what it does at its place.
#[derive(Drop)]
pub struct NamedBody {
    /// What it does at its place, if anything.
    pub effect: Option<TypedDeclaration>,
    /// The view of what it completes.
    pub view: View,
}

/// The index of the first declaration that waits under that name for such a body; `None` for a subprogram's body, which isn't found by its
/// name alone.
fn first_named(uncompleted: &Uncompleted, name: &[u8], head: &BodyHead) -> Option<usize>
    ensures { MatchOption result (first_named 0 name.now head.now uncompleted.now ≡ None) (IsNamedFirst name.now head.now uncompleted.now) }
{
    match head {
        BodyHead::Subprogram(_) => None,
        BodyHead::Entry => uncompleted.completed_by(name, head),
        BodyHead::Task => uncompleted.completed_by(name, head),
        BodyHead::Protected => uncompleted.completed_by(name, head),
    }
}

/// What is elaborated from a body on: a protected object.
fn body_effect(
    alloc: Global,
    line: usize,
    view: &View,
) -> Result<Option<TypedDeclaration>, NoMemory>
    ensures { IfOk result (λ effect. option_map declaration_model effect ≡ body_effect line view.now) }
{
    match view.kind() {
        ViewKind::OfProtected(object) => {
            let symbol = object.symbol.copy(alloc)?;
            let flag = ObjectPlace::Static { symbol, word: 0 };
            let form = DeclarationForm::Elaborated(flag);
            Ok(Some(TypedDeclaration::new(line, form)))
        }
        ViewKind::OfType(_) => Ok(None),
        ViewKind::OfSubtype(_) => Ok(None),
        ViewKind::OfObject(_) => Ok(None),
        ViewKind::OfComponent => Ok(None),
        ViewKind::OfNumber(_) => Ok(None),
        ViewKind::OfLiteral(_) => Ok(None),
        ViewKind::OfSubprogram(_) => Ok(None),
        ViewKind::OfTask(_) => Ok(None),
        ViewKind::OfPackage(_) => Ok(None),
    }
}

fn entry_duplicate<A: Answers>(
    alloc: Global,
    standard: &StandardTypes,
    env: &Environment,
    name: &DefiningName,
    recorder: &mut Recorder<A>,
) -> Result<Option<Fault>, NoMemory>
    requires { 0 < length env.now.scope.regions }
    ensures asked { recorder.new.asked ≡ recorder.old.asked }
    ensures answered { IfOk result (λ fault. FromAnswers recorder.old.log recorder.new.log (λ t. fault ≡ head_duplicate t env.now (bare_head name.now))) }
{
    let place = name.place;
    let name = Name::from_slice(alloc, name.name.as_slice())?;
    let heading = bare_head(alloc, DefiningName { name, place });
    head_duplicate(alloc, standard, env, &heading, recorder)
}

/// E301 at the name of such a body, if its region has a homograph.
fn named_duplicate<A: Answers>(
    alloc: Global,
    standard: &StandardTypes,
    env: &Environment,
    name: &DefiningName,
    head: &BodyHead,
    recorder: &mut Recorder<A>,
) -> Result<Option<Fault>, NoMemory>
    requires { 0 < length env.now.scope.regions }
    ensures asked { recorder.new.asked ≡ recorder.old.asked }
    ensures answered { IfOk result (λ fault. FromAnswers recorder.old.log recorder.new.log (λ t. fault ≡ named_duplicate t env.now name.now head.now)) }
{
    match head {
        BodyHead::Entry => entry_duplicate(alloc, standard, env, name, recorder),
        BodyHead::Task => fixed_duplicate(alloc, &env.scope, name, recorder),
        BodyHead::Protected => fixed_duplicate(alloc, &env.scope, name, recorder),
        BodyHead::Subprogram(_) => fixed_duplicate(alloc, &env.scope, name, recorder),
    }
}

fn lone_fault(place: Place, has_homograph: bool) -> Fault
    ensures { result ≡ lone_fault place has_homograph }
{
    let rule = if has_homograph {
        CheckRule::Duplicate
    } else {
        CheckRule::NotConformant
    };
    Fault { place, rule }
}

/// Removes the declaration at that index, which has its body now.
fn complete(
    alloc: Global,
    env: &mut Environment,
    line: usize,
    at: usize,
) -> Result<NamedBody, NoMemory>
    requires { at < length env.old.uncompleted }
    ensures env { OnOk result (env.new ≡ with_awaiting env.old (remove env.old.uncompleted at)) }
    ensures body { IfOk result (λ body. (c : Completion) → slice_get env.old.uncompleted at ≡ Some c → named_model body ≡ (body_effect line c.view, c.view)) }
    ensures depth { length env.new.scope.regions ≡ length env.old.scope.regions }
{
    let view = env.uncompleted.at(at).view.share()?;
    let effect = body_effect(alloc, line, &view)?;
    env.uncompleted.complete(at);
    Ok(NamedBody { effect, view })
}

/// The body of a task, of a protected object or of an entry, whose first token is on that line: what waits first under its name for such a
/// body waits no more.
/// # Errors
/// `NoMemory` if the allocator refuses memory. The inner error is that of a body that completes nothing: E301 at the name if its region has
/// a homograph, else E303 there.
pub fn check_named_body<A: Answers>(
    alloc: Global,
    standard: &StandardTypes,
    env: &mut Environment,
    line: usize,
    name: &DefiningName,
    head: &BodyHead,
    recorder: &mut Recorder<A>,
) -> Result<CheckResult<NamedBody>, NoMemory>
    requires { 0 < length env.old.scope.regions }
    ensures asked { recorder.new.asked ≡ recorder.old.asked }
    ensures answered { IfOk result (λ checked. FromAnswers recorder.old.log recorder.new.log (λ t. at_place env.new (map_ok named_model checked) ≡ named_body t env.old line name.now head.now)) }
    ensures depth { length env.new.scope.regions ≡ length env.old.scope.regions }
{
    match first_named(&env.uncompleted, name.name.as_slice(), head) {
        Some(at) => {
            let body = complete(alloc, env, line, at)?;
            Ok(Ok(body))
        }
        None => {
            let duplicate = named_duplicate(alloc, standard, env, name, head, recorder)?;
            Ok(Err(lone_fault(name.place, duplicate.is_some())))
        }
    }
}

/// Adds an operation, which waits for its body.
fn add_operation(
    alloc: Global,
    uncompleted: &mut Uncompleted,
    operation: &Operation,
) -> Result<(), NoMemory>
    ensures { OnOk result (uncompleted.new ≡ with_operation uncompleted.old operation.now) }
{
    let subprogram = copied_subprogram(alloc, &operation.subprogram)?;
    let view = View::new(alloc, ViewKind::OfSubprogram(subprogram))?;
    uncompleted.declare(operation.name.as_slice(), &view)
}

fn all_waiting(alloc: Global, operations: &[Operation]) -> Result<Uncompleted, NoMemory>
    ensures { IfOk result (λ uncompleted. uncompleted ≡ all_waiting operations.now) }
{
    let mut uncompleted = Uncompleted::new(alloc);
    for operation in operations {
        add_operation(alloc, &mut uncompleted, operation)?;
    }
    Ok(uncompleted)
}

/// The operations of a protected object, which wait for their bodies in its own body; of anything else none.
/// # Errors
/// `NoMemory` if the allocator refuses memory.
pub fn operations_waiting(alloc: Global, view: &ViewKind) -> Result<Uncompleted, NoMemory>
    ensures { IfOk result (λ uncompleted. uncompleted ≡ operations_waiting view.now) }
{
    match view {
        ViewKind::OfProtected(object) => all_waiting(alloc, object.operations.as_slice()),
        ViewKind::OfType(_) => Ok(Uncompleted::new(alloc)),
        ViewKind::OfSubtype(_) => Ok(Uncompleted::new(alloc)),
        ViewKind::OfObject(_) => Ok(Uncompleted::new(alloc)),
        ViewKind::OfComponent => Ok(Uncompleted::new(alloc)),
        ViewKind::OfNumber(_) => Ok(Uncompleted::new(alloc)),
        ViewKind::OfLiteral(_) => Ok(Uncompleted::new(alloc)),
        ViewKind::OfSubprogram(_) => Ok(Uncompleted::new(alloc)),
        ViewKind::OfTask(_) => Ok(Uncompleted::new(alloc)),
        ViewKind::OfPackage(_) => Ok(Uncompleted::new(alloc)),
    }
}
