// Declarations of tasks at a place (ARM 9.1).
ghost use Rattle.std.specs.Prelude.{◌≡◌, ◌<◌, length, option_map, IfOk, OnOk};
ghost use Rattle.al_base_fault.specs.Judging.{map_ok};
ghost use Rattle.al_decl.specs.Checking.{at_place};
ghost use Rattle.al_decl_protected.specs.Tasks.{task_checked, task_effect, task_named, task_placed, task_view};
ghost use Rattle.al_query.specs.Reads.{FromAnswers};
ghost use Rattle.al_tree.specs.DeclarationViews.{task_model};
ghost use Rattle.al_view_typed.specs.DeclarationTrees.{declaration_model};

use crate::level::level_named;
use crate::placing::place;
use al_base::NoMemory;
use al_base_fault::CheckResult;
use al_decl::{Environment, PartAnalyzer, defining_name};
use al_decl_judged::DefiningName;
use al_query::{Answers, Recorder};
use al_tree::TaskDeclaration;
use al_view::{Priority, Symbol, TaskView, View, ViewKind};
use al_view_typed::{DeclarationForm, TypedDeclaration};
use std::alloc::Global;

fn task_view(alloc: Global, symbol: &Symbol, priority: Priority) -> Result<View, NoMemory>
    ensures { IfOk result (λ view. view ≡ task_view symbol.now priority) }
{
    let symbol = symbol.copy(alloc)?;
    let view = View::new(alloc, ViewKind::OfTask(TaskView { symbol, priority }))?;
    Ok(view)
}

fn task_effect(line: usize, symbol: Symbol, priority: Priority) -> TypedDeclaration
    ensures { declaration_model result ≡ task_effect line symbol priority }
{
    TypedDeclaration::new(line, DeclarationForm::Task { symbol, priority })
}

/// A task of that priority, whose first token is on that line.
fn place_task(
    alloc: Global,
    env: &mut Environment,
    line: usize,
    name: &DefiningName,
    priority: Priority,
) -> Result<Option<TypedDeclaration>, NoMemory>
    requires { 0 < length env.old.scope.regions }
    ensures env { OnOk result (env.new ≡ (task_placed env.old line name.now priority).0) }
    ensures effect { IfOk result (λ done. option_map declaration_model done ≡ (task_placed env.old line name.now priority).1) }
    ensures depth { length env.new.scope.regions ≡ length env.old.scope.regions }
{
    let symbol = env.progress.next_symbol(alloc, name.name.as_slice())?;
    let view = task_view(alloc, &symbol, priority)?;
    let effect = task_effect(line, symbol, priority);
    place(alloc, env, name.name.as_slice(), view, effect)
}

/// A task by its level, if that is right.
fn leveled(
    alloc: Global,
    env: &mut Environment,
    line: usize,
    name: &DefiningName,
    level: CheckResult<Priority>,
) -> Result<CheckResult<Option<TypedDeclaration>>, NoMemory>
    requires { 0 < length env.old.scope.regions }
    ensures made { IfOk result (λ checked. at_place env.new (map_ok (option_map declaration_model) checked) ≡ map_ok (task_placed env.old line name.now) level) }
    ensures depth { length env.new.scope.regions ≡ length env.old.scope.regions }
{
    match level {
        Ok(priority) => {
            let effect = place_task(alloc, env, line, name, priority)?;
            Ok(Ok(effect))
        }
        Err(fault) => Ok(Err(fault)),
    }
}

fn task_named<R: PartAnalyzer, A: Answers>(
    alloc: Global,
    analyzer: &R,
    env: &mut Environment,
    line: usize,
    name: &DefiningName,
    task: &TaskDeclaration,
    recorder: &mut Recorder<A>,
) -> Result<CheckResult<Option<TypedDeclaration>>, NoMemory>
    requires { 0 < length env.old.scope.regions }
    ensures asked { recorder.new.asked ≡ recorder.old.asked }
    ensures answered { IfOk result (λ checked. FromAnswers recorder.old.log recorder.new.log (λ t. at_place env.new (map_ok (option_map declaration_model) checked) ≡ task_named (R.reading analyzer.now t) t env.old line name.now (task_model task.now))) }
    ensures depth { length env.new.scope.regions ≡ length env.old.scope.regions }
{
    let usual = Priority::standard();
    let level = level_named(alloc, analyzer, env, name, usual, &task.aspect, recorder)?;
    leveled(alloc, env, line, name, level)
}

/// `task name [with Priority => value];`.
/// # Errors
/// `NoMemory` if the allocator refuses memory. The inner error is the first of E301 at the name, E601 there below library level, and the
/// faults of the priority.
pub fn check_task<R: PartAnalyzer, A: Answers>(
    alloc: Global,
    analyzer: &R,
    env: &mut Environment,
    task: &TaskDeclaration,
    recorder: &mut Recorder<A>,
) -> Result<CheckResult<Option<TypedDeclaration>>, NoMemory>
    requires { 0 < length env.old.scope.regions }
    ensures asked { recorder.new.asked ≡ recorder.old.asked }
    ensures answered { IfOk result (λ checked. FromAnswers recorder.old.log recorder.new.log (λ t. at_place env.new (map_ok (option_map declaration_model) checked) ≡ task_checked (R.reading analyzer.now t) t env.old (task_model task.now))) }
    ensures depth { length env.new.scope.regions ≡ length env.old.scope.regions }
{
    let name = defining_name(alloc, &task.name)?;
    let line = task.opening.line as usize;
    task_named(alloc, analyzer, env, line, &name, task, recorder)
}
