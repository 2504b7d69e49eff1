// Priorities of tasks and ceilings of protected objects (ARM D.1, D.3).
ghost use Rattle.std.specs.Prelude.{◌≡◌, ◌<◌, length, option_map, IfOk, OnOk};
ghost use Rattle.al_base_fault.specs.Judging.{next, map_ok};
ghost use Rattle.al_decl.specs.Checking.{inside_one};
ghost use Rattle.al_decl_protected.specs.Levels.{aspect_level, is_priority, level_at, level_named, level_of, level_read, library_fault, name_fault, out_of_limits, wrong_aspect};
ghost use Rattle.al_query.specs.Reads.{FromAnswers};
ghost use Rattle.al_tree.specs.DeclarationViews.{aspect_model};
ghost use Rattle.al_view_typed.specs.ExpressionViews.{typed_model};

use al_base::{NoMemory, Place};
use al_base_fault::{CheckResult, CheckRule, Fault, earlier, unless};
use al_decl::{Environment, PartAnalyzer, begin_one, fixed_duplicate};
use al_decl_judged::{DefiningName, Progress, place_label, static_of};
use al_query::{Answers, Recorder};
use al_scope::Scope;
use al_tree::Aspect;
use al_view::{Priority, StaticValue};
use al_view_typed::Typed;
use std::alloc::Global;

fn out_of_limits(place: Place) -> Fault
    ensures { result ≡ out_of_limits place }
{
    let rule = CheckRule::OutOfLimits;
    Fault { place, rule }
}

/// The priority of this value, whose expression is at that place; E305 outside of 0 to 30.
fn level_at(place: Place, value: StaticValue) -> CheckResult<Priority>
    ensures { result ≡ level_at place value }
{
    if value.word < 0 {
        return Err(out_of_limits(place));
    }
    match Priority::new(value.word.unsigned_abs()) {
        Some(level) => Ok(level),
        None => Err(out_of_limits(place)),
    }
}

/// The priority that an expression is; E304 if it isn't static.
fn level_of(value: &Typed) -> CheckResult<Priority>
    ensures { result ≡ level_of (typed_model value.now) }
{
    match static_of(value) {
        Ok(level) => level_at(place_label(value), level),
        Err(fault) => Err(fault),
    }
}

fn level_in(value: CheckResult<Typed>) -> CheckResult<Priority>
    ensures { result ≡ next (map_ok typed_model value) level_of }
{
    match value {
        Ok(value) => level_of(&value),
        Err(fault) => Err(fault),
    }
}

fn is_priority(aspect: &Aspect) -> bool
    ensures { result ≡ is_priority (aspect_model aspect.now) }
{
    aspect.name.name.as_slice() == b"priority".as_slice()
}

fn wrong_aspect(aspect: &Aspect) -> Fault
    ensures { result ≡ wrong_aspect (aspect_model aspect.now) }
{
    let rule = CheckRule::WrongKind;
    Fault {
        place: aspect.name.place,
        rule,
    }
}

/// The level of an aspect, which must be Priority: E404 at the identifier of another one.
fn aspect_level<R: PartAnalyzer, A: Answers>(
    alloc: Global,
    analyzer: &R,
    scope: &Scope,
    aspect: &Aspect,
    recorder: &mut Recorder<A>,
) -> Result<CheckResult<Priority>, NoMemory>
    ensures asked { recorder.new.asked ≡ recorder.old.asked }
    ensures answered { IfOk result (λ level. FromAnswers recorder.old.log recorder.new.log (λ t. level ≡ aspect_level (R.reading analyzer.now t) scope.now (aspect_model aspect.now))) }
{
    if is_priority(aspect) {
        let value = analyzer.priority(alloc, scope, &aspect.value, recorder)?;
        return Ok(level_in(value));
    }
    Ok(Err(wrong_aspect(aspect)))
}

fn level_read<R: PartAnalyzer, A: Answers>(
    alloc: Global,
    analyzer: &R,
    scope: &Scope,
    usual: Priority,
    aspect: &Option<Aspect>,
    recorder: &mut Recorder<A>,
) -> Result<CheckResult<Priority>, NoMemory>
    ensures asked { recorder.new.asked ≡ recorder.old.asked }
    ensures answered { IfOk result (λ level. FromAnswers recorder.old.log recorder.new.log (λ t. level ≡ level_read (R.reading analyzer.now t) scope.now usual (option_map aspect_model aspect.now))) }
{
    match aspect {
        Some(aspect) => aspect_level(alloc, analyzer, scope, aspect, recorder),
        None => Ok(Ok(usual)),
    }
}

/// E601 at the name of what is declared below library level.
fn library_fault(progress: &Progress, place: Place) -> Option<Fault>
    ensures { result ≡ library_fault progress.now place }
{
    if progress.is_library_level() {
        return None;
    }
    let rule = CheckRule::NotLibraryLevel;
    Some(Fault { place, rule })
}

fn name_fault<A: Answers>(
    alloc: Global,
    env: &Environment,
    name: &DefiningName,
    recorder: &mut Recorder<A>,
) -> Result<Option<Fault>, NoMemory>
    requires { 0 < length env.now.scope.regions }
    ensures asked { recorder.new.asked ≡ recorder.old.asked }
    ensures answered { IfOk result (λ fault. FromAnswers recorder.old.log recorder.new.log (λ t. fault ≡ name_fault t env.now name.now)) }
{
    let duplicate = fixed_duplicate(alloc, &env.scope, name, recorder)?;
    Ok(earlier(duplicate, library_fault(&env.progress, name.place)))
}

/// The level of a task or protected object, whose name is begun and whose aspect is read there. Without an aspect it is the usual one. It
/// has the first fault of name and aspect.
pub(crate) fn level_named<R: PartAnalyzer, A: Answers>(
    alloc: Global,
    analyzer: &R,
    env: &mut Environment,
    name: &DefiningName,
    usual: Priority,
    aspect: &Option<Aspect>,
    recorder: &mut Recorder<A>,
) -> Result<CheckResult<Priority>, NoMemory>
    requires { 0 < length env.old.scope.regions }
    ensures asked { recorder.new.asked ≡ recorder.old.asked }
    ensures answered { IfOk result (λ level. FromAnswers recorder.old.log recorder.new.log (λ t. level ≡ level_named (R.reading analyzer.now t) t env.old name.now usual (option_map aspect_model aspect.now))) }
    ensures begun { OnOk result (env.new ≡ inside_one env.old name.now) }
    ensures depth { length env.new.scope.regions ≡ length env.old.scope.regions }
{
    let fault = name_fault(alloc, env, name, recorder)?;
    begin_one(&mut env.scope, name)?;
    let level = level_read(alloc, analyzer, &env.scope, usual, aspect, recorder)?;
    Ok(unless(fault, level))
}
