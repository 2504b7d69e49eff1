// Declarations of numbers and subtypes at a place (ARM 3.2.2, 3.3.2).
ghost use Rattle.std.specs.Prelude.{◌≡◌, ◌<◌, length, option_map, IfOk};
ghost use Rattle.al_decl.specs.Checking.{at_place};
ghost use Rattle.al_decl.specs.Forms.{number_checked, subtype_checked};
ghost use Rattle.al_decl_judged.specs.StaticPieces.{static_of};
ghost use Rattle.al_base_fault.specs.Judging.{next, map_ok};
ghost use Rattle.al_query.specs.Reads.{FromAnswers};
ghost use Rattle.al_tree.specs.DeclarationViews.{indication_model};
ghost use Rattle.al_tree.specs.ExpressionViews.{expression_model};
ghost use Rattle.al_view_typed.specs.DeclarationTrees.{declaration_model};
ghost use Rattle.al_view_typed.specs.ExpressionViews.{typed_model};

use crate::ending::finish;
use crate::{Environment, PartAnalyzer, begin, begin_one, fixed_duplicate, fixed_duplicates};
use al_base::NoMemory;
use al_base_fault::CheckResult;
use al_decl_judged::{DefiningName, declare_numbers, declare_subtype, static_of};
use al_query::{Answers, Recorder};
use al_scope::Scope;
use al_tree::{Expression, SubtypeIndication};
use al_view::StaticValue;
use al_view_typed::{Typed, TypedDeclaration};
use std::alloc::Global;

/// The value of an expression that must be static; E304 if it isn't.
fn static_value(value: CheckResult<Typed>) -> CheckResult<StaticValue>
    ensures { result ≡ next (map_ok typed_model value) static_of }
{
    match value {
        Ok(value) => static_of(&value),
        Err(fault) => Err(fault),
    }
}

/// The value of named numbers at a place.
fn number_value<R: PartAnalyzer, A: Answers>(
    alloc: Global,
    analyzer: &R,
    scope: &Scope,
    value: &Expression,
    recorder: &mut Recorder<A>,
) -> Result<CheckResult<StaticValue>, NoMemory>
    ensures asked { recorder.new.asked ≡ recorder.old.asked }
    ensures answered { IfOk result (λ checked. FromAnswers recorder.old.log recorder.new.log (λ t. checked ≡ next ((R.reading analyzer.now t).number scope.now (expression_model value.now)) static_of)) }
{
    let value = analyzer.number(alloc, scope, value, recorder)?;
    Ok(static_value(value))
}

/// `names : constant := value;` (ARM 3.3.2).
/// # Errors
/// `NoMemory` if the allocator refuses memory. The inner error is the first of E301 at a name that has a homograph or is there twice, and
/// the fault of the value, which is E304 if it isn't static.
pub fn check_number<R: PartAnalyzer, A: Answers>(
    alloc: Global,
    analyzer: &R,
    env: &mut Environment,
    names: &[DefiningName],
    value: &Expression,
    recorder: &mut Recorder<A>,
) -> Result<CheckResult<Option<TypedDeclaration>>, NoMemory>
    requires { 0 < length env.old.scope.regions }
    ensures asked { recorder.new.asked ≡ recorder.old.asked }
    ensures answered { IfOk result (λ checked. FromAnswers recorder.old.log recorder.new.log (λ t. at_place env.new (map_ok (option_map declaration_model) checked) ≡ number_checked (R.reading analyzer.now t) t env.old names.now (expression_model value.now))) }
    ensures depth { length env.new.scope.regions ≡ length env.old.scope.regions }
{
    let duplicate = fixed_duplicates(alloc, &env.scope, names, recorder)?;
    begin(&mut env.scope, names)?;
    let value = number_value(alloc, analyzer, &env.scope, value, recorder)?;
    let declared = declare_numbers(alloc, &mut env.progress, names, duplicate, value)?;
    finish(env, declared)
}

/// `subtype name is indication;` (ARM 3.2.2).
/// # Errors
/// `NoMemory` if the allocator refuses memory. The inner error is the first of E301 at the name if its region has a homograph, and the
/// fault of the indication.
pub fn check_subtype<R: PartAnalyzer, A: Answers>(
    alloc: Global,
    analyzer: &R,
    env: &mut Environment,
    name: &DefiningName,
    indication: &SubtypeIndication,
    recorder: &mut Recorder<A>,
) -> Result<CheckResult<Option<TypedDeclaration>>, NoMemory>
    requires { 0 < length env.old.scope.regions }
    ensures asked { recorder.new.asked ≡ recorder.old.asked }
    ensures answered { IfOk result (λ checked. FromAnswers recorder.old.log recorder.new.log (λ t. at_place env.new (map_ok (option_map declaration_model) checked) ≡ subtype_checked (R.reading analyzer.now t) t env.old name.now (indication_model indication.now))) }
    ensures depth { length env.new.scope.regions ≡ length env.old.scope.regions }
{
    let duplicate = fixed_duplicate(alloc, &env.scope, name, recorder)?;
    begin_one(&mut env.scope, name)?;
    let of = analyzer.indication(alloc, &env.scope, indication, recorder)?;
    let declared = declare_subtype(alloc, &mut env.progress, name, duplicate, of)?;
    finish(env, declared)
}
