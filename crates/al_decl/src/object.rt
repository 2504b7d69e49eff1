// Object declarations at a place (ARM 3.3.1).
ghost use Rattle.std.specs.Prelude.{◌≡◌, ◌<◌, length, option_map, IfOk};
ghost use Rattle.al_decl.specs.Checking.{at_place, with_progress};
ghost use Rattle.al_decl.specs.Forms.{anonymous_array, first_read, objects_checked, type_read, value_read};
ghost use Rattle.al_decl_judged.specs.Declaring.{declared_model, joined};
ghost use Rattle.al_decl_judged.specs.DefiningNames.{names_of};
ghost use Rattle.al_decl_judged.specs.Objects.{new_objects, objects_declared};
ghost use Rattle.al_decl_judged.specs.Progressing.{with_all_counted};
ghost use Rattle.al_decl_judged.specs.declared.new_object.ObjectType.TheVariants as object_types;
ghost use Rattle.al_base_fault.specs.Judging.{both, next, map_ok};
ghost use Rattle.al_query.specs.Reads.{FromAnswers};
ghost use Rattle.al_tree.specs.DeclarationViews.{object_type_model};
ghost use Rattle.al_tree.specs.ExpressionViews.{expression_model};
ghost use Rattle.al_view_typed.specs.DeclarationTrees.{declaration_model};
ghost use Rattle.al_view_typed.specs.ExpressionViews.{typed_model};

use crate::definition::array_parts;
use crate::ending::finish;
use crate::{Environment, PartAnalyzer, begin, fixed_duplicates};
use al_base::NoMemory;
use al_base_fault::{CheckResult, Fault, both};
use al_decl_judged::{
    Declared, DefiningName, NewObject, ObjectType, Progress, declare_objects, new_objects,
};
use al_query::{Answers, Recorder};
use al_scope::Scope;
use al_tree::{Expression, ObjectType as ObjectTypeText};
use al_view::{Seq, SubtypeView};
use al_view_predefined::StandardTypes;
use al_view_typed::{Typed, TypedDeclaration};
use std::alloc::Global;

fn marked(of: CheckResult<SubtypeView>) -> CheckResult<ObjectType>
    ensures { result ≡ map_ok object_types.Marked of }
{
    match of {
        Ok(of) => Ok(ObjectType::Marked(of)),
        Err(fault) => Err(fault),
    }
}

fn anonymous(
    index: CheckResult<SubtypeView>,
    component: CheckResult<SubtypeView>,
) -> CheckResult<ObjectType>
    ensures { result ≡ map_ok anonymous_array (both index component) }
{
    match both(index, component) {
        Ok((index, component)) => Ok(ObjectType::AnonymousArray { index, component }),
        Err(fault) => Err(fault),
    }
}

/// What comes after the colon, at a place.
fn type_read<R: PartAnalyzer, A: Answers>(
    alloc: Global,
    analyzer: &R,
    scope: &Scope,
    of: &ObjectTypeText,
    recorder: &mut Recorder<A>,
) -> Result<CheckResult<ObjectType>, NoMemory>
    ensures asked { recorder.new.asked ≡ recorder.old.asked }
    ensures answered { IfOk result (λ checked. FromAnswers recorder.old.log recorder.new.log (λ t. checked ≡ type_read (R.reading analyzer.now t) scope.now (object_type_model of.now))) }
{
    match of {
        ObjectTypeText::Named(indication) => {
            let of = analyzer.indication(alloc, scope, indication, recorder)?;
            Ok(marked(of))
        }
        ObjectTypeText::Array(array) => {
            let (index, component) = array_parts(alloc, analyzer, scope, array, recorder)?;
            Ok(anonymous(index, component))
        }
    }
}

/// An object for each name, of a type that was checked.
fn objects_of(
    alloc: Global,
    standard: &StandardTypes,
    progress: &mut Progress,
    names: &[DefiningName],
    of: CheckResult<ObjectType>,
) -> Result<CheckResult<Seq<NewObject>>, NoMemory>
    ensures { IfOk result (λ checked. joined progress.new checked ≡ map_ok (λ os. (with_all_counted progress.old (names_of names.now), os)) (next of (λ o. new_objects progress.old o names.now))) }
{
    match of {
        Ok(of) => new_objects(alloc, standard, progress, &of, names),
        Err(fault) => Ok(Err(fault)),
    }
}

/// The value of these objects, at the subtype of the first.
fn first_value<R: PartAnalyzer, A: Answers>(
    alloc: Global,
    analyzer: &R,
    scope: &Scope,
    objects: &[NewObject],
    value: &Expression,
    recorder: &mut Recorder<A>,
) -> Result<Option<CheckResult<Typed>>, NoMemory>
    ensures asked { recorder.new.asked ≡ recorder.old.asked }
    ensures answered { IfOk result (λ checked. FromAnswers recorder.old.log recorder.new.log (λ t. option_map (map_ok typed_model) checked ≡ first_read (R.reading analyzer.now t) scope.now objects.now (expression_model value.now))) }
{
    match objects.first() {
        Some(object) => {
            let value = analyzer.value(alloc, scope, &object.subtype, value, recorder)?;
            Ok(Some(value))
        }
        None => Ok(None),
    }
}

/// The value of objects that were checked.
fn value_read<R: PartAnalyzer, A: Answers>(
    alloc: Global,
    analyzer: &R,
    scope: &Scope,
    objects: &CheckResult<Seq<NewObject>>,
    initial: &Option<Expression>,
    recorder: &mut Recorder<A>,
) -> Result<Option<CheckResult<Typed>>, NoMemory>
    ensures asked { recorder.new.asked ≡ recorder.old.asked }
    ensures answered { IfOk result (λ checked. FromAnswers recorder.old.log recorder.new.log (λ t. option_map (map_ok typed_model) checked ≡ value_read (R.reading analyzer.now t) scope.now objects.now (option_map expression_model initial.now))) }
{
    match (initial, objects) {
        (None, _) => Ok(None),
        (Some(_), Err(fault)) => Ok(Some(Err(*fault))),
        (Some(value), Ok(objects)) => {
            first_value(alloc, analyzer, scope, objects.as_slice(), value, recorder)
        }
    }
}

/// Drops objects.
fn let_go(_objects: CheckResult<Seq<NewObject>>) {}

/// Objects that were checked, with their value.
fn valued<R: PartAnalyzer, A: Answers>(
    alloc: Global,
    standard: &StandardTypes,
    analyzer: &R,
    env: &mut Environment,
    line: usize,
    is_constant: bool,
    duplicate: Option<Fault>,
    names: &[DefiningName],
    objects: CheckResult<Seq<NewObject>>,
    initial: &Option<Expression>,
    recorder: &mut Recorder<A>,
) -> Result<CheckResult<Declared>, NoMemory>
    ensures asked { recorder.new.asked ≡ recorder.old.asked }
    ensures answered { IfOk result (λ checked. FromAnswers recorder.old.log recorder.new.log (λ t. joined env.new.progress (map_ok declared_model checked) ≡ objects_declared env.old.progress line is_constant duplicate names.now objects (value_read (R.reading analyzer.now t) env.old.scope objects (option_map expression_model initial.now)))) }
    ensures rest { env.new ≡ with_progress env.old env.new.progress }
{
    match value_read(alloc, analyzer, &env.scope, &objects, initial, recorder) {
        Ok(value) => declare_objects(
            alloc,
            standard,
            &mut env.progress,
            line,
            is_constant,
            duplicate,
            names,
            objects,
            value,
        ),
        Err(none) => {
            let_go(objects);
            Err(none)
        }
    }
}

/// `names : [constant] type [:= value];`, whose first token is on that line (ARM 3.3.1).
/// # Errors
/// `NoMemory` if the allocator refuses memory. The inner error is the first of E301 at a name that has a homograph or is there twice, E309
/// at the first name of a constant without a value, and the faults of the type and the value.
pub fn check_objects<R: PartAnalyzer, A: Answers>(
    alloc: Global,
    standard: &StandardTypes,
    analyzer: &R,
    env: &mut Environment,
    line: usize,
    names: &[DefiningName],
    is_constant: bool,
    of: &ObjectTypeText,
    initial: &Option<Expression>,
    recorder: &mut Recorder<A>,
) -> Result<CheckResult<Option<TypedDeclaration>>, NoMemory>
    requires { 0 < length env.old.scope.regions }
    ensures asked { recorder.new.asked ≡ recorder.old.asked }
    ensures answered { IfOk result (λ checked. FromAnswers recorder.old.log recorder.new.log (λ t. at_place env.new (map_ok (option_map declaration_model) checked) ≡ objects_checked (R.reading analyzer.now t) t env.old line names.now is_constant (object_type_model of.now) (option_map expression_model initial.now))) }
    ensures depth { length env.new.scope.regions ≡ length env.old.scope.regions }
{
    let duplicate = fixed_duplicates(alloc, &env.scope, names, recorder)?;
    begin(&mut env.scope, names)?;
    let of = type_read(alloc, analyzer, &env.scope, of, recorder)?;
    let objects = objects_of(alloc, standard, &mut env.progress, names, of)?;
    let declared = valued(
        alloc,
        standard,
        analyzer,
        env,
        line,
        is_constant,
        duplicate,
        names,
        objects,
        initial,
        recorder,
    )?;
    finish(env, declared)
}
