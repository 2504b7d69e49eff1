// Declarations of protected objects at a place (ARM 9.4).
ghost use Rattle.std.specs.Prelude.{◌≡◌, ◌<◌, ℕ, List, length, map, option_map, IfOk, OnOk, Some};
ghost use Rattle.al_base_fault.specs.Judging.{map_ok, next};
ghost use Rattle.al_decl.specs.Checking.{at_place, with_progress, with_scope};
ghost use Rattle.al_decl.specs.Inner.{in_region};
ghost use Rattle.al_decl_protected.specs.Checks.{StaysInner, left_inside, parts_model, so_far};
ghost use Rattle.al_decl_protected.specs.Components.{components_checked, private_list, private_model};
ghost use Rattle.al_decl_protected.specs.Objects.{inside_after, inside_checked, named_end, nothing_inside, object_defined, object_effect, object_end, object_ended, object_leveled, object_named, object_placed, object_view, protected_checked};
ghost use Rattle.al_query.specs.Reads.{FromAnswers};
ghost use Rattle.al_tree.specs.DeclarationViews.{protected_component_model, protected_model, protected_private_model};
ghost use Rattle.al_tree.specs.Lexemes.{identifier_label};
ghost use Rattle.al_view_typed.specs.DeclarationTrees.{ComponentValueTree, SingleProtected, component_value_model, declaration_model};

use crate::components::{PrivateComponents, check_components};
use crate::level::level_named;
use crate::operation::check_operations;
use crate::placing::place;
use al_base::NoMemory;
use al_base_fault::{CheckResult, Fault};
use al_decl::{Environment, PartAnalyzer, defining_name, enter_region, leave_region};
use al_decl_judged::DefiningName;
use al_query::{Answers, Recorder};
use al_stmts::{NameAtEnd, end_fault};
use al_tree::{Identifier, ProtectedComponent, ProtectedDefinition, ProtectedPrivatePart};
use al_view::{
    Component, Operation, Priority, ProtectedView, Seq, Symbol, TypeView, Types, View, ViewKind,
};
use al_view_predefined::StandardTypes;
use al_view_typed::{ComponentValue, DeclarationForm, TypedDeclaration};
use std::alloc::Global;

/// What is inside a protected object: its operations and its components.
#[derive(Drop)]
pub struct ObjectParts {
    /// The operations, in source order.
    pub operations: Seq<Operation>,
    /// The components.
    pub components: PrivateComponents,
}

impl ObjectParts {
    /// Nothing so far.
    fn new(alloc: Global) -> ObjectParts
        ensures { parts_model result ≡ nothing_inside }
    {
        ObjectParts {
            operations: Seq::empty(alloc),
            components: PrivateComponents::new(alloc),
        }
    }
}

/// Adds the components of the private part, if there is one.
fn check_private<R: PartAnalyzer, A: Answers>(
    alloc: Global,
    standard: &StandardTypes,
    analyzer: &R,
    env: &mut Environment,
    components: &mut PrivateComponents,
    part: &Option<ProtectedPrivatePart>,
    recorder: &mut Recorder<A>,
) -> Result<CheckResult<()>, NoMemory>
    requires { 0 < length env.old.scope.regions }
    ensures asked { recorder.new.asked ≡ recorder.old.asked }
    ensures answered { IfOk result (λ checked. FromAnswers recorder.old.log recorder.new.log (λ t. so_far (private_model components.new) checked ≡ components_checked (R.reading analyzer.now t) t env.old.scope (private_model components.old) (private_list (option_map protected_private_model part.now)))) }
    ensures rest { env.new ≡ with_scope env.old env.new.scope }
    ensures outer { OnOk result (StaysInner env.old.scope env.new.scope) }
    ensures depth { length env.new.scope.regions ≡ length env.old.scope.regions }
{
    match part {
        Some(part) => {
            let scope = &mut env.scope;
            let texts = part.components.as_slice();
            check_components(
                alloc, standard, analyzer, scope, components, texts, recorder,
            )
        }
        None => Ok(Ok(())),
    }
}

/// Adds the operations, and then the components, in a region that is entered.
fn check_parts<R: PartAnalyzer, A: Answers>(
    alloc: Global,
    standard: &StandardTypes,
    analyzer: &R,
    env: &mut Environment,
    symbol: &Symbol,
    parts: &mut ObjectParts,
    object: &ProtectedDefinition,
    recorder: &mut Recorder<A>,
) -> Result<CheckResult<()>, NoMemory>
    requires { 0 < length env.old.scope.regions }
    ensures asked { recorder.new.asked ≡ recorder.old.asked }
    ensures answered { IfOk result (λ checked. FromAnswers recorder.old.log recorder.new.log (λ t. left_inside env.new.progress (parts_model parts.new) checked ≡ inside_after (R.reading analyzer.now t) t env.old symbol.now (parts_model parts.old) (protected_model object.now))) }
    ensures rest { OnOk result (env.new ≡ with_progress (with_scope env.old env.new.scope) env.new.progress) }
    ensures outer { OnOk result (StaysInner env.old.scope env.new.scope) }
    ensures depth { OnOk result (length env.new.scope.regions ≡ length env.old.scope.regions) }
{
    let operations = &mut parts.operations;
    let texts = object.operations.as_slice();
    match check_operations(
        alloc, standard, analyzer, env, symbol, operations, texts, recorder,
    )? {
        Ok(()) => {
            let components = &mut parts.components;
            let part = &object.private_part;
            check_private(alloc, standard, analyzer, env, components, part, recorder)
        }
        Err(fault) => Ok(Err(fault)),
    }
}

/// Adds the operations and the components in a region of their own, which is left again.
fn check_inside<R: PartAnalyzer, A: Answers>(
    alloc: Global,
    standard: &StandardTypes,
    analyzer: &R,
    env: &mut Environment,
    symbol: &Symbol,
    parts: &mut ObjectParts,
    object: &ProtectedDefinition,
    recorder: &mut Recorder<A>,
) -> Result<CheckResult<()>, NoMemory>
    ensures asked { recorder.new.asked ≡ recorder.old.asked }
    ensures answered { IfOk result (λ checked. FromAnswers recorder.old.log recorder.new.log (λ t. left_inside env.new.progress (parts_model parts.new) checked ≡ inside_after (R.reading analyzer.now t) t (with_scope env.old (in_region env.old.scope)) symbol.now (parts_model parts.old) (protected_model object.now))) }
    ensures rest { OnOk result (env.new ≡ with_progress env.old env.new.progress) }
{
    enter_region(alloc, &mut env.scope)?;
    let checked = check_parts(
        alloc, standard, analyzer, env, symbol, parts, object, recorder,
    )?;
    leave_region(&mut env.scope);
    Ok(checked)
}

/// What is inside a protected object, or the first rule that is broken there.
fn parts_at<R: PartAnalyzer, A: Answers>(
    alloc: Global,
    standard: &StandardTypes,
    analyzer: &R,
    env: &mut Environment,
    symbol: &Symbol,
    object: &ProtectedDefinition,
    recorder: &mut Recorder<A>,
) -> Result<CheckResult<ObjectParts>, NoMemory>
    ensures asked { recorder.new.asked ≡ recorder.old.asked }
    ensures answered { IfOk result (λ parts. FromAnswers recorder.old.log recorder.new.log (λ t. map_ok (λ p. (env.new.progress, parts_model p)) parts ≡ inside_checked (R.reading analyzer.now t) t env.old symbol.now (protected_model object.now))) }
    ensures rest { OnOk result (env.new ≡ with_progress env.old env.new.progress) }
{
    let mut parts = ObjectParts::new(alloc);
    match check_inside(
        alloc, standard, analyzer, env, symbol, &mut parts, object, recorder,
    ) {
        Ok(Ok(())) => Ok(Ok(parts)),
        Ok(Err(fault)) => Ok(Err(fault)),
        Err(none) => Err(none),
    }
}

fn object_view(
    alloc: Global,
    symbol: &Symbol,
    ceiling: Priority,
    operations: Seq<Operation>,
    components: Seq<Component>,
    types: Seq<TypeView>,
) -> Result<View, NoMemory>
    ensures { (words : ℕ) (values : List ComponentValueTree) → IfOk result (λ view. view ≡ object_view symbol.now ceiling (record { operations = operations; private_part = record { components = components; types = types; words = words; values = values } })) }
{
    let symbol = symbol.copy(alloc)?;
    let types = Types::new(alloc, types)?;
    let view = View::new(
        alloc,
        ViewKind::OfProtected(ProtectedView {
            symbol,
            operations,
            components,
            types,
            ceiling,
        }),
    )?;
    Ok(view)
}

fn object_effect(line: usize, symbol: Symbol, values: Vec<ComponentValue>) -> TypedDeclaration
    ensures { declaration_model result ≡ record { line = line; form = SingleProtected symbol (map component_value_model values.items) } }
{
    TypedDeclaration::new(line, DeclarationForm::Protected { symbol, values })
}

/// A protected object with what is inside it.
fn place_object(
    alloc: Global,
    env: &mut Environment,
    line: usize,
    name: &DefiningName,
    symbol: Symbol,
    ceiling: Priority,
    parts: ObjectParts,
) -> Result<Option<TypedDeclaration>, NoMemory>
    requires { 0 < length env.old.scope.regions }
    ensures env { OnOk result (env.new ≡ (object_placed env.old line name.now symbol ceiling (parts_model parts)).0) }
    ensures effect { IfOk result (λ done. option_map declaration_model done ≡ (object_placed env.old line name.now symbol ceiling (parts_model parts)).1) }
    ensures depth { length env.new.scope.regions ≡ length env.old.scope.regions }
{
    let ObjectParts {
        operations,
        components,
    } = parts;
    let PrivateComponents {
        components,
        types,
        words,
        values,
    } = components;
    env.progress.take_protected(alloc, &symbol, words, ceiling)?;
    let view = object_view(alloc, &symbol, ceiling, operations, components, types)?;
    let effect = object_effect(line, symbol, values);
    place(alloc, env, name.name.as_slice(), view, effect)
}

fn name_at_end(name: &Option<Identifier>) -> Option<NameAtEnd<'_>>
    ensures { option_map (λ e. (e.place, e.spelled.now)) result ≡ option_map named_end (option_map identifier_label name.now) }
{
    match name {
        Some(name) => Some(NameAtEnd {
            place: name.place,
            spelled: name.name.as_slice(),
        }),
        None => None,
    }
}

/// E308 at the name at the end, if that isn't the object's.
fn object_end(name: &DefiningName, end_name: &Option<Identifier>) -> Option<Fault>
    ensures { result ≡ object_end name.now (option_map identifier_label end_name.now) }
{
    end_fault(Some(name.name.as_slice()), name_at_end(end_name))
}

/// The end of a protected object whose parts are right.
fn object_ended(
    alloc: Global,
    env: &mut Environment,
    line: usize,
    name: &DefiningName,
    symbol: Symbol,
    ceiling: Priority,
    object: &ProtectedDefinition,
    parts: ObjectParts,
) -> Result<CheckResult<Option<TypedDeclaration>>, NoMemory>
    requires { 0 < length env.old.scope.regions }
    ensures made { IfOk result (λ checked. at_place env.new (map_ok (option_map declaration_model) checked) ≡ object_ended env.old line name.now symbol ceiling (protected_model object.now) (env.old.progress, parts_model parts)) }
    ensures depth { length env.new.scope.regions ≡ length env.old.scope.regions }
{
    match object_end(name, &object.end_name) {
        Some(fault) => Ok(Err(fault)),
        None => {
            let effect = place_object(alloc, env, line, name, symbol, ceiling, parts)?;
            Ok(Ok(effect))
        }
    }
}

/// A protected object that has this symbol and ceiling, with what is inside it.
fn object_defined<R: PartAnalyzer, A: Answers>(
    alloc: Global,
    standard: &StandardTypes,
    analyzer: &R,
    env: &mut Environment,
    line: usize,
    name: &DefiningName,
    symbol: Symbol,
    ceiling: Priority,
    object: &ProtectedDefinition,
    recorder: &mut Recorder<A>,
) -> Result<CheckResult<Option<TypedDeclaration>>, NoMemory>
    requires { 0 < length env.old.scope.regions }
    ensures asked { recorder.new.asked ≡ recorder.old.asked }
    ensures answered { IfOk result (λ checked. FromAnswers recorder.old.log recorder.new.log (λ t. at_place env.new (map_ok (option_map declaration_model) checked) ≡ object_defined (R.reading analyzer.now t) t env.old line name.now symbol (protected_model object.now) ceiling)) }
    ensures depth { OnOk result (length env.new.scope.regions ≡ length env.old.scope.regions) }
{
    match parts_at(alloc, standard, analyzer, env, &symbol, object, recorder)? {
        Ok(parts) => object_ended(alloc, env, line, name, symbol, ceiling, object, parts),
        Err(fault) => Ok(Err(fault)),
    }
}

/// A protected object by its ceiling, if that is right.
fn object_leveled<R: PartAnalyzer, A: Answers>(
    alloc: Global,
    standard: &StandardTypes,
    analyzer: &R,
    env: &mut Environment,
    line: usize,
    name: &DefiningName,
    ceiling: CheckResult<Priority>,
    object: &ProtectedDefinition,
    recorder: &mut Recorder<A>,
) -> Result<CheckResult<Option<TypedDeclaration>>, NoMemory>
    requires { 0 < length env.old.scope.regions }
    ensures asked { recorder.new.asked ≡ recorder.old.asked }
    ensures answered { IfOk result (λ checked. FromAnswers recorder.old.log recorder.new.log (λ t. at_place env.new (map_ok (option_map declaration_model) checked) ≡ next ceiling (object_leveled (R.reading analyzer.now t) t env.old line name.now (protected_model object.now)))) }
    ensures depth { OnOk result (length env.new.scope.regions ≡ length env.old.scope.regions) }
{
    match ceiling {
        Ok(ceiling) => {
            let symbol = env.progress.next_symbol(alloc, name.name.as_slice())?;
            object_defined(
                alloc, standard, analyzer, env, line, name, symbol, ceiling, object, recorder,
            )
        }
        Err(fault) => Ok(Err(fault)),
    }
}

fn object_named<R: PartAnalyzer, A: Answers>(
    alloc: Global,
    standard: &StandardTypes,
    analyzer: &R,
    env: &mut Environment,
    line: usize,
    name: &DefiningName,
    object: &ProtectedDefinition,
    recorder: &mut Recorder<A>,
) -> Result<CheckResult<Option<TypedDeclaration>>, NoMemory>
    requires { 0 < length env.old.scope.regions }
    ensures asked { recorder.new.asked ≡ recorder.old.asked }
    ensures answered { IfOk result (λ checked. FromAnswers recorder.old.log recorder.new.log (λ t. at_place env.new (map_ok (option_map declaration_model) checked) ≡ object_named (R.reading analyzer.now t) t env.old line name.now (protected_model object.now))) }
    ensures depth { OnOk result (length env.new.scope.regions ≡ length env.old.scope.regions) }
{
    let usual = Priority::highest();
    let ceiling = level_named(alloc, analyzer, env, name, usual, &object.aspect, recorder)?;
    object_leveled(
        alloc, standard, analyzer, env, line, name, ceiling, object, recorder,
    )
}

/// What comes after `protected` in a declaration, which is on that line.
/// # Errors
/// `NoMemory` if the allocator refuses memory. The inner error is the first of E301 and E601 at the name and the faults of the ceiling;
/// else the first fault of an operation, or else of a component; else E308 at the name at its end.
pub fn check_protected<R: PartAnalyzer, A: Answers>(
    alloc: Global,
    standard: &StandardTypes,
    analyzer: &R,
    env: &mut Environment,
    line: usize,
    object: &ProtectedDefinition,
    recorder: &mut Recorder<A>,
) -> Result<CheckResult<Option<TypedDeclaration>>, NoMemory>
    requires { 0 < length env.old.scope.regions }
    ensures asked { recorder.new.asked ≡ recorder.old.asked }
    ensures answered { IfOk result (λ checked. FromAnswers recorder.old.log recorder.new.log (λ t. at_place env.new (map_ok (option_map declaration_model) checked) ≡ protected_checked (R.reading analyzer.now t) t env.old line (protected_model object.now))) }
    ensures depth { OnOk result (length env.new.scope.regions ≡ length env.old.scope.regions) }
{
    let name = defining_name(alloc, &object.name)?;
    object_named(
        alloc, standard, analyzer, env, line, &name, object, recorder,
    )
}
