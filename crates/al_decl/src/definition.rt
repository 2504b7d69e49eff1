// Declarations of types at a place (ARM 3.2.1).
ghost use Rattle.std.specs.Prelude.{◌≡◌, ◌<◌, length, option_map, IfOk};
ghost use Rattle.al_decl.specs.Checking.{at_place, finished};
ghost use Rattle.al_decl.specs.Forms.{array_checked, enumeration_checked, integer_checked, private_checked, range_read, static_pair};
ghost use Rattle.al_decl_judged.specs.TypeKinds.{record_declared};
ghost use Rattle.al_base_fault.specs.Judging.{map_ok};
ghost use Rattle.al_query.specs.Reads.{FromAnswers};
ghost use Rattle.al_tree.specs.DeclarationViews.{array_model, indication_model, range_model};
ghost use Rattle.al_view_typed.specs.DeclarationTrees.{declaration_model};
ghost use Rattle.al_view_typed.specs.ExpressionViews.{typed_model};

use crate::ending::finish;
use crate::{Environment, PartAnalyzer, begin_type, enumeration_duplicate, type_duplicate};
use al_base::NoMemory;
use al_base_fault::{CheckResult, Fault, both};
use al_decl_judged::{
    DefiningName, Part, StaticRange, TypeName, declare_array, declare_enumeration, declare_integer,
    declare_private, declare_record, static_range,
};
use al_query::{Answers, Recorder};
use al_scope::Scope;
use al_tree::{ArrayDefinition, Range, SubtypeIndication};
use al_view::{Seq, SubtypeView};
use al_view_predefined::StandardTypes;
use al_view_typed::{Typed, TypedDeclaration};
use std::alloc::Global;

/// The range of two bounds, which must be static; E304 at the first that isn't.
fn static_pair(low: CheckResult<Typed>, high: CheckResult<Typed>) -> CheckResult<StaticRange>
    ensures { result ≡ static_pair (map_ok typed_model low) (map_ok typed_model high) }
{
    match both(low, high) {
        Ok(bounds) => static_range(&bounds.0, &bounds.1),
        Err(fault) => Err(fault),
    }
}

/// Drops a value.
fn let_go(_value: CheckResult<Typed>) {}

/// Drops a subtype.
fn let_go_subtype(_of: CheckResult<SubtypeView>) {}

/// A bound of an integer type after another one.
fn range_to<R: PartAnalyzer, A: Answers>(
    alloc: Global,
    analyzer: &R,
    scope: &Scope,
    low: CheckResult<Typed>,
    range: &Range,
    recorder: &mut Recorder<A>,
) -> Result<CheckResult<StaticRange>, NoMemory>
    ensures asked { recorder.new.asked ≡ recorder.old.asked }
    ensures answered { IfOk result (λ checked. FromAnswers recorder.old.log recorder.new.log (λ t. checked ≡ static_pair (map_ok typed_model low) ((R.reading analyzer.now t).bound scope.now (range_model range.now).high))) }
{
    match analyzer.bound(alloc, scope, &range.high, recorder) {
        Ok(high) => Ok(static_pair(low, high)),
        Err(none) => {
            let_go(low);
            Err(none)
        }
    }
}

/// The range of an integer type (ARM 3.5.4).
fn integer_range<R: PartAnalyzer, A: Answers>(
    alloc: Global,
    analyzer: &R,
    scope: &Scope,
    range: &Range,
    recorder: &mut Recorder<A>,
) -> Result<CheckResult<StaticRange>, NoMemory>
    ensures asked { recorder.new.asked ≡ recorder.old.asked }
    ensures answered { IfOk result (λ checked. FromAnswers recorder.old.log recorder.new.log (λ t. checked ≡ range_read (R.reading analyzer.now t) scope.now (range_model range.now))) }
{
    let low = analyzer.bound(alloc, scope, &range.low, recorder)?;
    range_to(alloc, analyzer, scope, low, range, recorder)
}

/// `type name is range low .. high;` (ARM 3.5.4).
/// # Errors
/// `NoMemory` if the allocator refuses memory. The inner error is the first of E301 at the name, the faults of the bounds, and E304 at a
/// bound that isn't static.
pub fn check_integer<R: PartAnalyzer, A: Answers>(
    alloc: Global,
    analyzer: &R,
    env: &mut Environment,
    name: &TypeName,
    range: &Range,
    recorder: &mut Recorder<A>,
) -> Result<CheckResult<Option<TypedDeclaration>>, NoMemory>
    requires { 0 < length env.old.scope.regions }
    ensures asked { recorder.new.asked ≡ recorder.old.asked }
    ensures answered { IfOk result (λ checked. FromAnswers recorder.old.log recorder.new.log (λ t. at_place env.new (map_ok (option_map declaration_model) checked) ≡ integer_checked (R.reading analyzer.now t) t env.old name.now (range_model range.now))) }
    ensures depth { length env.new.scope.regions ≡ length env.old.scope.regions }
{
    let duplicate = type_duplicate(alloc, &env.scope, name, recorder)?;
    begin_type(&mut env.scope, name)?;
    let range = integer_range(alloc, analyzer, &env.scope, range, recorder)?;
    let declared = declare_integer(alloc, &mut env.progress, name, duplicate, range)?;
    finish(env, declared)
}

/// `type name is (literals);` (ARM 3.5.1).
/// # Errors
/// `NoMemory` if the allocator refuses memory. The inner error is E301 at the first of the name and the literals that has a homograph or is
/// there twice.
pub fn check_enumeration<A: Answers>(
    alloc: Global,
    env: &mut Environment,
    name: &TypeName,
    literals: &[DefiningName],
    recorder: &mut Recorder<A>,
) -> Result<CheckResult<Option<TypedDeclaration>>, NoMemory>
    requires { 0 < length env.old.scope.regions }
    ensures asked { recorder.new.asked ≡ recorder.old.asked }
    ensures answered { IfOk result (λ checked. FromAnswers recorder.old.log recorder.new.log (λ t. at_place env.new (map_ok (option_map declaration_model) checked) ≡ enumeration_checked t env.old name.now literals.now)) }
    ensures depth { length env.new.scope.regions ≡ length env.old.scope.regions }
{
    let duplicate = enumeration_duplicate(alloc, &env.scope, name, literals, recorder)?;
    begin_type(&mut env.scope, name)?;
    let declared = declare_enumeration(alloc, &mut env.progress, name, duplicate, literals)?;
    finish(env, declared)
}

/// The component of an array after its index.
fn with_component<R: PartAnalyzer, A: Answers>(
    alloc: Global,
    analyzer: &R,
    scope: &Scope,
    index: CheckResult<SubtypeView>,
    component: &SubtypeIndication,
    recorder: &mut Recorder<A>,
) -> Result<(CheckResult<SubtypeView>, CheckResult<SubtypeView>), NoMemory>
    ensures asked { recorder.new.asked ≡ recorder.old.asked }
    ensures index { IfOk result (λ parts. parts.0 ≡ index) }
    ensures answered { IfOk result (λ parts. FromAnswers recorder.old.log recorder.new.log (λ t. parts.1 ≡ (R.reading analyzer.now t).indication scope.now (indication_model component.now))) }
{
    match analyzer.indication(alloc, scope, component, recorder) {
        Ok(component) => Ok((index, component)),
        Err(none) => {
            let_go_subtype(index);
            Err(none)
        }
    }
}

/// The index and the component of an array, in this order.
pub(crate) fn array_parts<R: PartAnalyzer, A: Answers>(
    alloc: Global,
    analyzer: &R,
    scope: &Scope,
    array: &ArrayDefinition,
    recorder: &mut Recorder<A>,
) -> Result<(CheckResult<SubtypeView>, CheckResult<SubtypeView>), NoMemory>
    ensures asked { recorder.new.asked ≡ recorder.old.asked }
    ensures answered { IfOk result (λ parts. FromAnswers recorder.old.log recorder.new.log (λ t. (parts.0 ≡ (R.reading analyzer.now t).index scope.now (array_model array.now).index) × (parts.1 ≡ (R.reading analyzer.now t).indication scope.now (array_model array.now).component))) }
{
    let index = analyzer.index(alloc, scope, &array.index, recorder)?;
    with_component(alloc, analyzer, scope, index, &array.component, recorder)
}

/// `type name is array (index) of component;` (ARM 3.6).
/// # Errors
/// `NoMemory` if the allocator refuses memory. The inner error is the first of E301 at the name and the faults of the index and the
/// component; else E305 at the name if a value would have more than 4,096 words.
pub fn check_array<R: PartAnalyzer, A: Answers>(
    alloc: Global,
    standard: &StandardTypes,
    analyzer: &R,
    env: &mut Environment,
    name: &TypeName,
    array: &ArrayDefinition,
    recorder: &mut Recorder<A>,
) -> Result<CheckResult<Option<TypedDeclaration>>, NoMemory>
    requires { 0 < length env.old.scope.regions }
    ensures asked { recorder.new.asked ≡ recorder.old.asked }
    ensures answered { IfOk result (λ checked. FromAnswers recorder.old.log recorder.new.log (λ t. at_place env.new (map_ok (option_map declaration_model) checked) ≡ array_checked (R.reading analyzer.now t) t env.old name.now (array_model array.now))) }
    ensures depth { length env.new.scope.regions ≡ length env.old.scope.regions }
{
    let duplicate = type_duplicate(alloc, &env.scope, name, recorder)?;
    begin_type(&mut env.scope, name)?;
    let (index, component) = array_parts(alloc, analyzer, &env.scope, array, recorder)?;
    let declared = declare_array(
        alloc,
        standard,
        &mut env.progress,
        name,
        duplicate,
        index,
        component,
    )?;
    finish(env, declared)
}

/// `type name is record parts end record;` of parts that were checked; a null record has none (ARM 3.8). `duplicate` is E301 at the name if
/// its region has a homograph.
/// # Errors
/// `NoMemory` if the allocator refuses memory. The inner error is the first of `duplicate` and the first fault of the parts, E301 of their
/// names included; else E305 at the name if a value would have more than 4,096 words.
pub fn check_record(
    alloc: Global,
    standard: &StandardTypes,
    env: &mut Environment,
    name: &TypeName,
    duplicate: Option<Fault>,
    parts: &CheckResult<Seq<Part>>,
) -> Result<CheckResult<Option<TypedDeclaration>>, NoMemory>
    requires { 0 < length env.old.scope.regions }
    ensures made { IfOk result (λ checked. at_place env.new (map_ok (option_map declaration_model) checked) ≡ finished env.old (record_declared env.old.progress name.now duplicate parts.now)) }
    ensures depth { length env.new.scope.regions ≡ length env.old.scope.regions }
{
    let declared = declare_record(alloc, standard, &mut env.progress, name, duplicate, parts)?;
    finish(env, declared)
}

/// `type name is private;`, whose values take this many words (ARM 7.3).
/// # Errors
/// `NoMemory` if the allocator refuses memory. The inner error is E301 at the name if its region has a homograph.
pub fn check_private<A: Answers>(
    alloc: Global,
    env: &mut Environment,
    name: &TypeName,
    words: u32,
    recorder: &mut Recorder<A>,
) -> Result<CheckResult<Option<TypedDeclaration>>, NoMemory>
    requires { 0 < length env.old.scope.regions }
    ensures asked { recorder.new.asked ≡ recorder.old.asked }
    ensures answered { IfOk result (λ checked. FromAnswers recorder.old.log recorder.new.log (λ t. at_place env.new (map_ok (option_map declaration_model) checked) ≡ private_checked t env.old name.now words)) }
    ensures depth { length env.new.scope.regions ≡ length env.old.scope.regions }
{
    let duplicate = type_duplicate(alloc, &env.scope, name, recorder)?;
    begin_type(&mut env.scope, name)?;
    let declared = declare_private(alloc, &mut env.progress, name, duplicate, words)?;
    finish(env, declared)
}
