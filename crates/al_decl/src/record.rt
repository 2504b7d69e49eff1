// Declarations of record types at a place (ARM 3.8).
ghost use Rattle.std.specs.Prelude.{◌≡◌, ◌<◌, [], length, option_map, IfOk, OnOk, Ok};
ghost use Rattle.al_decl.specs.Checking.{at_place};
ghost use Rattle.al_decl.specs.Components.{after_components, component_list, parts_after};
ghost use Rattle.al_decl.specs.Founds.{found_model};
ghost use Rattle.al_decl.specs.Records.{null_record_checked, record_checked};
ghost use Rattle.al_decl.specs.Inner.{in_region};
ghost use Rattle.al_base_fault.specs.Judging.{map_ok};
ghost use Rattle.al_query.specs.Reads.{FromAnswers};
ghost use Rattle.al_tree.specs.DeclarationViews.{components_model};
ghost use Rattle.al_view_typed.specs.DeclarationTrees.{declaration_model};

use crate::components::{ComponentList, check_component, check_components};
use crate::{
    Environment, PartAnalyzer, begin_type, check_record, enter_region, leave_region, type_duplicate,
};
use al_base::NoMemory;
use al_base_fault::CheckResult;
use al_decl_judged::{Part, TypeName};
use al_query::{Answers, Recorder};
use al_scope::Scope;
use al_tree::Components;
use al_view::Seq;
use al_view_predefined::StandardTypes;
use al_view_typed::TypedDeclaration;
use std::alloc::Global;

/// Adds the components of a record, in a region that is entered.
fn check_parts<R: PartAnalyzer, A: Answers>(
    alloc: Global,
    analyzer: &R,
    scope: &mut Scope,
    found: &mut ComponentList,
    components: &Components,
    recorder: &mut Recorder<A>,
) -> Result<(), NoMemory>
    requires { 0 < length scope.old.regions }
    ensures asked { recorder.new.asked ≡ recorder.old.asked }
    ensures answered { OnOk result (FromAnswers recorder.old.log recorder.new.log (λ t. found_model found.new ≡ parts_after (R.reading analyzer.now t) t scope.old (found_model found.old) (component_list (components_model components.now)))) }
    ensures scope { OnOk result (scope.new ≡ after_components scope.old (component_list (components_model components.now))) }
    ensures depth { length scope.new.regions ≡ length scope.old.regions }
{
    match components {
        Components::Declared(first, others) => {
            check_component(alloc, analyzer, scope, found, first, recorder)?;
            let others = others.as_slice();
            check_components(alloc, analyzer, scope, found, others, recorder)
        }
        Components::Null => Ok(()),
    }
}

/// Adds the components of a record in a region of their own, which is left again.
fn check_inside<R: PartAnalyzer, A: Answers>(
    alloc: Global,
    analyzer: &R,
    scope: &mut Scope,
    found: &mut ComponentList,
    components: &Components,
    recorder: &mut Recorder<A>,
) -> Result<(), NoMemory>
    requires { 0 < length scope.old.regions }
    ensures asked { recorder.new.asked ≡ recorder.old.asked }
    ensures answered { OnOk result (FromAnswers recorder.old.log recorder.new.log (λ t. found_model found.new ≡ parts_after (R.reading analyzer.now t) t (in_region scope.old) (found_model found.old) (component_list (components_model components.now)))) }
    ensures scope { OnOk result (scope.new ≡ scope.old) }
{
    enter_region(alloc, scope)?;
    check_parts(alloc, analyzer, scope, found, components, recorder)?;
    leave_region(scope);
    Ok(())
}

/// What the components of a record are, or the first rule that one breaks.
fn parts_at<R: PartAnalyzer, A: Answers>(
    alloc: Global,
    analyzer: &R,
    scope: &mut Scope,
    components: &Components,
    recorder: &mut Recorder<A>,
) -> Result<CheckResult<Seq<Part>>, NoMemory>
    requires { 0 < length scope.old.regions }
    ensures asked { recorder.new.asked ≡ recorder.old.asked }
    ensures answered { IfOk result (λ parts. FromAnswers recorder.old.log recorder.new.log (λ t. parts ≡ parts_after (R.reading analyzer.now t) t (in_region scope.old) (Ok []) (component_list (components_model components.now)))) }
    ensures scope { OnOk result (scope.new ≡ scope.old) }
{
    let mut found = ComponentList::new(alloc);
    match check_inside(alloc, analyzer, scope, &mut found, components, recorder) {
        Ok(()) => Ok(found.checked()),
        Err(none) => Err(none),
    }
}

/// `type name is record components end record;`.
/// # Errors
/// `NoMemory` if the allocator refuses memory. The inner error is the first of E301 at the name and the first fault of the components; else
/// E305 at the name if a value would have more than 4,096 words.
pub fn check_record_type<R: PartAnalyzer, A: Answers>(
    alloc: Global,
    standard: &StandardTypes,
    analyzer: &R,
    env: &mut Environment,
    name: &TypeName,
    components: &Components,
    recorder: &mut Recorder<A>,
) -> Result<CheckResult<Option<TypedDeclaration>>, NoMemory>
    requires { 0 < length env.old.scope.regions }
    ensures asked { recorder.new.asked ≡ recorder.old.asked }
    ensures answered { IfOk result (λ checked. FromAnswers recorder.old.log recorder.new.log (λ t. at_place env.new (map_ok (option_map declaration_model) checked) ≡ record_checked (R.reading analyzer.now t) t env.old name.now (components_model components.now))) }
    ensures depth { OnOk result (length env.new.scope.regions ≡ length env.old.scope.regions) }
{
    let duplicate = type_duplicate(alloc, &env.scope, name, recorder)?;
    begin_type(&mut env.scope, name)?;
    let parts = parts_at(alloc, analyzer, &mut env.scope, components, recorder)?;
    check_record(alloc, standard, env, name, duplicate, &parts)
}

/// The components of a null record.
fn no_parts(alloc: Global) -> CheckResult<Seq<Part>>
    ensures { result ≡ Ok [] }
{
    Ok(Seq::empty(alloc))
}

/// `type name is null record;`.
/// # Errors
/// `NoMemory` if the allocator refuses memory. The inner error is E301 at the name if its region has a homograph.
pub fn check_null_record<A: Answers>(
    alloc: Global,
    standard: &StandardTypes,
    env: &mut Environment,
    name: &TypeName,
    recorder: &mut Recorder<A>,
) -> Result<CheckResult<Option<TypedDeclaration>>, NoMemory>
    requires { 0 < length env.old.scope.regions }
    ensures asked { recorder.new.asked ≡ recorder.old.asked }
    ensures answered { IfOk result (λ checked. FromAnswers recorder.old.log recorder.new.log (λ t. at_place env.new (map_ok (option_map declaration_model) checked) ≡ null_record_checked t env.old name.now)) }
    ensures depth { length env.new.scope.regions ≡ length env.old.scope.regions }
{
    let duplicate = type_duplicate(alloc, &env.scope, name, recorder)?;
    begin_type(&mut env.scope, name)?;
    let parts = no_parts(alloc);
    check_record(alloc, standard, env, name, duplicate, &parts)
}
