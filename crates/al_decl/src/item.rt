// One declaration as it is written (ARM 3.2.1, 3.2.2, 3.3.1, 3.3.2).
ghost use Rattle.std.specs.Prelude.{◌≡◌, ◌<◌, length, option_map, IfOk, OnOk};
ghost use Rattle.al_decl.specs.Checking.{at_place};
ghost use Rattle.al_decl.specs.Forms.{enumeration_checked};
ghost use Rattle.al_decl.specs.Items.{definition_checked, form_checked, object_checked, subtype_item_checked, type_checked};
ghost use Rattle.al_decl.specs.Defining.{defining_names};
ghost use Rattle.al_base_fault.specs.Judging.{map_ok};
ghost use Rattle.al_query.specs.Reads.{FromAnswers};
ghost use Rattle.al_tree.specs.DeclarationViews.{identifiers_model, object_form_model, object_model, subtype_model, type_definition_model, type_model};
ghost use Rattle.al_view_typed.specs.DeclarationTrees.{declaration_model};

use crate::private_type::check_private_item;
use crate::{
    Environment, PartAnalyzer, check_array, check_enumeration, check_integer, check_null_record,
    check_number, check_objects, check_record_type, check_subtype, defining_name, defining_names,
    type_name,
};
use al_base::NoMemory;
use al_base_fault::CheckResult;
use al_decl_judged::{DefiningName, TypeName};
use al_query::{Answers, Recorder};
use al_tree::{
    Identifiers, ObjectDeclaration, ObjectForm, SubtypeDeclaration, TypeDeclaration, TypeDefinition,
};
use al_view_predefined::StandardTypes;
use al_view_typed::TypedDeclaration;
use std::alloc::Global;

/// Objects or numbers of these names, whose first token is on that line.
fn check_form<R: PartAnalyzer, A: Answers>(
    alloc: Global,
    standard: &StandardTypes,
    analyzer: &R,
    env: &mut Environment,
    line: usize,
    names: &[DefiningName],
    form: &ObjectForm,
    recorder: &mut Recorder<A>,
) -> Result<CheckResult<Option<TypedDeclaration>>, NoMemory>
    requires { 0 < length env.old.scope.regions }
    ensures asked { recorder.new.asked ≡ recorder.old.asked }
    ensures answered { IfOk result (λ checked. FromAnswers recorder.old.log recorder.new.log (λ t. at_place env.new (map_ok (option_map declaration_model) checked) ≡ form_checked (R.reading analyzer.now t) t env.old line names.now (object_form_model form.now))) }
    ensures depth { length env.new.scope.regions ≡ length env.old.scope.regions }
{
    match form {
        ObjectForm::Typed(is_constant, of, initial) => check_objects(
            alloc,
            standard,
            analyzer,
            env,
            line,
            names,
            *is_constant,
            of,
            initial,
            recorder,
        ),
        ObjectForm::Number(value) => check_number(alloc, analyzer, env, names, value, recorder),
    }
}

/// `names : ..;` (ARM 3.3.1, 3.3.2).
/// # Errors
/// `NoMemory` if the allocator refuses memory. The inner error is that of `check_objects` or `check_number`.
pub fn check_object_item<R: PartAnalyzer, A: Answers>(
    alloc: Global,
    standard: &StandardTypes,
    analyzer: &R,
    env: &mut Environment,
    declaration: &ObjectDeclaration,
    recorder: &mut Recorder<A>,
) -> Result<CheckResult<Option<TypedDeclaration>>, NoMemory>
    requires { 0 < length env.old.scope.regions }
    ensures asked { recorder.new.asked ≡ recorder.old.asked }
    ensures answered { IfOk result (λ checked. FromAnswers recorder.old.log recorder.new.log (λ t. at_place env.new (map_ok (option_map declaration_model) checked) ≡ object_checked (R.reading analyzer.now t) t env.old (object_model declaration.now))) }
    ensures depth { length env.new.scope.regions ≡ length env.old.scope.regions }
{
    let names = defining_names(alloc, &declaration.names)?;
    let line = declaration.names.first.place.line as usize;
    let names = names.as_slice();
    check_form(
        alloc,
        standard,
        analyzer,
        env,
        line,
        names,
        &declaration.form,
        recorder,
    )
}

/// An enumeration type with these literals.
fn check_literals<A: Answers>(
    alloc: Global,
    env: &mut Environment,
    name: &TypeName,
    literals: &Identifiers,
    recorder: &mut Recorder<A>,
) -> Result<CheckResult<Option<TypedDeclaration>>, NoMemory>
    requires { 0 < length env.old.scope.regions }
    ensures asked { recorder.new.asked ≡ recorder.old.asked }
    ensures answered { IfOk result (λ checked. FromAnswers recorder.old.log recorder.new.log (λ t. at_place env.new (map_ok (option_map declaration_model) checked) ≡ enumeration_checked t env.old name.now (defining_names (identifiers_model literals.now)))) }
    ensures depth { length env.new.scope.regions ≡ length env.old.scope.regions }
{
    let literals = defining_names(alloc, literals)?;
    check_enumeration(alloc, env, name, literals.as_slice(), recorder)
}

/// A type of that name by its definition.
fn check_definition<R: PartAnalyzer, A: Answers>(
    alloc: Global,
    standard: &StandardTypes,
    analyzer: &R,
    env: &mut Environment,
    words: Option<u32>,
    name: &TypeName,
    definition: &TypeDefinition,
    recorder: &mut Recorder<A>,
) -> Result<CheckResult<Option<TypedDeclaration>>, NoMemory>
    requires { 0 < length env.old.scope.regions }
    ensures asked { recorder.new.asked ≡ recorder.old.asked }
    ensures answered { IfOk result (λ checked. FromAnswers recorder.old.log recorder.new.log (λ t. at_place env.new (map_ok (option_map declaration_model) checked) ≡ definition_checked (R.reading analyzer.now t) t env.old words name.now (type_definition_model definition.now))) }
    ensures depth { OnOk result (length env.new.scope.regions ≡ length env.old.scope.regions) }
{
    match definition {
        TypeDefinition::Integer(range) => {
            check_integer(alloc, analyzer, env, name, range, recorder)
        }
        TypeDefinition::NullRecord => check_null_record(alloc, standard, env, name, recorder),
        TypeDefinition::Private(_) => check_private_item(alloc, env, name, words, recorder),
        TypeDefinition::Enumeration(_, literals) => {
            check_literals(alloc, env, name, literals, recorder)
        }
        TypeDefinition::Array(array) => {
            check_array(alloc, standard, analyzer, env, name, array, recorder)
        }
        TypeDefinition::Record(components, _) => {
            check_record_type(alloc, standard, analyzer, env, name, components, recorder)
        }
    }
}

/// `type name is ..;` (ARM 3.2.1). `words` is the length of a private type's values where one is allowed (ARM 7.3(4)).
/// # Errors
/// `NoMemory` if the allocator refuses memory. The inner error is that of the kind of definition; for a private type where none is allowed,
/// E301 or else E306 at the name.
pub fn check_type_item<R: PartAnalyzer, A: Answers>(
    alloc: Global,
    standard: &StandardTypes,
    analyzer: &R,
    env: &mut Environment,
    words: Option<u32>,
    declaration: &TypeDeclaration,
    recorder: &mut Recorder<A>,
) -> Result<CheckResult<Option<TypedDeclaration>>, NoMemory>
    requires { 0 < length env.old.scope.regions }
    ensures asked { recorder.new.asked ≡ recorder.old.asked }
    ensures answered { IfOk result (λ checked. FromAnswers recorder.old.log recorder.new.log (λ t. at_place env.new (map_ok (option_map declaration_model) checked) ≡ type_checked (R.reading analyzer.now t) t env.old words (type_model declaration.now))) }
    ensures depth { OnOk result (length env.new.scope.regions ≡ length env.old.scope.regions) }
{
    let name = defining_name(alloc, &declaration.name)?;
    let name = type_name(alloc, env, name)?;
    check_definition(
        alloc,
        standard,
        analyzer,
        env,
        words,
        &name,
        &declaration.definition,
        recorder,
    )
}

/// `subtype name is indication;` (ARM 3.2.2).
/// # Errors
/// `NoMemory` if the allocator refuses memory. The inner error is that of `check_subtype`.
pub fn check_subtype_item<R: PartAnalyzer, A: Answers>(
    alloc: Global,
    analyzer: &R,
    env: &mut Environment,
    declaration: &SubtypeDeclaration,
    recorder: &mut Recorder<A>,
) -> Result<CheckResult<Option<TypedDeclaration>>, NoMemory>
    requires { 0 < length env.old.scope.regions }
    ensures asked { recorder.new.asked ≡ recorder.old.asked }
    ensures answered { IfOk result (λ checked. FromAnswers recorder.old.log recorder.new.log (λ t. at_place env.new (map_ok (option_map declaration_model) checked) ≡ subtype_item_checked (R.reading analyzer.now t) t env.old (subtype_model declaration.now))) }
    ensures depth { length env.new.scope.regions ≡ length env.old.scope.regions }
{
    let name = defining_name(alloc, &declaration.name)?;
    check_subtype(
        alloc,
        analyzer,
        env,
        &name,
        &declaration.indication,
        recorder,
    )
}
