// Operations of a protected object, at their declarations (ARM 9.4, 9.5.2).
ghost use Rattle.std.specs.Prelude.{◌≡◌, ◌<◌, ◌++◌, ◌∷◌, [], length, map, IfOk, OnOk, Some};
ghost use Rattle.std.specs.List.{list_any};
ghost use Rattle.al_decl.specs.Checking.{with_progress, with_scope};
ghost use Rattle.al_decl_judged.specs.Completing.{is_entry};
ghost use Rattle.al_decl_judged.specs.Progressing.{symbol_of, with_counted};
ghost use Rattle.al_decl.specs.Defining.{defined};
ghost use Rattle.al_decl.specs.Declaring.{in_innermost};
ghost use Rattle.al_decl_protected.specs.Checks.{StaysInner, listed};
ghost use Rattle.al_decl_protected.specs.Operations.{bare_head, call_of, is_entry_tree, operation_added, operation_checked, operation_fault, operation_head, operation_headed, operation_of, operation_view, operations_checked, second_entry, with_operation};
ghost use Rattle.al_query.specs.Reads.{FromAnswers};
ghost use Rattle.al_tree.specs.DeclarationViews.{protected_operation_model};
ghost use Rattle.al_tree.specs.Lexemes.{identifier_label};
ghost use Rattle.al_scope.specs.Places.{with_declared};
ghost use Rattle.al_view.specs.declared.view.ObjectPlace.TheVariants.{Static};
ghost use Rattle.al_view.specs.declared.view.ViewKind.TheVariants.{OfSubprogram};

use al_base::{Name, NoMemory, Place};
use al_base_fault::{CheckResult, CheckRule, Fault, earlier};
use al_decl::{Environment, PartAnalyzer, defining_name, head_duplicate, heading_at};
use al_decl_judged::{
    DefiningName, Heading, ReturnedPart, heading_fault, profile_of, profile_types,
};
use al_query::{Answers, Recorder};
use al_scope::Scope;
use al_tree::{Identifier, ProtectedOperation};
use al_view::{CallKind, ObjectPlace, Operation, Seq, SubprogramView, Symbol, View, ViewKind};
use al_view_predefined::StandardTypes;
use std::alloc::Global;

/// The head of what has no parameters and no result.
pub fn bare_head(alloc: Global, name: DefiningName) -> Heading
    ensures { result ≡ bare_head name }
{
    Heading {
        name,
        is_dotted: false,
        formals: Seq::empty(alloc),
        returned: ReturnedPart::NoValue,
    }
}

fn entry_head(alloc: Global, name: &Identifier) -> Result<Heading, NoMemory>
    ensures { IfOk result (λ head. head ≡ bare_head (defined (identifier_label name.now))) }
{
    let name = defining_name(alloc, name)?;
    Ok(bare_head(alloc, name))
}

/// The head of an operation. The place is unchanged afterwards.
fn operation_head<R: PartAnalyzer, A: Answers>(
    alloc: Global,
    analyzer: &R,
    scope: &mut Scope,
    operation: &ProtectedOperation,
    recorder: &mut Recorder<A>,
) -> Result<Heading, NoMemory>
    ensures asked { recorder.new.asked ≡ recorder.old.asked }
    ensures answered { IfOk result (λ head. FromAnswers recorder.old.log recorder.new.log (λ t. head ≡ operation_head (R.reading analyzer.now t) scope.old (protected_operation_model operation.now))) }
    ensures scope { OnOk result (scope.new ≡ scope.old) }
{
    match operation {
        ProtectedOperation::Subprogram(specification) => {
            heading_at(alloc, analyzer, scope, specification, recorder)
        }
        ProtectedOperation::Entry(_, name) => entry_head(alloc, name),
    }
}

fn is_entry_tree(operation: &ProtectedOperation) -> bool
    ensures { result ≡ is_entry_tree (protected_operation_model operation.now) }
{
    match operation {
        ProtectedOperation::Subprogram(_) => false,
        ProtectedOperation::Entry(_, _) => true,
    }
}

fn call_of(is_entry: bool) -> CallKind
    ensures { result ≡ call_of is_entry }
{
    if is_entry {
        CallKind::Entry
    } else {
        CallKind::Protected
    }
}

/// Whether the body of that object is elaborated.
fn object_flag(alloc: Global, object: &Symbol) -> Result<Option<ObjectPlace>, NoMemory>
    ensures { IfOk result (λ flag. flag ≡ Some (Static object.now 0)) }
{
    let symbol = object.copy(alloc)?;
    Ok(Some(ObjectPlace::Static { symbol, word: 0 }))
}

/// An operation of that object. Its marks are right.
fn operation_view(
    alloc: Global,
    standard: &StandardTypes,
    symbol: &Symbol,
    object: &Symbol,
    is_entry: bool,
    heading: &Heading,
) -> Result<SubprogramView, NoMemory>
    ensures { IfOk result (λ view. view ≡ operation_view symbol.now object.now is_entry heading.now) }
{
    let symbol = symbol.copy(alloc)?;
    let profile = profile_of(alloc, heading)?;
    let types = profile_types(alloc, standard, heading)?;
    let flag = object_flag(alloc, object)?;
    Ok(SubprogramView {
        symbol,
        profile,
        types,
        call: call_of(is_entry),
        flag,
    })
}

fn operation_of(
    alloc: Global,
    standard: &StandardTypes,
    symbol: &Symbol,
    object: &Symbol,
    is_entry: bool,
    heading: &Heading,
) -> Result<Operation, NoMemory>
    ensures { IfOk result (λ operation. operation ≡ operation_of symbol.now object.now is_entry heading.now) }
{
    let subprogram = operation_view(alloc, standard, symbol, object, is_entry, heading)?;
    let name = Name::from_slice(alloc, heading.name.name.as_slice())?;
    Ok(Operation { name, subprogram })
}

fn is_entry(call: &CallKind) -> bool
    ensures { result ≡ is_entry call.now }
{
    matches!(call, CallKind::Entry)
}

fn has_entry(operations: &[Operation]) -> bool
    ensures { result ≡ list_any (λ o. is_entry o.subprogram.call) operations.now }
{
    operations
        .iter()
        .any(|operation| is_entry(&operation.subprogram.call))
}

/// E602 at the name of a second entry.
fn second_entry(is_entry: bool, place: Place, operations: &[Operation]) -> Option<Fault>
    ensures { result ≡ second_entry is_entry place operations.now }
{
    if is_entry && has_entry(operations) {
        let rule = CheckRule::SecondEntry;
        return Some(Fault { place, rule });
    }
    None
}

/// The fault of an operation after these others.
fn operation_fault<A: Answers>(
    alloc: Global,
    standard: &StandardTypes,
    env: &Environment,
    is_entry: bool,
    heading: &Heading,
    operations: &[Operation],
    recorder: &mut Recorder<A>,
) -> Result<Option<Fault>, NoMemory>
    requires { 0 < length env.now.scope.regions }
    ensures asked { recorder.new.asked ≡ recorder.old.asked }
    ensures answered { IfOk result (λ fault. FromAnswers recorder.old.log recorder.new.log (λ t. fault ≡ operation_fault t env.now is_entry heading.now operations.now)) }
{
    let duplicate = head_duplicate(alloc, standard, env, heading, recorder)?;
    let second = second_entry(is_entry, heading.name.place, operations);
    let of_head = heading_fault(alloc, heading)?;
    Ok(earlier(earlier(duplicate, second), of_head))
}

/// Makes an operation with that symbol visible from there on.
fn make_visible(
    alloc: Global,
    standard: &StandardTypes,
    env: &mut Environment,
    symbol: &Symbol,
    object: &Symbol,
    is_entry: bool,
    heading: &Heading,
) -> Result<(), NoMemory>
    requires { 0 < length env.old.scope.regions }
    ensures made { OnOk result (env.new ≡ record env.old { scope = in_innermost (with_declared heading.now.name.name (OfSubprogram (operation_view symbol.now object.now is_entry heading.now))) env.old.scope }) }
    ensures depth { length env.new.scope.regions ≡ length env.old.scope.regions }
{
    let subprogram = operation_view(alloc, standard, symbol, object, is_entry, heading)?;
    let view = View::new(alloc, ViewKind::OfSubprogram(subprogram))?;
    env.scope.add(heading.name.name.as_slice(), view)
}

/// Adds an operation that is right.
fn add_operation(
    alloc: Global,
    standard: &StandardTypes,
    env: &mut Environment,
    object: &Symbol,
    operations: &mut Seq<Operation>,
    is_entry: bool,
    heading: &Heading,
) -> Result<(), NoMemory>
    requires { 0 < length env.old.scope.regions }
    ensures made { OnOk result ((env.new, operations.new) ≡ operation_added env.old object.now is_entry heading.now operations.old) }
    ensures depth { length env.new.scope.regions ≡ length env.old.scope.regions }
{
    let symbol = env
        .progress
        .next_symbol(alloc, heading.name.name.as_slice())?;
    make_visible(alloc, standard, env, &symbol, object, is_entry, heading)?;
    let operation = operation_of(alloc, standard, &symbol, object, is_entry, heading)?;
    operations.push(operation)?;
    Ok(())
}

/// An operation by its head.
fn operation_headed<A: Answers>(
    alloc: Global,
    standard: &StandardTypes,
    env: &mut Environment,
    object: &Symbol,
    operations: &mut Seq<Operation>,
    is_entry: bool,
    heading: &Heading,
    recorder: &mut Recorder<A>,
) -> Result<CheckResult<()>, NoMemory>
    requires { 0 < length env.old.scope.regions }
    ensures asked { recorder.new.asked ≡ recorder.old.asked }
    ensures answered { IfOk result (λ checked. FromAnswers recorder.old.log recorder.new.log (λ t. listed env.new operations.new checked ≡ operation_headed t env.old object.now is_entry heading.now operations.old)) }
    ensures outer { OnOk result (StaysInner env.old.scope env.new.scope) }
    ensures rest { OnOk result (env.new ≡ with_progress (with_scope env.old env.new.scope) env.new.progress) }
    ensures depth { length env.new.scope.regions ≡ length env.old.scope.regions }
{
    let before = operations.as_slice();
    match operation_fault(alloc, standard, env, is_entry, heading, before, recorder)? {
        Some(fault) => Ok(Err(fault)),
        None => {
            add_operation(alloc, standard, env, object, operations, is_entry, heading)?;
            Ok(Ok(()))
        }
    }
}

fn check_operation<R: PartAnalyzer, A: Answers>(
    alloc: Global,
    standard: &StandardTypes,
    analyzer: &R,
    env: &mut Environment,
    object: &Symbol,
    operations: &mut Seq<Operation>,
    operation: &ProtectedOperation,
    recorder: &mut Recorder<A>,
) -> Result<CheckResult<()>, NoMemory>
    requires { 0 < length env.old.scope.regions }
    ensures asked { recorder.new.asked ≡ recorder.old.asked }
    ensures answered { IfOk result (λ checked. FromAnswers recorder.old.log recorder.new.log (λ t. listed env.new operations.new checked ≡ operation_checked (R.reading analyzer.now t) t env.old object.now operations.old (protected_operation_model operation.now))) }
    ensures outer { OnOk result (StaysInner env.old.scope env.new.scope) }
    ensures rest { OnOk result (env.new ≡ with_progress (with_scope env.old env.new.scope) env.new.progress) }
    ensures depth { OnOk result (length env.new.scope.regions ≡ length env.old.scope.regions) }
{
    let heading = operation_head(alloc, analyzer, &mut env.scope, operation, recorder)?;
    let is_entry = is_entry_tree(operation);
    operation_headed(
        alloc, standard, env, object, operations, is_entry, &heading, recorder,
    )
}

/// Adds the operations of that object in source order; a faulty one ends the list.
pub(crate) fn check_operations<R: PartAnalyzer, A: Answers>(
    alloc: Global,
    standard: &StandardTypes,
    analyzer: &R,
    env: &mut Environment,
    object: &Symbol,
    operations: &mut Seq<Operation>,
    texts: &[ProtectedOperation],
    recorder: &mut Recorder<A>,
) -> Result<CheckResult<()>, NoMemory>
    requires { 0 < length env.old.scope.regions }
    ensures asked { recorder.new.asked ≡ recorder.old.asked }
    ensures answered { IfOk result (λ checked. FromAnswers recorder.old.log recorder.new.log (λ t. listed env.new operations.new checked ≡ operations_checked (R.reading analyzer.now t) t env.old object.now operations.old (map protected_operation_model texts.now))) }
    ensures outer { OnOk result (StaysInner env.old.scope env.new.scope) }
    ensures rest { OnOk result (env.new ≡ with_progress (with_scope env.old env.new.scope) env.new.progress) }
    ensures depth { OnOk result (length env.new.scope.regions ≡ length env.old.scope.regions) }
{
    for text in texts {
        match check_operation(
            alloc, standard, analyzer, env, object, operations, text, recorder,
        )? {
            Ok(()) => {}
            Err(fault) => return Ok(Err(fault)),
        }
    }
    Ok(Ok(()))
}
