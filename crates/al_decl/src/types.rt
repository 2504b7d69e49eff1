// Names of types at a place: of a new type, or of a private one that is completed (ARM 7.3(4), 8.3).
ghost use Rattle.std.specs.Prelude.{◌≡◌, ◌<◌, [], length, IfOk, OnOk};
ghost use Rattle.al_decl.specs.TypeNames.{completed_at, enumeration_duplicate, literal_duplicates, partial_among, type_begun, type_duplicate, type_name};
ghost use Rattle.al_query.specs.Reads.{FromAnswers};
ghost use Rattle.al_view_predefined.specs.Standard.{literal};
ghost use Rattle.std.specs.Option.{option_copied};

use crate::env::{Environment, begin_one};
use crate::homograph::{duplicates, fixed_duplicate, overloaded_duplicates};
use al_base::NoMemory;
use al_base_fault::{Fault, earlier};
use al_decl_judged::{DefiningName, TypeName};
use al_query::{Answers, Recorder};
use al_scope::{Scope, first_partial};
use al_view::{LiteralView, Seq, Symbol, Types, View, ViewKind};
use std::alloc::Global;

fn partial_among<'a>(declared: &[View], views: &'a [View]) -> Option<&'a Symbol>
    ensures { option_copied result ≡ partial_among declared.now views.now }
{
    match declared {
        [] => first_partial(views),
        [_, ..] => None,
    }
}

/// The private type that a declaration of this name completes.
fn completed_at(
    alloc: Global,
    env: &Environment,
    name: &DefiningName,
) -> Result<Option<Symbol>, NoMemory>
    ensures { IfOk result (λ completed. completed ≡ completed_at env.now name.now) }
{
    let spelled = name.name.as_slice();
    match partial_among(
        env.declared.views(spelled),
        env.scope.declared_alone(spelled),
    ) {
        Some(symbol) => Ok(Some(symbol.copy(alloc)?)),
        None => Ok(None),
    }
}

/// The name of a type that is declared at a place, with the private type that its declaration completes, if it completes one (ARM 7.3(4)).
/// # Errors
/// `NoMemory` if the allocator refuses memory.
pub fn type_name(alloc: Global, env: &Environment, name: DefiningName) -> Result<TypeName, NoMemory>
    ensures { IfOk result (λ made. made ≡ type_name env.now name) }
{
    match completed_at(alloc, env, &name) {
        Ok(partial) => Ok(TypeName {
            defining: name,
            partial,
        }),
        Err(error) => {
            drop(name);
            Err(error)
        }
    }
}

/// E301 at the name of a type whose region has a homograph; a type that completes a private type is no homograph of it.
/// # Errors
/// `NoMemory` if the allocator refuses memory.
pub fn type_duplicate<A: Answers>(
    alloc: Global,
    scope: &Scope,
    name: &TypeName,
    recorder: &mut Recorder<A>,
) -> Result<Option<Fault>, NoMemory>
    requires { 0 < length scope.now.regions }
    ensures asked { recorder.new.asked ≡ recorder.old.asked }
    ensures answered { IfOk result (λ fault. FromAnswers recorder.old.log recorder.new.log (λ t. fault ≡ type_duplicate t scope.now name.now)) }
{
    if name.partial.is_some() {
        return Ok(None);
    }
    fixed_duplicate(alloc, scope, &name.defining, recorder)
}

/// Begins the declaration of a type, unless it completes a private type, whose partial view is visible until its end.
/// # Errors
/// `NoMemory` if the allocator refuses memory.
pub fn begin_type(scope: &mut Scope, name: &TypeName) -> Result<(), NoMemory>
    requires { 0 < length scope.old.regions }
    ensures begun { OnOk result (scope.new ≡ type_begun scope.old name.now) }
    ensures depth { length scope.new.regions ≡ length scope.old.regions }
{
    if name.partial.is_some() {
        return Ok(());
    }
    begin_one(scope, &name.defining)
}

/// A literal of a type of which no more is known.
fn literal_of(alloc: Global, symbol: &Symbol) -> Result<View, NoMemory>
    ensures { IfOk result (λ view. view ≡ literal symbol.now [] 0) }
{
    let base = symbol.copy(alloc)?;
    let types = Types::new(alloc, Seq::empty(alloc))?;
    let view = View::new(
        alloc,
        ViewKind::OfLiteral(LiteralView {
            base,
            types,
            position: 0,
        }),
    )?;
    Ok(view)
}

/// E301 at the first of the literals of a type that has a homograph. A new type has nothing else, but functions may be of a private one.
fn literal_duplicates<A: Answers>(
    alloc: Global,
    scope: &Scope,
    partial: &Option<Symbol>,
    literals: &[DefiningName],
    recorder: &mut Recorder<A>,
) -> Result<Option<Fault>, NoMemory>
    requires { 0 < length scope.now.regions }
    ensures asked { recorder.new.asked ≡ recorder.old.asked }
    ensures answered { IfOk result (λ fault. FromAnswers recorder.old.log recorder.new.log (λ t. fault ≡ literal_duplicates t scope.now partial.now literals.now)) }
{
    match partial {
        Some(symbol) => {
            let view = literal_of(alloc, symbol)?;
            duplicates(scope, &view, literals, recorder)
        }
        None => overloaded_duplicates(scope, literals, recorder),
    }
}

/// E301 at the first of an enumeration type's name and its literals whose region has a homograph.
/// # Errors
/// `NoMemory` if the allocator refuses memory.
pub fn enumeration_duplicate<A: Answers>(
    alloc: Global,
    scope: &Scope,
    name: &TypeName,
    literals: &[DefiningName],
    recorder: &mut Recorder<A>,
) -> Result<Option<Fault>, NoMemory>
    requires { 0 < length scope.now.regions }
    ensures asked { recorder.new.asked ≡ recorder.old.asked }
    ensures answered { IfOk result (λ fault. FromAnswers recorder.old.log recorder.new.log (λ t. fault ≡ enumeration_duplicate t scope.now name.now literals.now)) }
{
    let named = type_duplicate(alloc, scope, name, recorder)?;
    let literal = literal_duplicates(alloc, scope, &name.partial, literals, recorder)?;
    Ok(earlier(named, literal))
}
