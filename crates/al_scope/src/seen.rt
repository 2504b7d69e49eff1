// What declarations are at a place that sees full views of private types.
ghost use Rattle.std.specs.Prelude.{◌≡◌, ◌++◌, IfOk, OnOk};
ghost use Rattle.std.specs.List.{find};
ghost use Rattle.std.specs.Option.{option_copied};
ghost use Rattle.al_query.specs.Asked.{AsksOf, by_some_name};
ghost use Rattle.al_query.specs.Reads.{FromAnswers};
ghost use Rattle.al_scope.specs.PartialViews.{is_full_view};
ghost use Rattle.al_scope.specs.Places.{place_units};
ghost use Rattle.al_view.specs.declared.view.ViewKind.TheVariants.{OfProtected};
ghost use Rattle.al_scope.specs.Recasts.{operation_types, view_types};
ghost use Rattle.al_scope.specs.Seen.{all_seen_at, completion_seen_at, completions_seen_at, full_if_private, full_in, full_of, full_views, recast_by, seen_at, subtype_recast, subtype_seen_at, type_in};

use crate::recast::Recast;
use crate::view::{recast, recast_subtype_view};
use crate::{Scope, is_full_view, is_private};
use al_base::{Name, NoMemory};
use al_query::{Answers, Completion, Recorder};
use al_view::{
    DeclaredType, Operation, ProtectedView, Seq, SubtypeView, Symbol, TypeView, View, ViewKind,
    Views,
};
use std::alloc::Global;

/// The recast of a type to this full view. A partial view has no bounds.
fn by_full(of: &DeclaredType) -> Result<Recast, NoMemory>
    ensures { IfOk result (λ made. made ≡ record { bounds = None; by = of.now }) }
{
    let types = of.types.share()?;
    let literals = of.literals.share()?;
    Ok(Recast {
        bounds: None,
        by: DeclaredType { types, literals },
    })
}

/// Adds the recast to the full view of a type, if there is one.
fn add_by(recasts: &mut Seq<Recast>, of: Option<&DeclaredType>) -> Result<(), NoMemory>
    ensures { OnOk result (recasts.new ≡ recasts.old ++ recast_by (option_copied of.entry)) }
{
    match of {
        Some(of) => {
            let recast = by_full(of)?;
            recasts.push(recast)?;
            Ok(())
        }
        None => Ok(()),
    }
}

/// The type that a view declares.
fn type_in(view: &View) -> Option<&DeclaredType>
    ensures { option_copied result ≡ type_in view.now }
{
    match view.kind() {
        ViewKind::OfType(of) => Some(of),
        ViewKind::OfSubtype(_) => None,
        ViewKind::OfObject(_) => None,
        ViewKind::OfComponent => None,
        ViewKind::OfNumber(_) => None,
        ViewKind::OfLiteral(_) => None,
        ViewKind::OfSubprogram(_) => None,
        ViewKind::OfTask(_) => None,
        ViewKind::OfProtected(_) => None,
        ViewKind::OfPackage(_) => None,
    }
}

/// The first full view of the type among these views.
fn full_view<'a>(views: &'a [View], symbol: &Symbol) -> Option<&'a View>
    ensures { option_copied result ≡ find (is_full_view symbol.now) views.now }
{
    views.iter().find(|view| is_full_view(symbol, view))
}

fn full_in<'a>(views: &'a [View], symbol: &Symbol) -> Option<&'a DeclaredType>
    ensures { option_copied result ≡ full_in views.now symbol.now }
{
    match full_view(views, symbol) {
        Some(view) => type_in(view),
        None => None,
    }
}

/// Adds the recast to the full view of a private type, if the place sees one.
fn add_full_of<A: Answers>(
    scope: &Scope,
    symbol: &Symbol,
    recasts: &mut Seq<Recast>,
    recorder: &mut Recorder<A>,
) -> Result<(), NoMemory>
    ensures asked { recorder.new.asked ≡ recorder.old.asked }
    ensures answered { OnOk result (FromAnswers recorder.old.log recorder.new.log (λ t. recasts.new ≡ recasts.old ++ full_of t scope.now symbol.now)) }
    ensures asks { OnOk result (AsksOf (place_units scope.now) by_some_name recorder.old.log recorder.new.log) }
{
    let views = scope.within_unit(&symbol.unit, symbol.name.as_slice(), recorder)?;
    add_by(recasts, full_in(views.as_slice(), symbol))
}

/// Adds the recast to the full view of a type, if the type is private and the place sees a full view.
fn add_full<A: Answers>(
    scope: &Scope,
    of: &TypeView,
    recasts: &mut Seq<Recast>,
    recorder: &mut Recorder<A>,
) -> Result<(), NoMemory>
    ensures asked { recorder.new.asked ≡ recorder.old.asked }
    ensures answered { OnOk result (FromAnswers recorder.old.log recorder.new.log (λ t. recasts.new ≡ recasts.old ++ full_if_private t scope.now of.now)) }
    ensures asks { OnOk result (AsksOf (place_units scope.now) by_some_name recorder.old.log recorder.new.log) }
{
    if is_private(&of.definition) {
        return add_full_of(scope, &of.symbol, recasts, recorder);
    }
    Ok(())
}

/// Adds the recasts to the full views of the private types among these.
fn add_fulls<A: Answers>(
    scope: &Scope,
    types: &[TypeView],
    recasts: &mut Seq<Recast>,
    recorder: &mut Recorder<A>,
) -> Result<(), NoMemory>
    ensures asked { recorder.new.asked ≡ recorder.old.asked }
    ensures answered { OnOk result (FromAnswers recorder.old.log recorder.new.log (λ t. recasts.new ≡ recasts.old ++ full_views t scope.now types.now)) }
    ensures asks { OnOk result (AsksOf (place_units scope.now) by_some_name recorder.old.log recorder.new.log) }
{
    for of in types {
        add_full(scope, of, recasts, recorder)?;
    }
    Ok(())
}

/// Adds the recasts to the full views of the private types of operations.
fn add_operations<A: Answers>(
    scope: &Scope,
    operations: &[Operation],
    recasts: &mut Seq<Recast>,
    recorder: &mut Recorder<A>,
) -> Result<(), NoMemory>
    ensures asked { recorder.new.asked ≡ recorder.old.asked }
    ensures answered { OnOk result (FromAnswers recorder.old.log recorder.new.log (λ t. recasts.new ≡ recasts.old ++ full_views t scope.now (operation_types operations.now))) }
    ensures asks { OnOk result (AsksOf (place_units scope.now) by_some_name recorder.old.log recorder.new.log) }
{
    for operation in operations {
        let types = operation.subprogram.types.as_slice();
        add_fulls(scope, types, recasts, recorder)?;
    }
    Ok(())
}

/// Adds the recasts to the full views of the private types of a protected object.
fn add_protected<A: Answers>(
    scope: &Scope,
    of: &ProtectedView,
    recasts: &mut Seq<Recast>,
    recorder: &mut Recorder<A>,
) -> Result<(), NoMemory>
    ensures asked { recorder.new.asked ≡ recorder.old.asked }
    ensures answered { OnOk result (FromAnswers recorder.old.log recorder.new.log (λ t. recasts.new ≡ recasts.old ++ full_views t scope.now (view_types (OfProtected of.now)))) }
    ensures asks { OnOk result (AsksOf (place_units scope.now) by_some_name recorder.old.log recorder.new.log) }
{
    add_fulls(scope, of.types.as_slice(), recasts, recorder)?;
    add_operations(scope, of.operations.as_slice(), recasts, recorder)?;
    Ok(())
}

/// Adds the recasts to the full views of the private types of a declaration.
fn add_of_view<A: Answers>(
    scope: &Scope,
    view: &View,
    recasts: &mut Seq<Recast>,
    recorder: &mut Recorder<A>,
) -> Result<(), NoMemory>
    ensures asked { recorder.new.asked ≡ recorder.old.asked }
    ensures answered { OnOk result (FromAnswers recorder.old.log recorder.new.log (λ t. recasts.new ≡ recasts.old ++ full_views t scope.now (view_types view.now))) }
    ensures asks { OnOk result (AsksOf (place_units scope.now) by_some_name recorder.old.log recorder.new.log) }
{
    match view.kind() {
        ViewKind::OfType(of) => add_fulls(scope, of.types.as_slice(), recasts, recorder),
        ViewKind::OfSubtype(of) => add_fulls(scope, of.types.as_slice(), recasts, recorder),
        ViewKind::OfObject(of) => add_fulls(scope, of.types.as_slice(), recasts, recorder),
        ViewKind::OfLiteral(of) => add_fulls(scope, of.types.as_slice(), recasts, recorder),
        ViewKind::OfSubprogram(of) => add_fulls(scope, of.types.as_slice(), recasts, recorder),
        ViewKind::OfProtected(of) => add_protected(scope, of, recasts, recorder),
        ViewKind::OfComponent => Ok(()),
        ViewKind::OfNumber(_) => Ok(()),
        ViewKind::OfTask(_) => Ok(()),
        ViewKind::OfPackage(_) => Ok(()),
    }
}

/// The recasts to the full views that the place sees of the private types of a declaration.
fn full_views_of<A: Answers>(
    alloc: Global,
    scope: &Scope,
    view: &View,
    recorder: &mut Recorder<A>,
) -> Result<Seq<Recast>, NoMemory>
    ensures asked { recorder.new.asked ≡ recorder.old.asked }
    ensures answered { IfOk result (λ recasts. FromAnswers recorder.old.log recorder.new.log (λ t. recasts ≡ full_views t scope.now (view_types view.now))) }
    ensures asks { IfOk result (λ _. AsksOf (place_units scope.now) by_some_name recorder.old.log recorder.new.log) }
{
    let mut recasts = Seq::empty(alloc);
    add_of_view(scope, view, &mut recasts, recorder)?;
    Ok(recasts)
}

/// A declaration as a place sees it.
#[tactic(auto, unfolding(crate::specs::Seen::seen_at))]
fn seen_at<A: Answers>(
    alloc: Global,
    scope: &Scope,
    view: &View,
    recorder: &mut Recorder<A>,
) -> Result<View, NoMemory>
    ensures asked { recorder.new.asked ≡ recorder.old.asked }
    ensures answered { IfOk result (λ seen. FromAnswers recorder.old.log recorder.new.log (λ t. seen ≡ seen_at t scope.now view.now)) }
    ensures asks { IfOk result (λ _. AsksOf (place_units scope.now) by_some_name recorder.old.log recorder.new.log) }
{
    let recasts = full_views_of(alloc, scope, view, recorder)?;
    recast(alloc, recasts.as_slice(), view)
}

/// Declarations as a place sees them.
/// # Errors
/// `NoMemory` if the allocator refuses memory.
pub fn all_seen_at<A: Answers>(
    alloc: Global,
    scope: &Scope,
    views: &[View],
    recorder: &mut Recorder<A>,
) -> Result<Views, NoMemory>
    ensures asked { recorder.new.asked ≡ recorder.old.asked }
    ensures answered { IfOk result (λ seen. FromAnswers recorder.old.log recorder.new.log (λ t. seen ≡ all_seen_at t scope.now views.now)) }
    ensures asks { IfOk result (λ _. AsksOf (place_units scope.now) by_some_name recorder.old.log recorder.new.log) }
{
    let mut seen = Views::new(alloc);
    for view in views {
        seen.push(seen_at(alloc, scope, view, recorder)?)?;
    }
    Ok(seen)
}

fn completion_seen_at<A: Answers>(
    alloc: Global,
    scope: &Scope,
    completion: &Completion,
    recorder: &mut Recorder<A>,
) -> Result<Completion, NoMemory>
    ensures asked { recorder.new.asked ≡ recorder.old.asked }
    ensures answered { IfOk result (λ seen. FromAnswers recorder.old.log recorder.new.log (λ t. seen ≡ completion_seen_at t scope.now completion.now)) }
    ensures asks { IfOk result (λ _. AsksOf (place_units scope.now) by_some_name recorder.old.log recorder.new.log) }
{
    let name = Name::from_slice(alloc, completion.name.as_slice())?;
    let view = seen_at(alloc, scope, &completion.view, recorder)?;
    Ok(Completion { name, view })
}

/// The declarations that wait for their bodies, as a place sees them.
/// # Errors
/// `NoMemory` if the allocator refuses memory.
pub fn completions_seen_at<A: Answers>(
    alloc: Global,
    scope: &Scope,
    completions: &[Completion],
    recorder: &mut Recorder<A>,
) -> Result<Seq<Completion>, NoMemory>
    ensures asked { recorder.new.asked ≡ recorder.old.asked }
    ensures answered { IfOk result (λ seen. FromAnswers recorder.old.log recorder.new.log (λ t. seen ≡ completions_seen_at t scope.now completions.now)) }
    ensures asks { IfOk result (λ _. AsksOf (place_units scope.now) by_some_name recorder.old.log recorder.new.log) }
{
    let mut seen = Seq::empty(alloc);
    for completion in completions {
        seen.push(completion_seen_at(alloc, scope, completion, recorder)?)?;
    }
    Ok(seen)
}

/// A subtype, some of whose types are seen otherwise.
fn subtype_recast(
    alloc: Global,
    recasts: &[Recast],
    of: SubtypeView,
) -> Result<SubtypeView, NoMemory>
    ensures { IfOk result (λ made. made ≡ subtype_recast recasts.now of) }
{
    match recasts {
        [] => Ok(of),
        [_, ..] => {
            let made = recast_subtype_view(alloc, recasts, &of);
            drop(of);
            made
        }
    }
}

/// A subtype as a place sees it.
/// # Errors
/// `NoMemory` if the allocator refuses memory.
#[tactic(auto, unfolding(crate::specs::Seen::subtype_seen_at))]
pub fn subtype_seen_at<A: Answers>(
    alloc: Global,
    scope: &Scope,
    of: SubtypeView,
    recorder: &mut Recorder<A>,
) -> Result<SubtypeView, NoMemory>
    ensures asked { recorder.new.asked ≡ recorder.old.asked }
    ensures answered { IfOk result (λ seen. FromAnswers recorder.old.log recorder.new.log (λ t. seen ≡ subtype_seen_at t scope.now of)) }
    ensures asks { IfOk result (λ _. AsksOf (place_units scope.now) by_some_name recorder.old.log recorder.new.log) }
{
    let mut recasts = Seq::empty(alloc);
    match add_fulls(scope, of.types.as_slice(), &mut recasts, recorder) {
        Ok(()) => subtype_recast(alloc, recasts.as_slice(), of),
        Err(error) => {
            drop(of);
            Err(error)
        }
    }
}
