// What is selected after a name (ARM 4.1.3).
ghost use Rattle.std.specs.Prelude.{◌≡◌, IfOk, OnOk, option_map};
ghost use Rattle.std.specs.Option.{option_copied};
ghost use Rattle.al_overload_lookup.specs.Lookups.{asked_units, construct_of, package_in, selected_in, with_each, with_selected, with_views};
ghost use Rattle.al_scope.specs.Seen.{all_seen_at};
ghost use Rattle.al_scope.specs.Places.{place_units};
ghost use Rattle.al_query.specs.Known.{has_unit};
ghost use Rattle.al_query.specs.Asked.{AsksOf, by_some_name};
ghost use Rattle.al_query.specs.Reads.{FromAnswers};

use crate::Names;
use al_base::{NoMemory, UnitKey};
use al_query::{Answers, Recorder};
use al_scope::{Scope, all_seen_at};
use al_view::{Interface, Symbol, View, ViewKind, Views, is_unit};
use std::alloc::Global;

/// Appends views of a name.
#[tactic(auto, using(std::proofs::lemmas::List::Sums::fold_more))]
pub(crate) fn add_views(views: &mut Interface, name: &[u8], found: &[View]) -> Result<(), NoMemory>
    ensures { OnOk result (views.new ≡ with_views views.old name.now found.now) }
{
    for view in found {
        let view = view.share()?;
        views.declare(name, view)?;
    }
    Ok(())
}

fn has_unit(units: &[UnitKey], unit: &UnitKey) -> bool
    ensures { result ≡ has_unit units.now unit.now }
{
    units.iter().any(|one| is_unit(unit, one))
}

/// The package of the library, if it is mentioned.
fn package_in<'a>(packages: &[UnitKey], view: &'a View) -> Option<&'a Symbol>
    ensures { option_copied result ≡ package_in packages.now view.now }
{
    match view.kind() {
        ViewKind::OfPackage(symbol) => {
            if has_unit(packages, &symbol.unit) {
                Some(symbol)
            } else {
                None
            }
        }
        ViewKind::OfSubprogram(_) => None,
        ViewKind::OfTask(_) => None,
        ViewKind::OfProtected(_) => None,
        ViewKind::OfType(_) => None,
        ViewKind::OfSubtype(_) => None,
        ViewKind::OfObject(_) => None,
        ViewKind::OfComponent => None,
        ViewKind::OfNumber(_) => None,
        ViewKind::OfLiteral(_) => None,
    }
}

/// A construct that may enclose a place.
fn construct_of(view: &View) -> Option<&Symbol>
    ensures { option_copied result ≡ construct_of view.now }
{
    match view.kind() {
        ViewKind::OfSubprogram(subprogram) => Some(&subprogram.symbol),
        ViewKind::OfTask(task) => Some(&task.symbol),
        ViewKind::OfProtected(object) => Some(&object.symbol),
        ViewKind::OfPackage(_) => None,
        ViewKind::OfType(_) => None,
        ViewKind::OfSubtype(_) => None,
        ViewKind::OfObject(_) => None,
        ViewKind::OfComponent => None,
        ViewKind::OfNumber(_) => None,
        ViewKind::OfLiteral(_) => None,
    }
}

/// What was found, as the place sees it.
fn seen_if_any<A: Answers>(
    alloc: Global,
    scope: &Scope,
    views: Option<Views>,
    recorder: &mut Recorder<A>,
) -> Result<Option<Views>, NoMemory>
    ensures asked { recorder.new.asked ≡ recorder.old.asked }
    ensures answered { IfOk result (λ seen. FromAnswers recorder.old.log recorder.new.log (λ t. seen ≡ option_map (all_seen_at t scope.now) views)) }
    ensures asks { IfOk result (λ _. AsksOf (place_units scope.now) by_some_name recorder.old.log recorder.new.log) }
{
    match views {
        Some(views) => {
            let seen = all_seen_at(alloc, scope, views.as_slice(), recorder);
            drop(views);
            Ok(Some(seen?))
        }
        None => Ok(None),
    }
}

/// What is selected after a declaration's name, if it is looked for there.
fn selected_in<A: Answers>(
    alloc: Global,
    scope: &Scope,
    packages: &[UnitKey],
    name: &[u8],
    view: &View,
    recorder: &mut Recorder<A>,
) -> Result<Option<Views>, NoMemory>
    ensures asked { recorder.new.asked ≡ recorder.old.asked }
    ensures answered { IfOk result (λ found. FromAnswers recorder.old.log recorder.new.log (λ t. found ≡ selected_in t scope.now packages.now name.now view.now)) }
    ensures asks { IfOk result (λ _. AsksOf (asked_units scope.now packages.now) by_some_name recorder.old.log recorder.new.log) }
{
    match package_in(packages, view) {
        Some(symbol) => {
            let views = scope.selected(symbol, name, recorder)?;
            let views = all_seen_at(alloc, scope, views.as_slice(), recorder)?;
            Ok(Some(views))
        }
        None => match construct_of(view) {
            Some(symbol) => {
                let views = scope.selected_within(symbol, name, recorder)?;
                seen_if_any(alloc, scope, views, recorder)
            }
            None => Ok(None),
        },
    }
}

/// Adds what was selected after one declaration's name, under the whole name.
fn put_selected(
    names: &mut Names,
    key: &[u8],
    view: &View,
    found: Option<Views>,
) -> Result<(), NoMemory>
    ensures { OnOk result (names.new ≡ with_selected key.now view.now names.old found) }
{
    match found {
        Some(found) => {
            add_views(&mut names.visible, key, found.as_slice())?;
            let view = view.share()?;
            names.prefixes.declare(key, view)?;
            Ok(())
        }
        None => Ok(()),
    }
}

/// Looks up what is selected after one declaration's name, and adds it under the whole name.
fn add_selected<A: Answers>(
    alloc: Global,
    scope: &Scope,
    packages: &[UnitKey],
    names: &mut Names,
    key: &[u8],
    name: &[u8],
    view: &View,
    recorder: &mut Recorder<A>,
) -> Result<(), NoMemory>
    ensures asked { recorder.new.asked ≡ recorder.old.asked }
    ensures answered { OnOk result (FromAnswers recorder.old.log recorder.new.log (λ t. names.new ≡ with_selected key.now view.now names.old (selected_in t scope.now packages.now name.now view.now))) }
    ensures asks { OnOk result (AsksOf (asked_units scope.now packages.now) by_some_name recorder.old.log recorder.new.log) }
{
    let found = selected_in(alloc, scope, packages, name, view, recorder)?;
    put_selected(names, key, view, found)?;
    Ok(())
}

/// What is selected after a name, by the declarations that are visible under it.
pub(crate) fn add_each<A: Answers>(
    alloc: Global,
    scope: &Scope,
    packages: &[UnitKey],
    names: &mut Names,
    key: &[u8],
    name: &[u8],
    views: &[View],
    recorder: &mut Recorder<A>,
) -> Result<(), NoMemory>
    ensures asked { recorder.new.asked ≡ recorder.old.asked }
    ensures answered { OnOk result (FromAnswers recorder.old.log recorder.new.log (λ t. names.new ≡ with_each t scope.now packages.now key.now name.now names.old views.now)) }
    ensures asks { OnOk result (AsksOf (asked_units scope.now packages.now) by_some_name recorder.old.log recorder.new.log) }
{
    for view in views {
        add_selected(alloc, scope, packages, names, key, name, view, recorder)?;
    }
    Ok(())
}
