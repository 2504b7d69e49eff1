// The package that a name of a use clause denotes (ARM 8.4(3)).
ghost use Rattle.std.specs.Prelude.{◌≡◌, map, Err, IfOk, Ok, if◌then◌else◌};
ghost use Rattle.al_overload_lookup.specs.Keys.{denoted, dotted};
ghost use Rattle.al_overload_readings.specs.Readings.{wrong_kind};
ghost use Rattle.al_query.specs.Known.{has_unit};
ghost use Rattle.al_query.specs.Reads.{FromAnswers};
ghost use Rattle.al_tree.specs.DeclarationViews.{compound_model};
ghost use Rattle.al_tree.specs.Lexemes.{identifier_label};
ghost use Rattle.al_base_fault.specs.Judging.{next, map_ok};
ghost use Rattle.al_scope_context.specs.UsesAt.{denoted_package, package_at, package_under, selector_fault, visible_key};

use crate::mention::has_unit;
use al_base::{NoMemory, Place, UnitKey};
use al_base_fault::{CheckResult, Fault};
use al_overload_lookup::{Names, dotted, is_none, look_up_selected, not_visible};
use al_overload_readings::wrong_kind;
use al_query::{Answers, Recorder};
use al_scope::Scope;
use al_tree::{CompoundName, Identifier};
use al_view::{View, ViewKind, Views, copied_unit};
use std::alloc::Global;

/// The key, longer by one selector.
fn longer(alloc: Global, key: &[u8], selector: &Identifier) -> Result<Vec<u8>, NoMemory>
    ensures { IfOk result (λ longer. longer.items ≡ dotted key.now (identifier_label selector.now).text) }
{
    let longer = dotted(alloc, key, selector.name.as_slice())?;
    Ok(longer)
}

/// The fault of a selector after a key: E404 at the name's first token if nothing is looked for after the key, E401 if nothing is visible.
fn selector_fault(names: &Names, place: Place, key: &[u8], selector: &Identifier) -> Option<Fault>
    ensures { result ≡ selector_fault (denoted names.now) place key.now (identifier_label selector.now) }
{
    if is_none(names.prefixes.views(key)) {
        return Some(wrong_kind(place));
    }
    if is_none(names.visible.views(key)) {
        return Some(not_visible(selector));
    }
    None
}

/// The key of a whole name, if all of it is visible.
fn visible_key(
    alloc: Global,
    names: &Names,
    place: Place,
    first: &[u8],
    selectors: &[Identifier],
) -> Result<CheckResult<Vec<u8>>, NoMemory>
    ensures { IfOk result (λ key. map_ok (λ k. k.items) key ≡ visible_key (denoted names.now) place first.now (map identifier_label selectors.now)) }
{
    let mut key = Vec::from_slice(alloc, first)?;
    for selector in selectors {
        let next = longer(alloc, key.as_slice(), selector)?;
        let fault = selector_fault(names, place, next.as_slice(), selector);
        if let Some(fault) = fault {
            return Ok(Err(fault));
        }
        key = next;
    }
    Ok(Ok(key))
}

/// The package, if it is among these.
fn package_among(
    alloc: Global,
    packages: &[UnitKey],
    place: Place,
    unit: &UnitKey,
) -> Result<CheckResult<UnitKey>, NoMemory>
    ensures { IfOk result (λ found. found ≡ (if has_unit packages.now unit.now then Ok unit.now else Err (wrong_kind place))) }
{
    if has_unit(packages, unit) {
        return Ok(Ok(copied_unit(alloc, unit)?));
    }
    Ok(Err(wrong_kind(place)))
}

/// The package among all that is visible under a name, if it is mentioned.
fn package_under(
    alloc: Global,
    packages: &[UnitKey],
    place: Place,
    views: &[View],
) -> Result<CheckResult<UnitKey>, NoMemory>
    ensures { IfOk result (λ unit. unit ≡ package_under packages.now place views.now) }
{
    match views {
        [view, ..] => match view.kind() {
            ViewKind::OfPackage(symbol) => {
                let found = package_among(alloc, packages, place, &symbol.unit)?;
                Ok(found)
            }
            ViewKind::OfSubprogram(_) => Ok(Err(wrong_kind(place))),
            ViewKind::OfTask(_) => Ok(Err(wrong_kind(place))),
            ViewKind::OfProtected(_) => Ok(Err(wrong_kind(place))),
            ViewKind::OfType(_) => Ok(Err(wrong_kind(place))),
            ViewKind::OfSubtype(_) => Ok(Err(wrong_kind(place))),
            ViewKind::OfObject(_) => Ok(Err(wrong_kind(place))),
            ViewKind::OfComponent => Ok(Err(wrong_kind(place))),
            ViewKind::OfNumber(_) => Ok(Err(wrong_kind(place))),
            ViewKind::OfLiteral(_) => Ok(Err(wrong_kind(place))),
        },
        [] => Ok(Err(wrong_kind(place))),
    }
}

/// The package under a key, if all of the key is visible.
fn package_after(
    alloc: Global,
    packages: &[UnitKey],
    names: &Names,
    place: Place,
    key: CheckResult<Vec<u8>>,
) -> Result<CheckResult<UnitKey>, NoMemory>
    ensures { IfOk result (λ unit. unit ≡ next (map_ok (λ k. k.items) key) (λ k. package_under packages.now place ((denoted names.now).visible k))) }
{
    match key {
        Ok(key) => {
            let unit = package_under(alloc, packages, place, names.visible.views(key.as_slice()))?;
            Ok(unit)
        }
        Err(fault) => Ok(Err(fault)),
    }
}

/// The package that a name denotes, if these names of its source are found.
fn denoted_package(
    alloc: Global,
    packages: &[UnitKey],
    names: &Names,
    name: &CompoundName,
) -> Result<CheckResult<UnitKey>, NoMemory>
    ensures { IfOk result (λ unit. unit ≡ denoted_package packages.now (denoted names.now) (compound_model name.now)) }
{
    let first = name.first.name.as_slice();
    let place = name.first.place;
    if is_none(names.visible.views(first)) {
        return Ok(Err(not_visible(&name.first)));
    }
    let key = visible_key(alloc, names, place, first, name.selectors.as_slice())?;
    let unit = package_after(alloc, packages, names, place, key)?;
    Ok(unit)
}

/// The package that a name denotes at a place; E401 if a name in it isn't visible, E404 at what is no package.
pub(crate) fn package_at<A: Answers>(
    alloc: Global,
    scope: &Scope,
    packages: &[UnitKey],
    name: &CompoundName,
    recorder: &mut Recorder<A>,
) -> Result<CheckResult<UnitKey>, NoMemory>
    ensures asked { recorder.new.asked ≡ recorder.old.asked }
    ensures answered { IfOk result (λ unit. FromAnswers recorder.old.log recorder.new.log (λ t. unit ≡ package_at t scope.now packages.now (compound_model name.now))) }
{
    let selectors = name.selectors.as_slice();
    let names = look_up_selected(alloc, scope, packages, &name.first, selectors, recorder)?;
    let unit = denoted_package(alloc, packages, &names, name)?;
    Ok(unit)
}
