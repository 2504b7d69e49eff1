// The place at the start of a unit.
ghost use Rattle.std.specs.Prelude.{◌≡◌, [], IfOk, OnOk};
ghost use Rattle.al_query.specs.Reads.{FromAnswers};
ghost use Rattle.al_tree.specs.UnitViews.{library_item_model};
ghost use Rattle.al_check_start.specs.UnitsAt.{own_text, own_view, place_at, symbol_of};
ghost use Rattle.al_scope.specs.UnitPlaces.{view_symbol};

use crate::item::{is_package_item, is_private};
use crate::names::plain_symbol;
use al_base::{NoMemory, UnitKey};
use al_query::{Answers, Recorder};
use al_scope::{OwnText, Scope, UnitPart, enter_unit, mentioned};
use al_scope_context::{Context, mention_all, mention_view};
use al_tree::LibraryItem;
use al_view::{Seq, Symbol, View, ViewKind, copied_unit};
use std::alloc::Global;

/// The symbol of the package or subprogram with this view, if there is one; else the unit's own symbol.
fn symbol_of(alloc: Global, unit: &UnitKey, view: &Option<View>) -> Result<Symbol, NoMemory>
    ensures { IfOk result (λ symbol. symbol ≡ symbol_of unit.now view.now) }
{
    match view {
        Some(view) => match view.kind() {
            ViewKind::OfPackage(symbol) => Ok(symbol.copy(alloc)?),
            ViewKind::OfSubprogram(subprogram) => Ok(subprogram.symbol.copy(alloc)?),
            _ => plain_symbol(alloc, unit),
        },
        None => plain_symbol(alloc, unit),
    }
}

/// A unit's own header: what its source says of its place.
pub(crate) fn own_text(
    alloc: Global,
    unit: &UnitKey,
    item: &LibraryItem,
    context: Context,
    view: &Option<View>,
    stubs: Seq<UnitPart>,
) -> Result<OwnText, NoMemory>
    ensures { IfOk result (λ own. own ≡ own_text unit.now (library_item_model item.now) context view.now stubs) }
{
    let symbol = symbol_of(alloc, unit, view)?;
    let unit = copied_unit(alloc, unit)?;
    let Context { withs, uses, .. } = context;
    Ok(OwnText {
        unit,
        symbol,
        is_package: is_package_item(item),
        is_private: is_private(item),
        stubs,
        withs,
        uses,
    })
}

/// The view under which a library package is visible inside itself.
pub(crate) fn own_view(
    alloc: Global,
    unit: &UnitKey,
    item: &LibraryItem,
) -> Result<Option<View>, NoMemory>
    ensures { IfOk result (λ view. view ≡ own_view unit.now (library_item_model item.now)) }
{
    match item {
        LibraryItem::Package(_, _, _) => {
            let symbol = plain_symbol(alloc, unit)?;
            Ok(Some(View::new(alloc, ViewKind::OfPackage(symbol))?))
        }
        LibraryItem::Subprogram(_, _) => Ok(None),
        LibraryItem::Body(_, _) => Ok(None),
        LibraryItem::PackageBody(_, _) => Ok(None),
        LibraryItem::Subunit(_, _, _, _, _) => Ok(None),
    }
}

/// The regions that enclose a unit's start, and the units that are mentioned there. Packages among these are added to `packages`.
pub(crate) fn place_at<A: Answers>(
    alloc: Global,
    own: &OwnText,
    view: &Option<View>,
    packages: &mut Seq<UnitKey>,
    recorder: &mut Recorder<A>,
) -> Result<Scope, NoMemory>
    requires { packages.old ≡ [] }
    ensures asked { recorder.new.asked ≡ recorder.old.asked }
    ensures answered { IfOk result (λ scope. FromAnswers recorder.old.log recorder.new.log (λ t. (scope, packages.new) ≡ place_at t own.now view.now)) }
{
    let mut scope = Scope::new(alloc);
    enter_unit(alloc, &mut scope, own, recorder)?;
    mention_view(alloc, &mut scope, packages, own.unit.name.as_slice(), view)?;
    let names = mentioned(alloc, own, recorder)?;
    mention_all(
        alloc,
        &own.unit,
        &mut scope,
        packages,
        names.as_slice(),
        recorder,
    )?;
    Ok(scope)
}
