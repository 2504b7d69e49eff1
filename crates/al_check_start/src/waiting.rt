// What waits for completion at the start of a unit, and what is taken before it.
ghost use Rattle.std.specs.Prelude.{◌≡◌, IfOk};
ghost use Rattle.al_scope.specs.Seen.{completions_seen_at};
ghost use Rattle.al_query.specs.Answers.{completions_of, declaration};
ghost use Rattle.al_query.specs.Reads.{FromAnswers};
ghost use Rattle.al_query.specs.declared.query.Property.TheVariants.{Completions};
ghost use Rattle.al_query.specs.declared.query.Query.TheVariants.{Of};
ghost use Rattle.al_tree.specs.UnitViews.{library_item_model};
ghost use Rattle.al_check_start.specs.UnitsAt.{call_depth, completion, depth_of, homonyms_at, progress_at, waiting};

use al_base::{Name, NoMemory, UnitKey, UnitKind};
use al_decl_judged::{Homonyms, Progress, Uncompleted, Words};
use al_query::{Answers, Completion, Property, Query, Recorder};
use al_query_outcome::last_of;
use al_scope::{Scope, completions_seen_at};
use al_tree::LibraryItem;
use al_view::{CallKind, Seq, View, ViewKind, copied_unit};
use std::alloc::Global;

/// What a body completes, under the last identifier of its name.
fn completion(alloc: Global, unit: &UnitKey, view: &Option<View>) -> Result<Uncompleted, NoMemory>
    ensures { IfOk result (λ uncompleted. uncompleted ≡ completion unit.now view.now) }
{
    let Some(view) = view else {
        return Ok(Uncompleted::new(alloc));
    };
    let name = Name::from_slice(alloc, last_of(unit.name.as_slice()))?;
    let view = view.share()?;
    let one = [Completion { name, view }];
    Uncompleted::of(alloc, one.as_slice())
}

/// The question what the declaration with this name leaves to its body.
fn question(alloc: Global, name: &[u8]) -> Result<Query, NoMemory>
    ensures { IfOk result (λ query. query ≡ Of (declaration name.now) Completions) }
{
    let name = Name::from_slice(alloc, name)?;
    let kind = UnitKind::Decl;
    let unit = UnitKey { name, kind };
    let property = Property::Completions;
    Ok(Query::Of { unit, property })
}

/// What the declaration of a package body leaves to it.
fn left<A: Answers>(
    alloc: Global,
    unit: &UnitKey,
    recorder: &mut Recorder<A>,
) -> Result<Uncompleted, NoMemory>
    ensures asked { recorder.new.asked ≡ recorder.old.asked }
    ensures answered { IfOk result (λ uncompleted. FromAnswers recorder.old.log recorder.new.log (λ t. uncompleted ≡ completions_of (t (Of (declaration unit.now.name) Completions)))) }
{
    let query = question(alloc, unit.name.as_slice())?;
    let answer = recorder.ask(&query)?;
    let uncompleted = Uncompleted::of(alloc, answer.completions())?;
    Ok(uncompleted)
}

/// What waits for completion at the start of a unit. `view` is what the unit completes.
pub(crate) fn waiting<A: Answers>(
    alloc: Global,
    unit: &UnitKey,
    item: &LibraryItem,
    view: &Option<View>,
    recorder: &mut Recorder<A>,
) -> Result<Uncompleted, NoMemory>
    ensures asked { recorder.new.asked ≡ recorder.old.asked }
    ensures answered { IfOk result (λ uncompleted. FromAnswers recorder.old.log recorder.new.log (λ t. uncompleted ≡ waiting t unit.now (library_item_model item.now) view.now)) }
{
    match item {
        LibraryItem::PackageBody(_, _) => left(alloc, unit, recorder),
        LibraryItem::Body(_, _) => completion(alloc, unit, view),
        LibraryItem::Subunit(_, _, _, _, _) => completion(alloc, unit, view),
        LibraryItem::Subprogram(_, _) => Ok(Uncompleted::new(alloc)),
        LibraryItem::Package(_, _, _) => Ok(Uncompleted::new(alloc)),
    }
}

/// What waits for completion at the start of a unit, with views as the place of the unit sees them.
pub(crate) fn visible_waiting<A: Answers>(
    alloc: Global,
    unit: &UnitKey,
    item: &LibraryItem,
    view: &Option<View>,
    scope: &Scope,
    recorder: &mut Recorder<A>,
) -> Result<Uncompleted, NoMemory>
    ensures asked { recorder.new.asked ≡ recorder.old.asked }
    ensures answered { IfOk result (λ uncompleted. FromAnswers recorder.old.log recorder.new.log (λ t. uncompleted ≡ completions_seen_at t scope.now (waiting t unit.now (library_item_model item.now) view.now))) }
{
    let waiting = waiting(alloc, unit, item, view, recorder)?.into_completions();
    let seen = completions_seen_at(alloc, scope, waiting.as_slice(), recorder)?;
    Uncompleted::of(alloc, seen.as_slice())
}

/// The number of bodies that enclose a subprogram's declaration.
fn call_depth(call: &CallKind) -> u32
    ensures { result ≡ call_depth call.now }
{
    match call {
        CallKind::Subprogram { depth } => *depth,
        _ => 0,
    }
}

/// The number of bodies that enclose a unit. Only a subunit is inside a body.
fn depth_of(item: &LibraryItem, view: &Option<View>) -> u32
    ensures { result ≡ depth_of (library_item_model item.now) view.now }
{
    match (item, view) {
        (LibraryItem::Subunit(_, _, _, _, _), Some(view)) => match view.kind() {
            ViewKind::OfSubprogram(subprogram) => call_depth(&subprogram.call),
            _ => 0,
        },
        _ => 0,
    }
}

/// The declarations of a unit that are there at its start: a library package's own name.
fn homonyms_at(alloc: Global, unit: &UnitKey, item: &LibraryItem) -> Result<Homonyms, NoMemory>
    ensures { IfOk result (λ homonyms. homonyms ≡ homonyms_at unit.now (library_item_model item.now)) }
{
    let mut homonyms = Homonyms::new(alloc);
    match item {
        LibraryItem::Package(_, _, _) => {
            homonyms.number(last_of(unit.name.as_slice()))?;
            Ok(homonyms)
        }
        LibraryItem::Subprogram(_, _) => Ok(homonyms),
        LibraryItem::Body(_, _) => Ok(homonyms),
        LibraryItem::PackageBody(_, _) => Ok(homonyms),
        LibraryItem::Subunit(_, _, _, _, _) => Ok(homonyms),
    }
}

/// The words, objects and flags that are taken before a unit's start.
pub(crate) fn progress_at(
    alloc: Global,
    unit: &UnitKey,
    item: &LibraryItem,
    view: &Option<View>,
) -> Result<Progress, NoMemory>
    ensures { IfOk result (λ progress. progress ≡ progress_at unit.now (library_item_model item.now) (depth_of (library_item_model item.now) view.now)) }
{
    let homonyms = homonyms_at(alloc, unit, item)?;
    let unit = copied_unit(alloc, unit)?;
    let depth = depth_of(item, view);
    Ok(Progress {
        unit,
        depth,
        words: Words { frame: 3, data: 0 },
        homonyms,
        objects: Seq::empty(alloc),
        flags: Seq::empty(alloc),
        protected_objects: Seq::empty(alloc),
    })
}
