// Whether the name of a unit is taken by its parent (ARM 8.3(26), 10.1.1).
ghost use Rattle.std.specs.Prelude.{◌≡◌, ◌&&◌, ◌||◌, Some, None, IfOk, if◌then◌else◌};
ghost use Rattle.al_base_fault.specs.declared.check_rule.CheckRule.TheVariants.{Duplicate};
ghost use Rattle.al_unit_header.specs.Units.{item_name, place_of};
ghost use Rattle.al_base_fault.specs.Faults.{fault_at};
ghost use Rattle.al_query.specs.Answers.{declaration, views_of};
ghost use Rattle.al_query.specs.Reads.{FromAnswers};
ghost use Rattle.al_query.specs.declared.query.Query.TheVariants.{Named};
ghost use Rattle.al_tree.specs.UnitViews.{library_item_model};
ghost use Rattle.al_check_start.specs.UnitsAt.{declares, has_views, name_fault, taken_in};
ghost use Rattle.al_unit_graph.specs.Names as names;

use crate::item::{item_name, last_identifier};
use al_base::{Name, NoMemory, UnitKey, UnitKind};
use al_base_fault::{CheckRule, Fault};
use al_overload_lookup::is_none;
use al_query::{Answers, Query, Recorder};
use al_tree::LibraryItem;
use al_unit_graph::parent_of;
use al_view::{Part, View};
use std::alloc::Global;

/// Whether the unit is a declaration, or a body that acts as one. `view` is what it completes, if anything.
fn declares(item: &LibraryItem, view: &Option<View>) -> bool
    ensures { result ≡ declares (library_item_model item.now) view.now }
{
    match item {
        LibraryItem::Subprogram(_, _) => true,
        LibraryItem::Package(_, _, _) => true,
        LibraryItem::Body(_, _) => view.is_none(),
        LibraryItem::PackageBody(_, _) => false,
        LibraryItem::Subunit(_, _, _, _, _) => false,
    }
}

/// The question for a name in a part of a declaration.
fn question(alloc: Global, unit: &[u8], part: Part, name: &[u8]) -> Result<Query, NoMemory>
    ensures { IfOk result (λ query. query ≡ Named (declaration unit.now) part name.now) }
{
    let unit = Name::from_slice(alloc, unit)?;
    let kind = UnitKind::Decl;
    let unit = UnitKey { name: unit, kind };
    let name = Name::from_slice(alloc, name)?;
    Ok(Query::Named { unit, part, name })
}

/// Whether there are views.
fn has_views(views: &[View]) -> bool
    ensures { result ≡ has_views views.now }
{
    !is_none(views)
}

/// Whether a part of a declaration declares the name.
fn has<A: Answers>(
    alloc: Global,
    unit: &[u8],
    part: Part,
    name: &[u8],
    recorder: &mut Recorder<A>,
) -> Result<bool, NoMemory>
    ensures asked { recorder.new.asked ≡ recorder.old.asked }
    ensures answered { IfOk result (λ has. FromAnswers recorder.old.log recorder.new.log (λ t. has ≡ has_views (views_of (t (Named (declaration unit.now) part name.now))))) }
{
    let query = question(alloc, unit, part, name)?;
    let answer = recorder.ask(&query)?;
    let has = has_views(answer.views());
    Ok(has)
}

fn either(one: bool, other: bool) -> bool
    ensures { result ≡ (one || other) }
{
    one || other
}

/// Whether the parent with this name declares the identifier. Both of its parts are asked.
fn taken_in_parent<A: Answers>(
    alloc: Global,
    parent: &[u8],
    name: &[u8],
    recorder: &mut Recorder<A>,
) -> Result<bool, NoMemory>
    ensures asked { recorder.new.asked ≡ recorder.old.asked }
    ensures answered { IfOk result (λ taken. FromAnswers recorder.old.log recorder.new.log (λ t. taken ≡ taken_in t name.now (Some parent.now))) }
{
    let visible = has(alloc, parent, Part::Visible, name, recorder)?;
    let private = has(alloc, parent, Part::Private, name, recorder)?;
    let taken = either(visible, private);
    Ok(taken)
}

/// Whether the parent of the unit with this full name declares this last identifier of it. The parent of a root unit is Standard.
fn is_taken<A: Answers>(
    alloc: Global,
    name: &[u8],
    last: &[u8],
    recorder: &mut Recorder<A>,
) -> Result<bool, NoMemory>
    ensures asked { recorder.new.asked ≡ recorder.old.asked }
    ensures answered { IfOk result (λ taken. FromAnswers recorder.old.log recorder.new.log (λ t. taken ≡ taken_in t last.now (names.parent_of name.now))) }
{
    match parent_of(name) {
        Some(parent) => taken_in_parent(alloc, parent, last, recorder),
        None => has(alloc, b"standard", Part::Visible, last, recorder),
    }
}

/// E301 at the name of the item.
fn duplicate(item: &LibraryItem) -> Fault
    ensures { result ≡ fault_at (place_of (item_name (library_item_model item.now))) Duplicate }
{
    Fault {
        place: item_name(item).first.place,
        rule: CheckRule::Duplicate,
    }
}

/// E301 at the name of an item, if the item declares a name that is taken.
fn duplicate_if(declares: bool, taken: bool, item: &LibraryItem) -> Option<Fault>
    ensures { result ≡ (if declares && taken then Some (fault_at (place_of (item_name (library_item_model item.now))) Duplicate) else None) }
{
    if declares && taken {
        return Some(duplicate(item));
    }
    None
}

/// E301 at the name of a unit, if its parent declares that name too. `view` is what the unit completes, if anything.
pub(crate) fn name_fault<A: Answers>(
    alloc: Global,
    unit: &UnitKey,
    item: &LibraryItem,
    view: &Option<View>,
    recorder: &mut Recorder<A>,
) -> Result<Option<Fault>, NoMemory>
    ensures asked { recorder.new.asked ≡ recorder.old.asked }
    ensures answered { IfOk result (λ fault. FromAnswers recorder.old.log recorder.new.log (λ t. fault ≡ name_fault t unit.now (library_item_model item.now) view.now)) }
{
    let last = last_identifier(item_name(item));
    let taken = is_taken(alloc, unit.name.as_slice(), last, recorder)?;
    let fault = duplicate_if(declares(item, view), taken, item);
    Ok(fault)
}
