// What is left to a unit for completion, asked within its bounds (ARM 3.11.1, 10.1.3).
ghost use Rattle.std.specs.Prelude.{◌≡◌, ◌&&◌, IfOk, OnOk, if◌then◌else◌, is_some, map};
ghost use Rattle.std.specs.Option.{option_copied};
ghost use Rattle.al_base.specs.declared.unit_key.UnitKind.TheVariants.{Body, Sub};
ghost use Rattle.al_view.specs.declared.part.Part.TheVariants.{Stub};
ghost use Rattle.al_view_typed.specs.UnitTrees.{unit_model};
ghost use Rattle.al_unit_graph.specs.Views.{header_model};
ghost use Rattle.al_query.specs.Answers.{declaration, own_view_of, views_of};
ghost use Rattle.al_query.specs.Asked.{AsksOf};
ghost use Rattle.al_query.specs.Known.{body};
ghost use Rattle.al_query.specs.Reads.{FromAnswers};
ghost use Rattle.al_query.specs.declared.query.Property.TheVariants.{Completions, Kind};
ghost use Rattle.al_query.specs.declared.query.Query.TheVariants.{Named, Of};
ghost use Rattle.al_query_outcome.specs.Left.{completed_views, first_view, last_of, one_view, separate, stub_view, views_left};
ghost use Rattle.al_query_outcome.specs.ReadsLaw.{AsksOthers, subunit};
ghost use Rattle.al_query_outcome.specs.Tables.{interface_of};
ghost use Rattle.al_check_bounded.specs.Bounding.{allowed, bounded, may_ask};
ghost use Rattle.al_check_promises.specs.SelfChecks.{declares_itself};
ghost use Rattle.al_check_bounded.specs.LeftHere.{completed_by, learns, learns_as, learns_in};

use crate::{Bounds, answer_within};
use al_base::{Name, NoMemory, UnitKey, UnitKind};
use al_check_promises::{SoundUnit, is_complete};
use al_query::{Answers, Completion, Property, Query, Recorder};
use al_query_outcome::last_of;
use al_unit_graph::{Header, parent_of};
use al_view::{Part, Seq, View};
use std::alloc::Global;

/// The question for a property of the declaration, the body or the subunit with this name.
fn of_unit(
    alloc: Global,
    name: &[u8],
    kind: UnitKind,
    property: Property,
) -> Result<Query, NoMemory>
    ensures { IfOk result (λ query. query ≡ Of (record { name = name.now; kind = kind }) property) }
{
    let name = Name::from_slice(alloc, name)?;
    let unit = UnitKey { name, kind };
    Ok(Query::Of { unit, property })
}

/// The views of completions.
fn views_of(alloc: Global, completions: &[Completion]) -> Result<Seq<View>, NoMemory>
    ensures { IfOk result (λ views. views ≡ map (λ c. c.view) completions.now) }
{
    let mut views = Seq::empty(alloc);
    for completion in completions {
        views.push(completion.view.share()?)?;
    }
    Ok(views)
}

/// The first of these views, if any.
fn first_view(views: &[View]) -> Result<Option<View>, NoMemory>
    ensures { IfOk result (λ view. view ≡ first_view views.now) }
{
    match views {
        [view, ..] => Ok(Some(view.share()?)),
        [] => Ok(None),
    }
}

/// A list of the view, if there is one.
fn one_view(alloc: Global, view: Option<View>) -> Result<Seq<View>, NoMemory>
    ensures { IfOk result (λ views. views ≡ one_view view) }
{
    match view {
        Some(view) => {
            let mut views = Seq::empty(alloc);
            views.push(view)?;
            Ok(views)
        }
        None => Ok(Seq::empty(alloc)),
    }
}

/// What the declaration with this name leaves to its body.
fn left_by_declaration<A: Answers>(
    alloc: Global,
    bounds: &Bounds,
    name: &[u8],
    recorder: &mut Recorder<A>,
) -> Result<Seq<View>, NoMemory>
    ensures asked { recorder.new.asked ≡ recorder.old.asked }
    ensures answered { IfOk result (λ views. FromAnswers recorder.old.log recorder.new.log (λ t. views ≡ completed_views (bounded bounds.now t (Of (declaration name.now) Completions)))) }
    ensures asks { OnOk result (AsksOf bounds.now.known (allowed bounds.now) recorder.old.log recorder.new.log) }
    ensures others { OnOk result (AsksOthers bounds.now.unit recorder.old.log → AsksOthers bounds.now.unit recorder.new.log) }
{
    let query = of_unit(alloc, name, UnitKind::Decl, Property::Completions)?;
    let answer = answer_within(alloc, bounds, &query, recorder)?;
    let views = views_of(alloc, answer.completions())?;
    Ok(views)
}

/// Whether there is a view.
fn is_there(view: Option<&View>) -> bool
    ensures { result ≡ is_some (option_copied view.entry) }
{
    match view {
        Some(_) => true,
        None => false,
    }
}

/// Whether the unit with this name and kind exists: it answers what it is.
fn has_view<A: Answers>(
    alloc: Global,
    bounds: &Bounds,
    name: &[u8],
    kind: UnitKind,
    recorder: &mut Recorder<A>,
) -> Result<bool, NoMemory>
    ensures asked { recorder.new.asked ≡ recorder.old.asked }
    ensures answered { IfOk result (λ b. FromAnswers recorder.old.log recorder.new.log (λ t. b ≡ is_some (own_view_of (bounded bounds.now t (Of (record { name = name.now; kind = kind }) Kind))))) }
    ensures asks { OnOk result (AsksOf bounds.now.known (allowed bounds.now) recorder.old.log recorder.new.log) }
    ensures others { OnOk result (AsksOthers bounds.now.unit recorder.old.log → AsksOthers bounds.now.unit recorder.new.log) }
{
    let query = of_unit(alloc, name, kind, Property::Kind)?;
    let answer = answer_within(alloc, bounds, &query, recorder)?;
    Ok(is_there(answer.own_view()))
}

/// The unit with this name: a body, or a subunit.
fn named(alloc: Global, name: &[u8], is_body: bool) -> Result<UnitKey, NoMemory>
    ensures { IfOk result (λ unit. unit ≡ (if is_body then body name.now else subunit name.now)) }
{
    let name = Name::from_slice(alloc, name)?;
    if is_body {
        let kind = UnitKind::Body;
        return Ok(UnitKey { name, kind });
    }
    let kind = UnitKind::Sub;
    Ok(UnitKey { name, kind })
}

/// The question for the subprogram whose body a stub with this name replaces, in the body with the parent's name or else in the subunit.
fn stub_question(
    alloc: Global,
    parent: &[u8],
    is_body: bool,
    name: &[u8],
) -> Result<Query, NoMemory>
    ensures { IfOk result (λ query. query ≡ Named (if is_body then body parent.now else subunit parent.now) (Stub (last_of name.now)) separate) }
{
    let unit = named(alloc, parent, is_body)?;
    let part = Part::Stub(Name::from_slice(alloc, last_of(name))?);
    let name = Name::from_slice(alloc, b"separate")?;
    Ok(Query::Named { unit, part, name })
}

/// Whether both hold.
fn both(one: bool, other: bool) -> bool
    ensures { result ≡ (one && other) }
{
    one && other
}

/// What is left to a unit for completion, and whether the unit's bounds allow it to ask for that.
#[derive(Drop)]
struct Left {
    views: Seq<View>,
    is_learned: bool,
}

/// Whether the unit with this name and kind may be asked for a property.
fn may_ask_of(
    alloc: Global,
    bounds: &Bounds,
    name: &[u8],
    kind: UnitKind,
    property: Property,
) -> Result<bool, NoMemory>
    ensures { IfOk result (λ b. b ≡ may_ask bounds.now (Of (record { name = name.now; kind = kind }) property)) }
{
    let query = of_unit(alloc, name, kind, property)?;
    Ok(bounds.may_ask(&query))
}

/// Whether the declaration with this name may be asked what it leaves to its body, and what it is.
fn may_ask_declaration(alloc: Global, bounds: &Bounds, name: &[u8]) -> Result<bool, NoMemory>
    ensures { IfOk result (λ b. b ≡ (may_ask bounds.now (Of (declaration name.now) Completions) && may_ask bounds.now (Of (declaration name.now) Kind))) }
{
    let completions = may_ask_of(alloc, bounds, name, UnitKind::Decl, Property::Completions)?;
    let kind = may_ask_of(alloc, bounds, name, UnitKind::Decl, Property::Kind)?;
    Ok(completions && kind)
}

/// The first view in the answer to a question, if any.
fn first_within<A: Answers>(
    alloc: Global,
    bounds: &Bounds,
    query: &Query,
    recorder: &mut Recorder<A>,
) -> Result<Seq<View>, NoMemory>
    ensures asked { recorder.new.asked ≡ recorder.old.asked }
    ensures answered { IfOk result (λ views. FromAnswers recorder.old.log recorder.new.log (λ t. views ≡ one_view (first_view (views_of (bounded bounds.now t query.now))))) }
    ensures asks { OnOk result (AsksOf bounds.now.known (allowed bounds.now) recorder.old.log recorder.new.log) }
    ensures others { OnOk result (AsksOthers bounds.now.unit recorder.old.log → AsksOthers bounds.now.unit recorder.new.log) }
{
    let answer = answer_within(alloc, bounds, query, recorder)?;
    let first = first_view(answer.views())?;
    let views = one_view(alloc, first)?;
    Ok(views)
}

/// The subprogram whose body the stub of the unit replaces, in the body with the parent's name or else in the subunit. It may be asked if the kind
/// of that unit may be.
fn stub_left<A: Answers>(
    alloc: Global,
    bounds: &Bounds,
    parent: &[u8],
    is_body: bool,
    kind: bool,
    recorder: &mut Recorder<A>,
) -> Result<Left, NoMemory>
    ensures asked { recorder.new.asked ≡ recorder.old.asked }
    ensures answered { IfOk result (λ left. FromAnswers recorder.old.log recorder.new.log (λ t. (left.views ≡ one_view (first_view (views_of (bounded bounds.now t (Named (if is_body then body parent.now else subunit parent.now) (Stub (last_of bounds.now.unit.name)) separate))))) × (left.is_learned ≡ (kind && may_ask bounds.now (Named (if is_body then body parent.now else subunit parent.now) (Stub (last_of bounds.now.unit.name)) separate))))) }
    ensures asks { OnOk result (AsksOf bounds.now.known (allowed bounds.now) recorder.old.log recorder.new.log) }
    ensures others { OnOk result (AsksOthers bounds.now.unit recorder.old.log → AsksOthers bounds.now.unit recorder.new.log) }
{
    let query = stub_question(alloc, parent, is_body, bounds.unit.name.as_slice())?;
    let views = first_within(alloc, bounds, &query, recorder)?;
    let may_ask = bounds.may_ask(&query);
    let is_learned = both(kind, may_ask);
    Ok(Left { views, is_learned })
}

/// What is left to a body for completion.
fn left_to_body<A: Answers>(
    alloc: Global,
    bounds: &Bounds,
    recorder: &mut Recorder<A>,
) -> Result<Left, NoMemory>
    ensures asked { recorder.new.asked ≡ recorder.old.asked }
    ensures answered { IfOk result (λ left. FromAnswers recorder.old.log recorder.new.log (λ t. (left.views ≡ views_left Body bounds.now.unit.name (bounded bounds.now t)) × (left.is_learned ≡ learns_as bounds.now Body bounds.now.unit.name (bounded bounds.now t)))) }
    ensures asks { OnOk result (AsksOf bounds.now.known (allowed bounds.now) recorder.old.log recorder.new.log) }
    ensures others { OnOk result (AsksOthers bounds.now.unit recorder.old.log → AsksOthers bounds.now.unit recorder.new.log) }
{
    let name = bounds.unit.name.as_slice();
    let is_learned = may_ask_declaration(alloc, bounds, name)?;
    let views = left_by_declaration(alloc, bounds, name, recorder)?;
    Ok(Left { views, is_learned })
}

/// What is left to a subunit with this parent body for completion.
fn left_in<A: Answers>(
    alloc: Global,
    bounds: &Bounds,
    parent: &[u8],
    recorder: &mut Recorder<A>,
) -> Result<Left, NoMemory>
    ensures asked { recorder.new.asked ≡ recorder.old.asked }
    ensures answered { IfOk result (λ left. FromAnswers recorder.old.log recorder.new.log (λ t. (left.views ≡ one_view (stub_view (bounded bounds.now t) bounds.now.unit.name parent.now)) × (left.is_learned ≡ learns_in bounds.now parent.now bounds.now.unit.name (bounded bounds.now t)))) }
    ensures asks { OnOk result (AsksOf bounds.now.known (allowed bounds.now) recorder.old.log recorder.new.log) }
    ensures others { OnOk result (AsksOthers bounds.now.unit recorder.old.log → AsksOthers bounds.now.unit recorder.new.log) }
{
    let kind = may_ask_of(alloc, bounds, parent, UnitKind::Body, Property::Kind)?;
    let is_body = has_view(alloc, bounds, parent, UnitKind::Body, recorder)?;
    stub_left(alloc, bounds, parent, is_body, kind, recorder)
}

/// What is left to a subunit for completion.
fn left_to_subunit<A: Answers>(
    alloc: Global,
    bounds: &Bounds,
    recorder: &mut Recorder<A>,
) -> Result<Left, NoMemory>
    ensures asked { recorder.new.asked ≡ recorder.old.asked }
    ensures answered { IfOk result (λ left. FromAnswers recorder.old.log recorder.new.log (λ t. (left.views ≡ views_left Sub bounds.now.unit.name (bounded bounds.now t)) × (left.is_learned ≡ learns_as bounds.now Sub bounds.now.unit.name (bounded bounds.now t)))) }
    ensures asks { OnOk result (AsksOf bounds.now.known (allowed bounds.now) recorder.old.log recorder.new.log) }
    ensures others { OnOk result (AsksOthers bounds.now.unit recorder.old.log → AsksOthers bounds.now.unit recorder.new.log) }
{
    match parent_of(bounds.unit.name.as_slice()) {
        Some(parent) => left_in(alloc, bounds, parent, recorder),
        None => Ok(Left {
            views: Seq::empty(alloc),
            is_learned: true,
        }),
    }
}

/// What is left to the unit for completion.
fn left_to<A: Answers>(
    alloc: Global,
    bounds: &Bounds,
    recorder: &mut Recorder<A>,
) -> Result<Left, NoMemory>
    ensures asked { recorder.new.asked ≡ recorder.old.asked }
    ensures answered { IfOk result (λ left. FromAnswers recorder.old.log recorder.new.log (λ t. (left.views ≡ views_left bounds.now.unit.kind bounds.now.unit.name (bounded bounds.now t)) × (left.is_learned ≡ learns bounds.now (bounded bounds.now t)))) }
    ensures asks { OnOk result (AsksOf bounds.now.known (allowed bounds.now) recorder.old.log recorder.new.log) }
    ensures others { OnOk result (AsksOthers bounds.now.unit recorder.old.log → AsksOthers bounds.now.unit recorder.new.log) }
{
    match bounds.unit.kind {
        UnitKind::Body => left_to_body(alloc, bounds, recorder),
        UnitKind::Sub => left_to_subunit(alloc, bounds, recorder),
        UnitKind::Decl => Ok(Left {
            views: Seq::empty(alloc),
            is_learned: true,
        }),
    }
}

/// Whether the unit is a declaration, or a body that acts as one.
fn declares_itself<A: Answers>(
    alloc: Global,
    bounds: &Bounds,
    recorder: &mut Recorder<A>,
) -> Result<bool, NoMemory>
    ensures asked { recorder.new.asked ≡ recorder.old.asked }
    ensures answered { IfOk result (λ b. FromAnswers recorder.old.log recorder.new.log (λ t. b ≡ declares_itself bounds.now.unit (bounded bounds.now t))) }
    ensures asks { OnOk result (AsksOf bounds.now.known (allowed bounds.now) recorder.old.log recorder.new.log) }
    ensures others { OnOk result (AsksOthers bounds.now.unit recorder.old.log → AsksOthers bounds.now.unit recorder.new.log) }
{
    match bounds.unit.kind {
        UnitKind::Decl => Ok(true),
        UnitKind::Sub => Ok(false),
        UnitKind::Body => {
            let name = bounds.unit.name.as_slice();
            let has_view = has_view(alloc, bounds, name, UnitKind::Decl, recorder)?;
            Ok(!has_view)
        }
    }
}

/// Whether a unit without errors and with this header completes what its declaration or its parent body leaves to it, and leaves to others only what
/// it may.
pub(crate) fn completed_by<A: Answers>(
    alloc: Global,
    bounds: &Bounds,
    header: &Header,
    sound: &SoundUnit,
    recorder: &mut Recorder<A>,
) -> Result<bool, NoMemory>
    ensures asked { recorder.new.asked ≡ recorder.old.asked }
    ensures answered { IfOk result (λ b. FromAnswers recorder.old.log recorder.new.log (λ t. b ≡ completed_by bounds.now (header_model header.now) (interface_of sound.now.properties sound.now.parts) (unit_model sound.now.tree) (bounded bounds.now t))) }
    ensures asks { OnOk result (AsksOf bounds.now.known (allowed bounds.now) recorder.old.log recorder.new.log) }
    ensures others { OnOk result (AsksOthers bounds.now.unit recorder.old.log → AsksOthers bounds.now.unit recorder.new.log) }
{
    let left = left_to(alloc, bounds, recorder)?;
    let declares = declares_itself(alloc, bounds, recorder)?;
    let views = left.views.as_slice();
    let complete = is_complete(alloc, &bounds.unit, header, views, declares, sound)?;
    let is_complete = both(left.is_learned, complete);
    Ok(is_complete)
}
