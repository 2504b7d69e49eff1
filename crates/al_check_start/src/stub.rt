// The body in which the stub of a subunit is (ARM 10.1.3).
ghost use Rattle.std.specs.Prelude.{◌≡◌, ◌∷◌, [], ◌++◌, codes, Some, IfOk, OnOk, if◌then◌else◌};
ghost use Rattle.std.specs.Option.{option_copied};
ghost use Rattle.al_query_outcome.specs.ReadsLaw.{subunit};
ghost use Rattle.al_query.specs.Answers.{parent_of};
ghost use Rattle.al_query.specs.Known.{body};
ghost use Rattle.al_query.specs.Reads.{FromAnswers};
ghost use Rattle.al_query.specs.declared.query.Property.TheVariants.{Parent};
ghost use Rattle.al_query.specs.declared.query.Query.TheVariants.{Named, Of};
ghost use Rattle.al_scope.specs.UnitPlaces.{is_subunit, part_of};
ghost use Rattle.al_view.specs.declared.part.Part.TheVariants.{Stub};
ghost use Rattle.al_query_outcome.specs.Left.{body_named, first_view, last_of, stub_view};
ghost use Rattle.al_check_start.specs.Subunits.{next_body, stubs_in, stubs_out, stubs_round};

use al_base::{Name, NoMemory, UnitKey, UnitKind};
use al_query::{Answers, Property, Query, Recorder};
use al_query_outcome::last_of;
use al_scope::UnitPart;
use al_scope_context::view_of;
use al_view::{Part, Seq, View, copied_unit};
use std::alloc::Global;

/// The unit with this name: a body, or a subunit.
fn named(alloc: Global, name: &[u8], is_body: bool) -> Result<UnitKey, NoMemory>
    ensures { IfOk result (λ unit. unit ≡ (if is_body then body name.now else subunit name.now)) }
{
    let name = Name::from_slice(alloc, name)?;
    if is_body {
        let kind = UnitKind::Body;
        return Ok(UnitKey { name, kind });
    }
    let kind = UnitKind::Sub;
    Ok(UnitKey { name, kind })
}

/// The body with this name if there is one, or else the subunit.
pub(crate) fn body_named<A: Answers>(
    alloc: Global,
    name: &[u8],
    recorder: &mut Recorder<A>,
) -> Result<UnitKey, NoMemory>
    ensures asked { recorder.new.asked ≡ recorder.old.asked }
    ensures answered { IfOk result (λ unit. FromAnswers recorder.old.log recorder.new.log (λ t. unit ≡ body_named t name.now)) }
{
    let view = view_of(alloc, name, UnitKind::Body, recorder)?;
    let unit = named(alloc, name, view.is_some())?;
    Ok(unit)
}

/// A copy of the unit, if there is one.
fn copied(alloc: Global, unit: Option<&UnitKey>) -> Result<Option<UnitKey>, NoMemory>
    ensures { IfOk result (λ copy. copy ≡ option_copied unit.entry) }
{
    match unit {
        Some(unit) => Ok(Some(copied_unit(alloc, unit)?)),
        None => Ok(None),
    }
}

/// The parent of a unit, by its own answer.
fn parent_at<A: Answers>(
    alloc: Global,
    unit: &UnitKey,
    recorder: &mut Recorder<A>,
) -> Result<Option<UnitKey>, NoMemory>
    ensures asked { recorder.new.asked ≡ recorder.old.asked }
    ensures answered { IfOk result (λ parent. FromAnswers recorder.old.log recorder.new.log (λ t. parent ≡ parent_of (t (Of unit.now Parent)))) }
{
    let unit = copied_unit(alloc, unit)?;
    let property = Property::Parent;
    let query = Query::Of { unit, property };
    let answer = recorder.ask(&query)?;
    let parent = copied(alloc, answer.parent())?;
    Ok(parent)
}

/// Whether it is a subunit.
fn is_subunit(unit: &UnitKey) -> bool
    ensures { result ≡ is_subunit unit.now }
{
    matches!(unit.kind, UnitKind::Sub)
}

/// The body in which the stub of a subunit is. A library body has none.
fn next_body<A: Answers>(
    alloc: Global,
    unit: &UnitKey,
    recorder: &mut Recorder<A>,
) -> Result<Option<UnitKey>, NoMemory>
    ensures asked { recorder.new.asked ≡ recorder.old.asked }
    ensures answered { IfOk result (λ next. FromAnswers recorder.old.log recorder.new.log (λ t. next ≡ next_body t unit.now)) }
{
    if is_subunit(unit) {
        return parent_at(alloc, unit, recorder);
    }
    Ok(None)
}

/// What is declared before the stub with this name in a body.
fn stub_in(alloc: Global, unit: &UnitKey, stub: &[u8]) -> Result<UnitPart, NoMemory>
    ensures { IfOk result (λ part. part ≡ part_of unit.now (Stub stub.now)) }
{
    let stub = Name::from_slice(alloc, stub)?;
    let unit = copied_unit(alloc, unit)?;
    let part = Part::Stub(stub);
    Ok(UnitPart { unit, part })
}

/// Adds the stub with this name in this body. The name becomes that of this body, and the result is the body in which its own stub is.
fn outward<A: Answers>(
    alloc: Global,
    unit: &UnitKey,
    stub: &mut Name,
    parts: &mut Vec<UnitPart>,
    recorder: &mut Recorder<A>,
) -> Result<Option<UnitKey>, NoMemory>
    ensures asked { recorder.new.asked ≡ recorder.old.asked }
    ensures answered { IfOk result (λ next. FromAnswers recorder.old.log recorder.new.log (λ t. next ≡ next_body t unit.now)) }
    ensures parts { OnOk result (parts.new.items ≡ parts.old.items ++ part_of unit.now (Stub stub.old) ∷ []) }
    ensures stub { OnOk result (stub.new ≡ last_of unit.now.name) }
{
    let part = stub_in(alloc, unit, stub.as_slice())?;
    parts.push(part)?;
    *stub = Name::from_slice(alloc, last_of(unit.name.as_slice()))?;
    let next = next_body(alloc, unit, recorder)?;
    Ok(next)
}

/// Adds the stub with this name in this body, and the stubs that enclose it, from the inside out: at most `most` of them.
fn add_stubs<A: Answers>(
    alloc: Global,
    stub: &mut Name,
    next: Option<UnitKey>,
    most: usize,
    parts: &mut Vec<UnitPart>,
    recorder: &mut Recorder<A>,
) -> Result<(), NoMemory>
    ensures asked { recorder.new.asked ≡ recorder.old.asked }
    ensures answered { IfOk result (λ _. FromAnswers recorder.old.log recorder.new.log (λ t. parts.new.items ≡ parts.old.items ++ stubs_out t most stub.old next)) }
{
    let mut next = next;
    let mut left = most;
    while left > 0 {
        let Some(unit) = &next else {
            return Ok(());
        };
        next = outward(alloc, unit, stub, parts, recorder)?;
        left -= 1;
    }
    Ok(())
}

/// The stubs that enclose the subunit with this name, whose own stub is in this body, outermost first: at most `most` of them.
fn stubs_in<A: Answers>(
    alloc: Global,
    name: &[u8],
    next: Option<UnitKey>,
    most: usize,
    recorder: &mut Recorder<A>,
) -> Result<Seq<UnitPart>, NoMemory>
    ensures asked { recorder.new.asked ≡ recorder.old.asked }
    ensures answered { IfOk result (λ parts. FromAnswers recorder.old.log recorder.new.log (λ t. parts ≡ stubs_in t most name.now next)) }
{
    let mut stub = Name::from_slice(alloc, last_of(name))?;
    let mut parts = Vec::new(alloc);
    add_stubs(alloc, &mut stub, next, most, &mut parts, recorder)?;
    parts.reverse();
    Ok(Seq::new(parts))
}

/// The stubs that enclose the subunit with this name, outermost first.
pub(crate) fn stubs_round<A: Answers>(
    alloc: Global,
    name: &[u8],
    parent: &[u8],
    recorder: &mut Recorder<A>,
) -> Result<Seq<UnitPart>, NoMemory>
    ensures asked { recorder.new.asked ≡ recorder.old.asked }
    ensures answered { IfOk result (λ parts. FromAnswers recorder.old.log recorder.new.log (λ t. parts ≡ stubs_round t name.now parent.now)) }
{
    let first = body_named(alloc, parent, recorder)?;
    let stubs = stubs_in(alloc, name, Some(first), name.len(), recorder)?;
    Ok(stubs)
}

/// The first of these views, if any.
fn first_view(views: &[View]) -> Result<Option<View>, NoMemory>
    ensures { IfOk result (λ view. view ≡ first_view views.now) }
{
    match views {
        [view, ..] => Ok(Some(view.share()?)),
        [] => Ok(None),
    }
}

/// The question for the subprogram whose body a stub with this name replaces.
fn stub_question(alloc: Global, unit: UnitKey, name: &[u8]) -> Result<Query, NoMemory>
    ensures { IfOk result (λ query. query ≡ Named unit (Stub (last_of name.now)) (codes "separate")) }
{
    let part = Part::Stub(Name::from_slice(alloc, last_of(name))?);
    let name = Name::from_slice(alloc, b"separate")?;
    Ok(Query::Named { unit, part, name })
}

/// The subprogram whose body the stub of a subunit replaces.
pub(crate) fn stub_view<A: Answers>(
    alloc: Global,
    name: &[u8],
    parent: &[u8],
    recorder: &mut Recorder<A>,
) -> Result<Option<View>, NoMemory>
    ensures asked { recorder.new.asked ≡ recorder.old.asked }
    ensures answered { IfOk result (λ view. FromAnswers recorder.old.log recorder.new.log (λ t. view ≡ stub_view t name.now parent.now)) }
{
    let unit = body_named(alloc, parent, recorder)?;
    let query = stub_question(alloc, unit, name)?;
    let answer = recorder.ask(&query)?;
    let view = first_view(answer.views())?;
    Ok(view)
}
