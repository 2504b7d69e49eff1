// How the check enters bodies and private parts (ARM 6.3, 7.1, 8.2).
ghost use Rattle.std.specs.Prelude.{◌≡◌, ◌<◌, length, IfOk, OnOk};
ghost use Rattle.al_base_fault.specs.Judging.{map_ok};
ghost use Rattle.al_scope.specs.Seen.{subtype_seen_at};
ghost use Rattle.al_query.specs.Reads.{FromAnswers};
ghost use Rattle.al_scope.specs.UnitPlaces.{private_regions};
ghost use Rattle.al_check_declared.specs.DeclarationsHere.{with_regions};
ghost use Rattle.al_check_declared.specs.EnteredHere.{body_here, visible_heading, nested_body, opened, private_here, read_entered, renewed_for, visible_result, whole_body};

use crate::{is_of_object, renew_region};
use al_base::NoMemory;
use al_base_fault::CheckResult;
use al_check_here::{AnalyzedHeading, CheckState, begin_private, enter_nested, enter_whole};
use al_decl_judged::ReturnedPart;
use al_query::{Answers, Recorder};
use al_scope::{Scope, enter_private_part, subtype_seen_at};
use al_view::SubtypeView;
use std::alloc::Global;
use std::mem;

/// Makes the private parts of the ancestors visible from here on (ARM 8.2(5)).
fn open_ancestors<A: Answers>(
    state: &mut CheckState,
    recorder: &mut Recorder<A>,
) -> Result<(), NoMemory>
    requires { 0 < length state.old.env.scope.regions }
    ensures asked { recorder.new.asked ≡ recorder.old.asked }
    ensures answered { OnOk result (FromAnswers recorder.old.log recorder.new.log (λ t. state.new ≡ with_regions state.old (private_regions t state.old.unit.own state.old.env.scope.regions))) }
    ensures depth { OnOk result (length state.new.env.scope.regions ≡ length state.old.env.scope.regions) }
{
    let alloc = state.unit.labeller.alloc;
    enter_private_part(alloc, &mut state.env.scope, &state.unit.own, recorder)
}

/// Begins the private part of a package's declaration.
///
/// # Errors
/// `NoMemory` if the allocator refuses memory.
pub fn enter_private<A: Answers>(
    state: &mut CheckState,
    recorder: &mut Recorder<A>,
) -> Result<(), NoMemory>
    ensures asked { recorder.new.asked ≡ recorder.old.asked }
    ensures answered { OnOk result (FromAnswers recorder.old.log recorder.new.log (λ t. state.new ≡ private_here t state.old)) }
{
    let alloc = state.unit.labeller.alloc;
    if state.is_nowhere() {
        begin_private(alloc, state);
        return Ok(());
    }
    open_ancestors(state, recorder)?;
    begin_private(alloc, state);
    Ok(())
}

/// The result of judging a mark once more, as the place sees it now.
fn visible_mark<A: Answers>(
    alloc: Global,
    scope: &Scope,
    of: CheckResult<SubtypeView>,
    recorder: &mut Recorder<A>,
) -> Result<CheckResult<SubtypeView>, NoMemory>
    ensures asked { recorder.new.asked ≡ recorder.old.asked }
    ensures answered { IfOk result (λ seen. FromAnswers recorder.old.log recorder.new.log (λ t. seen ≡ map_ok (subtype_seen_at t scope.now) of)) }
{
    match of {
        Ok(of) => Ok(Ok(subtype_seen_at(alloc, scope, of, recorder)?)),
        Err(fault) => Ok(Err(fault)),
    }
}

/// The result of a subprogram, as the place of its statements sees it.
fn visible_result<A: Answers>(
    alloc: Global,
    scope: &Scope,
    returned: ReturnedPart,
    recorder: &mut Recorder<A>,
) -> Result<ReturnedPart, NoMemory>
    ensures asked { recorder.new.asked ≡ recorder.old.asked }
    ensures answered { IfOk result (λ seen. FromAnswers recorder.old.log recorder.new.log (λ t. seen ≡ visible_result t scope.now returned)) }
{
    match returned {
        ReturnedPart::NoValue => Ok(ReturnedPart::NoValue),
        ReturnedPart::Value(of) => Ok(ReturnedPart::Value(visible_mark(
            alloc, scope, of, recorder,
        )?)),
    }
}

/// The head of a body, with its result as the place of the body sees it: there more may be visible than at the head.
fn see_heading<A: Answers>(
    alloc: Global,
    scope: &Scope,
    read: &mut AnalyzedHeading,
    recorder: &mut Recorder<A>,
) -> Result<(), NoMemory>
    ensures asked { recorder.new.asked ≡ recorder.old.asked }
    ensures answered { OnOk result (FromAnswers recorder.old.log recorder.new.log (λ t. read.new ≡ visible_heading t scope.now read.old)) }
{
    let returned = mem::replace(&mut read.heading.returned, ReturnedPart::NoValue);
    read.heading.returned = visible_result(alloc, scope, returned, recorder)?;
    Ok(())
}

/// Enters the body of a unit that is one subprogram.
fn enter_unit_body<A: Answers>(
    state: &mut CheckState,
    read: AnalyzedHeading,
    recorder: &mut Recorder<A>,
) -> Result<(), NoMemory>
    ensures asked { recorder.new.asked ≡ recorder.old.asked }
    ensures answered { OnOk result (FromAnswers recorder.old.log recorder.new.log (λ t. state.new ≡ whole_body t (record state.old { pending = Some read }) read)) }
{
    if state.is_nowhere() {
        state.pending = Some(read);
        return Ok(());
    }
    let alloc = state.unit.labeller.alloc;
    let mut read = read;
    open_ancestors(state, recorder)?;
    see_heading(alloc, &state.env.scope, &mut read, recorder)?;
    enter_whole(alloc, state, read)
}

/// Gives the region of the protected object the form that the body of this operation sees.
fn renew_for(alloc: Global, state: &mut CheckState, read: &AnalyzedHeading) -> Result<(), NoMemory>
    ensures { OnOk result (state.new ≡ renewed_for state.old read.now) }
{
    if is_of_object(read.role) {
        return renew_region(alloc, state, read);
    }
    Ok(())
}

/// Enters the body of an operation of a protected object in the object's region, or another body inside the unit in a region of its own.
fn enter_nested_body(state: &mut CheckState, read: AnalyzedHeading) -> Result<(), NoMemory>
    ensures { OnOk result (state.new ≡ nested_body state.old read) }
{
    let alloc = state.unit.labeller.alloc;
    renew_for(alloc, state, &read)?;
    enter_nested(alloc, state, read)
}

/// Enters the body whose head was read.
fn enter_read<A: Answers>(
    state: &mut CheckState,
    read: AnalyzedHeading,
    recorder: &mut Recorder<A>,
) -> Result<(), NoMemory>
    ensures asked { recorder.new.asked ≡ recorder.old.asked }
    ensures answered { OnOk result (FromAnswers recorder.old.log recorder.new.log (λ t. state.new ≡ read_entered t (record state.old { pending = Some read }) (Some read))) }
{
    if state.is_whole() {
        return enter_unit_body(state, read, recorder);
    }
    enter_nested_body(state, read)
}

/// Enters the region of the body whose head was read last (ARM 6.3, 8.1).
///
/// # Errors
/// `NoMemory` if the allocator refuses memory.
pub fn enter_body<A: Answers>(
    state: &mut CheckState,
    recorder: &mut Recorder<A>,
) -> Result<(), NoMemory>
    ensures asked { recorder.new.asked ≡ recorder.old.asked }
    ensures answered { OnOk result (FromAnswers recorder.old.log recorder.new.log (λ t. state.new ≡ body_here t state.old)) }
{
    match state.pending.take() {
        Some(read) => enter_read(state, read, recorder),
        None => Ok(()),
    }
}
