// Heads of bodies and stubs inside a unit (ARM 6.3, 10.1.3).
ghost use Rattle.std.specs.Prelude.{◌≡◌, ◌<◌, length, IfOk};
ghost use Rattle.al_base_fault.specs.Judging.{map_ok};
ghost use Rattle.al_query.specs.Reads.{FromAnswers};
ghost use Rattle.al_tree.specs.DeclarationViews.{specification_model};
ghost use Rattle.al_stmts.specs.Views.{effects_model};
ghost use Rattle.al_check_declared.specs.HeadsHere.{head_of, nested_head, stub_here, stub_of, stub_wrong};
ghost use Rattle.al_check_declared.specs.ObjectsHere.{inner_head, operation_head, operation_of};

use crate::placing::{body_at, heading_here, operation_at};
use crate::settled::{Effects, settle_head, settle_operation, settle_stub};
use al_base::NoMemory;
use al_base_fault::Fault;
use al_check_here::{CheckState, stub_names};
use al_decl_judged::{Heading, stub_fault};
use al_query::{Answers, Recorder};
use al_stmts::first_line;
use al_tree::Specification;

/// What is wrong with a stub at a place that allows none.
fn stub_wrong(state: &CheckState, heading: &Heading) -> Result<Option<Fault>, NoMemory>
    ensures { IfOk result (λ wrong. wrong ≡ stub_wrong state.now heading.now) }
{
    let names = stub_names(state.unit.labeller.alloc, state.stubs.as_slice())?;
    let name = &heading.name;
    Ok(stub_fault(
        name.place,
        state.is_immediate(),
        names.as_slice(),
        name.name.as_slice(),
    ))
}

/// Judges a stub with this head.
fn stub_of<A: Answers>(
    state: &mut CheckState,
    line: usize,
    heading: &Heading,
    recorder: &mut Recorder<A>,
) -> Result<Effects, NoMemory>
    requires { 0 < length state.old.env.scope.regions }
    ensures asked { recorder.new.asked ≡ recorder.old.asked }
    ensures answered { IfOk result (λ checked. FromAnswers recorder.old.log recorder.new.log (λ t. (state.new, map_ok effects_model checked) ≡ stub_of t state.old line heading.now)) }
{
    let wrong = stub_wrong(state, heading)?;
    let labeller = &state.unit.labeller;
    let checked = body_at(
        labeller.alloc,
        &labeller.predefined.standard,
        &mut state.env,
        line,
        wrong,
        heading,
        recorder,
    )?;
    settle_stub(state, heading, checked)
}

/// Judges the stub of a subprogram (ARM 10.1.3).
///
/// # Errors
/// `NoMemory` if the allocator refuses memory.
pub fn open_stub<A: Answers>(
    state: &mut CheckState,
    specification: &Specification,
    recorder: &mut Recorder<A>,
) -> Result<Effects, NoMemory>
    requires { 0 < length state.old.env.scope.regions }
    ensures asked { recorder.new.asked ≡ recorder.old.asked }
    ensures answered { IfOk result (λ checked. FromAnswers recorder.old.log recorder.new.log (λ t. (state.new, map_ok effects_model checked) ≡ stub_here t state.old (specification_model specification.now))) }
{
    let heading = heading_here(state, specification, recorder)?;
    let checked = stub_of(state, first_line(specification), &heading, recorder);
    drop(heading);
    checked
}

/// Judges the head of a body.
fn head_of<A: Answers>(
    state: &mut CheckState,
    line: usize,
    heading: Heading,
    recorder: &mut Recorder<A>,
) -> Result<Effects, NoMemory>
    requires { 0 < length state.old.env.scope.regions }
    ensures asked { recorder.new.asked ≡ recorder.old.asked }
    ensures answered { IfOk result (λ checked. FromAnswers recorder.old.log recorder.new.log (λ t. (state.new, map_ok effects_model checked) ≡ head_of t state.old line heading)) }
{
    let labeller = &state.unit.labeller;
    let checked = body_at(
        labeller.alloc,
        &labeller.predefined.standard,
        &mut state.env,
        line,
        None,
        &heading,
        recorder,
    )?;
    settle_head(state, heading, checked)
}

/// Judges what precedes the `is` of a body inside the unit (ARM 6.3).
fn nested_head<A: Answers>(
    state: &mut CheckState,
    specification: &Specification,
    recorder: &mut Recorder<A>,
) -> Result<Effects, NoMemory>
    requires { 0 < length state.old.env.scope.regions }
    ensures asked { recorder.new.asked ≡ recorder.old.asked }
    ensures answered { IfOk result (λ checked. FromAnswers recorder.old.log recorder.new.log (λ t. (state.new, map_ok effects_model checked) ≡ nested_head t state.old (specification_model specification.now))) }
{
    let heading = heading_here(state, specification, recorder)?;
    head_of(state, first_line(specification), heading, recorder)
}

/// Judges the head of the body of an operation.
fn operation_of<A: Answers>(
    state: &mut CheckState,
    line: usize,
    heading: Heading,
    recorder: &mut Recorder<A>,
) -> Result<Effects, NoMemory>
    requires { 0 < length state.old.env.scope.regions }
    ensures asked { recorder.new.asked ≡ recorder.old.asked }
    ensures answered { IfOk result (λ checked. FromAnswers recorder.old.log recorder.new.log (λ t. (state.new, map_ok effects_model checked) ≡ operation_of t state.old line heading)) }
{
    let labeller = &state.unit.labeller;
    let checked = operation_at(
        labeller.alloc,
        &labeller.predefined.standard,
        &mut state.env,
        line,
        &heading,
        recorder,
    )?;
    settle_operation(state, heading, checked)
}

/// Judges what precedes the `is` of the body of a protected subprogram (ARM 9.5.1).
fn operation_head<A: Answers>(
    state: &mut CheckState,
    specification: &Specification,
    recorder: &mut Recorder<A>,
) -> Result<Effects, NoMemory>
    requires { 0 < length state.old.env.scope.regions }
    ensures asked { recorder.new.asked ≡ recorder.old.asked }
    ensures answered { IfOk result (λ checked. FromAnswers recorder.old.log recorder.new.log (λ t. (state.new, map_ok effects_model checked) ≡ operation_head t state.old (specification_model specification.now))) }
{
    let heading = heading_here(state, specification, recorder)?;
    operation_of(state, first_line(specification), heading, recorder)
}

/// Judges what precedes the `is` of a subprogram's body, if that isn't the unit itself (ARM 6.3, 9.5.1).
///
/// # Errors
/// `NoMemory` if the allocator refuses memory.
pub fn inner_head<A: Answers>(
    state: &mut CheckState,
    specification: &Specification,
    recorder: &mut Recorder<A>,
) -> Result<Effects, NoMemory>
    requires { 0 < length state.old.env.scope.regions }
    ensures asked { recorder.new.asked ≡ recorder.old.asked }
    ensures answered { IfOk result (λ checked. FromAnswers recorder.old.log recorder.new.log (λ t. (state.new, map_ok effects_model checked) ≡ inner_head t state.old (specification_model specification.now))) }
{
    if state.is_operation() {
        return operation_head(state, specification, recorder);
    }
    nested_head(state, specification, recorder)
}
