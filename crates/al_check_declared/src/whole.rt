// A unit that is one subprogram (ARM 10.1.1, 10.1.3).
ghost use Rattle.std.specs.Prelude.{◌≡◌, IfOk, OnOk};
ghost use Rattle.al_base_fault.specs.Judging.{map_ok};
ghost use Rattle.al_query.specs.Reads.{FromAnswers};
ghost use Rattle.al_tree.specs.DeclarationViews.{specification_model};
ghost use Rattle.al_stmts.specs.Views.{effects_model};
ghost use Rattle.al_check_declared.specs.HeadsHere.{heading_here};
ghost use Rattle.al_check_declared.specs.WholeHere.{undotted, whole_declared, whole_head, whole_head_of, whole_of};

use crate::placing::heading_here;
use crate::settled::{Effects, settle_own, settle_whole};
use al_base::NoMemory;
use al_check_here::CheckState;
use al_decl_completes::unit_completing;
use al_decl_judged::{Heading, declare_body, declare_subprogram};
use al_query::{Answers, Recorder};
use al_stmts::first_line;
use al_tree::Specification;

/// Judges the head of a unit, whose name may have dots.
fn unit_heading<A: Answers>(
    state: &mut CheckState,
    specification: &Specification,
    recorder: &mut Recorder<A>,
) -> Result<Heading, NoMemory>
    ensures asked { recorder.new.asked ≡ recorder.old.asked }
    ensures answered { IfOk result (λ heading. FromAnswers recorder.old.log recorder.new.log (λ t. heading ≡ undotted (heading_here t state.old (specification_model specification.now)))) }
    ensures state { OnOk result (state.new ≡ state.old) }
{
    let mut heading = heading_here(state, specification, recorder)?;
    heading.is_dotted = false;
    Ok(heading)
}

fn whole_of(state: &mut CheckState, line: usize, heading: &Heading) -> Result<Effects, NoMemory>
    ensures { IfOk result (λ checked. (state.new, map_ok effects_model checked) ≡ whole_of state.old line heading.now) }
{
    let labeller = &state.unit.labeller;
    let checked = declare_subprogram(
        labeller.alloc,
        &labeller.predefined.standard,
        &mut state.env.progress,
        &mut state.env.uncompleted,
        line,
        None,
        heading,
    )?;
    settle_own(state, checked)
}

/// Judges the declaration of a unit that is one subprogram.
///
/// # Errors
/// `NoMemory` if the allocator refuses memory.
pub fn whole_subprogram<A: Answers>(
    state: &mut CheckState,
    specification: &Specification,
    recorder: &mut Recorder<A>,
) -> Result<Effects, NoMemory>
    ensures asked { recorder.new.asked ≡ recorder.old.asked }
    ensures answered { IfOk result (λ checked. FromAnswers recorder.old.log recorder.new.log (λ t. (state.new, map_ok effects_model checked) ≡ whole_declared t state.old (specification_model specification.now))) }
{
    let heading = unit_heading(state, specification, recorder)?;
    let checked = whole_of(state, first_line(specification), &heading);
    drop(heading);
    checked
}

fn whole_head_of(state: &mut CheckState, line: usize, heading: Heading) -> Result<Effects, NoMemory>
    ensures { IfOk result (λ checked. (state.new, map_ok effects_model checked) ≡ whole_head_of state.old line heading) }
{
    let labeller = &state.unit.labeller;
    let completes = unit_completing(labeller.alloc, &state.env.uncompleted, &heading)?;
    let checked = declare_body(
        labeller.alloc,
        &labeller.predefined.standard,
        &mut state.env.progress,
        &mut state.env.uncompleted,
        line,
        None,
        &heading,
        &completes,
    )?;
    drop(completes);
    settle_whole(state, heading, checked)
}

/// Judges what precedes the `is` of the body of a unit that is one subprogram.
///
/// # Errors
/// `NoMemory` if the allocator refuses memory.
pub fn whole_head<A: Answers>(
    state: &mut CheckState,
    specification: &Specification,
    recorder: &mut Recorder<A>,
) -> Result<Effects, NoMemory>
    ensures asked { recorder.new.asked ≡ recorder.old.asked }
    ensures answered { IfOk result (λ checked. FromAnswers recorder.old.log recorder.new.log (λ t. (state.new, map_ok effects_model checked) ≡ whole_head t state.old (specification_model specification.now))) }
{
    let heading = unit_heading(state, specification, recorder)?;
    whole_head_of(state, first_line(specification), heading)
}
