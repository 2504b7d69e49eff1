// Heads of bodies and stubs, judged by the table of answers (ARM 6.3, 10.1.3).
ghost use Rattle.std.specs.Prelude.{◌≡◌, ◌<◌, length, IfOk, OnOk};
ghost use Rattle.al_decl.specs.Checking.{at_place};
ghost use Rattle.al_decl.specs.Bodies.{placed_model};
ghost use Rattle.al_base_fault.specs.Judging.{map_ok};
ghost use Rattle.al_query.specs.Reads.{FromAnswers};
ghost use Rattle.al_tree.specs.DeclarationViews.{specification_model};
ghost use Rattle.al_check_declared.specs.HeadsHere.{body_at, heading_here};
ghost use Rattle.al_check_declared.specs.ObjectsHere.{operation_at};

use al_base::NoMemory;
use al_base_fault::{CheckResult, Fault};
use al_check_here::CheckState;
use al_decl::{Environment, PlacedBody, has_right_marks, heading_at, place_body};
use al_decl_ada::AdaPartAnalyzer;
use al_decl_judged::Heading;
use al_query::{Answers, Recorder};
use al_tree::Specification;
use al_view_predefined::StandardTypes;
use std::alloc::Global;

/// Judges what precedes the `is` of a body, or is a subprogram's declaration. The place is the same after it.
pub(crate) fn heading_here<A: Answers>(
    state: &mut CheckState,
    specification: &Specification,
    recorder: &mut Recorder<A>,
) -> Result<Heading, NoMemory>
    ensures asked { recorder.new.asked ≡ recorder.old.asked }
    ensures answered { IfOk result (λ heading. FromAnswers recorder.old.log recorder.new.log (λ t. heading ≡ heading_here t state.old (specification_model specification.now))) }
    ensures state { OnOk result (state.new ≡ state.old) }
{
    let labeller = &state.unit.labeller;
    let packages = state.unit.packages.as_slice();
    let unit = &state.unit.own.unit;
    let parts = AdaPartAnalyzer {
        labeller,
        packages,
        unit,
    };
    heading_at(
        labeller.alloc,
        &parts,
        &mut state.env.scope,
        specification,
        recorder,
    )
}

/// Judges a body or stub with this head: it completes the first declaration that waits with its name and its types.
pub(crate) fn body_at<A: Answers>(
    alloc: Global,
    standard: &StandardTypes,
    env: &mut Environment,
    line: usize,
    stub: Option<Fault>,
    heading: &Heading,
    recorder: &mut Recorder<A>,
) -> Result<CheckResult<PlacedBody>, NoMemory>
    requires { 0 < length env.old.scope.regions }
    ensures asked { recorder.new.asked ≡ recorder.old.asked }
    ensures answered { IfOk result (λ checked. FromAnswers recorder.old.log recorder.new.log (λ t. at_place env.new (map_ok placed_model checked) ≡ body_at t env.old line stub heading.now)) }
{
    place_body(alloc, standard, env, line, stub, true, heading, recorder)
}

/// Judges the head of the body of a protected subprogram, which completes a declaration of the object (ARM 9.4(10)).
pub(crate) fn operation_at<A: Answers>(
    alloc: Global,
    standard: &StandardTypes,
    env: &mut Environment,
    line: usize,
    heading: &Heading,
    recorder: &mut Recorder<A>,
) -> Result<CheckResult<PlacedBody>, NoMemory>
    requires { 0 < length env.old.scope.regions }
    ensures asked { recorder.new.asked ≡ recorder.old.asked }
    ensures answered { IfOk result (λ checked. FromAnswers recorder.old.log recorder.new.log (λ t. at_place env.new (map_ok placed_model checked) ≡ operation_at t env.old line heading.now)) }
{
    let may_declare = !has_right_marks(heading);
    place_body(
        alloc,
        standard,
        env,
        line,
        None,
        may_declare,
        heading,
        recorder,
    )
}
