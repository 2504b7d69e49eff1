// Declarations of subprograms at a place (ARM 6.1).
ghost use Rattle.std.specs.Prelude.{◌≡◌, ◌<◌, length, option_map, IfOk, OnOk};
ghost use Rattle.al_decl.specs.Checking.{at_place};
ghost use Rattle.al_decl.specs.Placing.{subprogram_checked, subprogram_placed};
ghost use Rattle.al_base_fault.specs.Judging.{map_ok};
ghost use Rattle.al_query.specs.Reads.{FromAnswers};
ghost use Rattle.al_tree.specs.DeclarationViews.{specification_model};
ghost use Rattle.al_view_typed.specs.DeclarationTrees.{declaration_model};

use crate::subprogram_homograph::head_duplicate;
use crate::{Environment, PartAnalyzer, finish, heading_at};
use al_base::NoMemory;
use al_base_fault::CheckResult;
use al_decl_judged::{Heading, declare_subprogram};
use al_query::{Answers, Recorder};
use al_tree::Specification;
use al_view_predefined::StandardTypes;
use al_view_typed::TypedDeclaration;
use std::alloc::Global;

/// A subprogram's declaration by its head, whose first token is on that line: it waits for its body.
/// # Errors
/// `NoMemory` if the allocator refuses memory. The inner error is the first of E301 at the name if its region has a homograph, and the
/// faults of the heading.
pub fn place_subprogram<A: Answers>(
    alloc: Global,
    standard: &StandardTypes,
    env: &mut Environment,
    line: usize,
    heading: &Heading,
    recorder: &mut Recorder<A>,
) -> Result<CheckResult<Option<TypedDeclaration>>, NoMemory>
    requires { 0 < length env.old.scope.regions }
    ensures asked { recorder.new.asked ≡ recorder.old.asked }
    ensures answered { IfOk result (λ checked. FromAnswers recorder.old.log recorder.new.log (λ t. at_place env.new (map_ok (option_map declaration_model) checked) ≡ subprogram_placed t env.old line heading.now)) }
    ensures depth { length env.new.scope.regions ≡ length env.old.scope.regions }
{
    let duplicate = head_duplicate(alloc, standard, env, heading, recorder)?;
    let declared = declare_subprogram(
        alloc,
        standard,
        &mut env.progress,
        &mut env.uncompleted,
        line,
        duplicate,
        heading,
    )?;
    finish(env, declared)
}

/// A specification alone, whose first token is on that line.
/// # Errors
/// `NoMemory` if the allocator refuses memory. The inner error is that of `place_subprogram`.
pub fn check_subprogram<R: PartAnalyzer, A: Answers>(
    alloc: Global,
    standard: &StandardTypes,
    analyzer: &R,
    env: &mut Environment,
    line: usize,
    specification: &Specification,
    recorder: &mut Recorder<A>,
) -> Result<CheckResult<Option<TypedDeclaration>>, NoMemory>
    requires { 0 < length env.old.scope.regions }
    ensures asked { recorder.new.asked ≡ recorder.old.asked }
    ensures answered { IfOk result (λ checked. FromAnswers recorder.old.log recorder.new.log (λ t. at_place env.new (map_ok (option_map declaration_model) checked) ≡ subprogram_checked (R.reading analyzer.now t) t env.old line (specification_model specification.now))) }
    ensures depth { OnOk result (length env.new.scope.regions ≡ length env.old.scope.regions) }
{
    let heading = heading_at(alloc, analyzer, &mut env.scope, specification, recorder)?;
    place_subprogram(alloc, standard, env, line, &heading, recorder)
}
