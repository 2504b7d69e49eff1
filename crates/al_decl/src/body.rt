// Heads of bodies and stubs at a place (ARM 6.3, 10.1.3).
ghost use Rattle.std.specs.Prelude.{◌≡◌, ◌<◌, length, is_some, option_map, IfOk};
ghost use Rattle.al_decl.specs.Checking.{at_place};
ghost use Rattle.al_decl.specs.Placing.{body_after, body_placed, head_duplicate};
ghost use Rattle.al_base_fault.specs.Judging.{map_ok};
ghost use Rattle.al_query.specs.Reads.{FromAnswers};
ghost use Rattle.al_decl_judged.specs.Bodies.{IsWaiting, new_body_model};
ghost use Rattle.al_decl_judged.specs.Completions.{IsCompleting};
ghost use Rattle.al_decl_judged.specs.Profiles.{specification_of};
ghost use Rattle.al_decl_judged.specs.Subprograms.{joined_waiting};
ghost use Rattle.al_decl_judged.specs.declared.body.Completing.{Completing};
ghost use Rattle.al_decl.specs.Bodies.{placed_model};

use crate::subprogram_homograph::head_duplicate;
use crate::{Environment, finish_right};
use al_base::NoMemory;
use al_base_fault::{CheckResult, Fault};
use al_decl_judged::{Completing, Heading, NewBody, completing_of, declare_body};
use al_query::{Answers, Recorder};
use al_view::Symbol;
use al_view_predefined::StandardTypes;
use al_view_typed::TypedDeclaration;
use std::alloc::Global;

/// A body or stub that is right: what it does at its place, and the symbol of its code.
#[derive(Drop)]
pub struct PlacedBody {
    /// What it does at its place, if anything.
    pub effect: Option<TypedDeclaration>,
    /// The symbol of its code.
    pub symbol: Symbol,
}

/// What a body declares becomes visible.
fn finish_body(
    env: &mut Environment,
    body: CheckResult<NewBody>,
) -> Result<CheckResult<PlacedBody>, NoMemory>
    requires { 0 < length env.old.scope.regions }
    ensures made { IfOk result (λ checked. at_place env.new (map_ok placed_model checked) ≡ map_ok (body_after env.old) (joined_waiting env.old.progress env.old.uncompleted (map_ok new_body_model body))) }
    ensures depth { length env.new.scope.regions ≡ length env.old.scope.regions }
{
    match body {
        Ok(body) => {
            let NewBody { declared, symbol } = body;
            match finish_right(env, declared) {
                Ok(effect) => Ok(Ok(PlacedBody { effect, symbol })),
                Err(none) => Err(none),
            }
        }
        Err(fault) => Ok(Err(fault)),
    }
}

/// A body by what it completes.
fn complete(
    alloc: Global,
    standard: &StandardTypes,
    env: &mut Environment,
    line: usize,
    stub: Option<Fault>,
    heading: &Heading,
    completing: &Completing,
) -> Result<CheckResult<PlacedBody>, NoMemory>
    requires inside { 0 < length env.old.scope.regions }
    requires waiting { IsWaiting env.old.uncompleted completing.now }
    ensures made { IfOk result (λ checked. at_place env.new (map_ok placed_model checked) ≡ body_placed env.old line stub heading.now completing.now) }
    ensures depth { length env.new.scope.regions ≡ length env.old.scope.regions }
{
    let body = declare_body(
        alloc,
        standard,
        &mut env.progress,
        &mut env.uncompleted,
        line,
        stub,
        heading,
        completing,
    )?;
    finish_body(env, body)
}

/// The head of a body or stub, whose first token is on that line. It completes the first declaration that waits with its name and types, or
/// declares its subprogram. `stub` is the fault of a stub that isn't allowed there; a body in a protected object's may not declare.
/// # Errors
/// `NoMemory` if the allocator refuses memory. The inner error is the first of `stub`, the faults of the heading, E303 if it doesn't
/// conform, and E301 or E303 if it completes nothing and may not be alone.
pub fn place_body<A: Answers>(
    alloc: Global,
    standard: &StandardTypes,
    env: &mut Environment,
    line: usize,
    stub: Option<Fault>,
    may_declare: bool,
    heading: &Heading,
    recorder: &mut Recorder<A>,
) -> Result<CheckResult<PlacedBody>, NoMemory>
    requires { 0 < length env.old.scope.regions }
    ensures asked { recorder.new.asked ≡ recorder.old.asked }
    ensures answered { IfOk result (λ checked. FromAnswers recorder.old.log recorder.new.log (λ t. (completed : Completing) × IsCompleting env.old.uncompleted heading.now.name (specification_of heading.now) may_declare (is_some (head_duplicate t env.old heading.now)) completed × (at_place env.new (map_ok placed_model checked) ≡ body_placed env.old line stub heading.now completed))) }
    ensures depth { length env.new.scope.regions ≡ length env.old.scope.regions }
{
    let duplicate = head_duplicate(alloc, standard, env, heading, recorder)?;
    let completes = completing_of(
        alloc,
        &env.uncompleted,
        heading,
        may_declare,
        duplicate.is_some(),
    )?;
    complete(alloc, standard, env, line, stub, heading, &completes)
}
