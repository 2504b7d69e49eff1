// What an expression is at its place.
ghost use Rattle.std.specs.Prelude.{◌≡◌, IfOk};
ghost use Rattle.al_base_fault.specs.Judging.{map_ok};
ghost use Rattle.al_overload_lookup.specs.Lookups.{asked_units};
ghost use Rattle.al_query.specs.Asked.{AsksOf, by_some_name};
ghost use Rattle.al_query.specs.Reads.{FromAnswers};
ghost use Rattle.al_overload.specs.TermViews.{term_model};
ghost use Rattle.al_overload_values.specs.TermsAt.{mark_at, term_at};
ghost use Rattle.al_tree.specs.ExpressionViews.{expression_model};

use al_base::{NoMemory, UnitKey};
use al_base_fault::CheckResult;
use al_overload::Term;
use al_overload_lookup::names;
use al_overload_readings::{mark_of_text, term_of};
use al_query::{Answers, Recorder};
use al_scope::Scope;
use al_tree::Expression;
use al_view::SubtypeView;
use al_view_predefined::StandardTypes;
use std::alloc::Global;

/// The term of an expression at a place.
/// # Errors
/// `NoMemory` if the allocator refuses memory. The inner error is E401 or E404 at the first of its names that isn't visible or isn't of the
/// right kind.
pub fn term_at<A: Answers>(
    alloc: Global,
    standard: &StandardTypes,
    scope: &Scope,
    packages: &[UnitKey],
    expression: &Expression,
    recorder: &mut Recorder<A>,
) -> Result<CheckResult<Term>, NoMemory>
    ensures asked { recorder.new.asked ≡ recorder.old.asked }
    ensures answered { IfOk result (λ checked. FromAnswers recorder.old.log recorder.new.log (λ t. map_ok term_model checked ≡ term_at t scope.now packages.now (expression_model expression.now))) }
    ensures asks { IfOk result (λ _. AsksOf (asked_units scope.now packages.now) by_some_name recorder.old.log recorder.new.log) }
{
    let names = names(alloc, scope, packages, expression, recorder)?;
    let checked = term_of(alloc, standard, &names, expression)?;
    Ok(checked)
}

/// The subtype that a mark names at a place (ARM 3.2.2).
/// # Errors
/// `NoMemory` if the allocator refuses memory. The inner error is E401 or E404 of a name in it; E404 at what is no mark.
pub fn mark_at<A: Answers>(
    alloc: Global,
    standard: &StandardTypes,
    scope: &Scope,
    packages: &[UnitKey],
    expression: &Expression,
    recorder: &mut Recorder<A>,
) -> Result<CheckResult<SubtypeView>, NoMemory>
    ensures asked { recorder.new.asked ≡ recorder.old.asked }
    ensures answered { IfOk result (λ mark. FromAnswers recorder.old.log recorder.new.log (λ t. mark ≡ mark_at t scope.now packages.now (expression_model expression.now))) }
    ensures asks { IfOk result (λ _. AsksOf (asked_units scope.now packages.now) by_some_name recorder.old.log recorder.new.log) }
{
    let names = names(alloc, scope, packages, expression, recorder)?;
    let mark = mark_of_text(alloc, standard, &names, expression)?;
    Ok(mark)
}
