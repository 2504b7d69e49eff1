// One expression in its context.
ghost use Rattle.std.specs.Prelude.{◌≡◌, IfOk};
ghost use Rattle.al_base_fault.specs.Judging.{next, map_ok, unless};
ghost use Rattle.al_overload_nodes.specs.Contexts.{term_checked};
ghost use Rattle.al_overload_nodes.specs.Static.{static_term_checked};
ghost use Rattle.al_overload_values.specs.TextsAt.{term_with_model};
ghost use Rattle.al_query.specs.Asked.{AsksOf, by_some_name};
ghost use Rattle.al_query.specs.Reads.{FromAnswers};
ghost use Rattle.al_tree.specs.ExpressionViews.{expression_model};
ghost use Rattle.al_view_typed.specs.ExpressionViews.{typed_model};
ghost use Rattle.al_overload_values.specs.Surroundings.{site_model, site_units};
ghost use Rattle.al_overload_values.specs.ValuesAt.{checked_at, static_checked_at, value_at};

use crate::context_with_at;
use crate::site::Site;
use crate::words::take_words;
use al_base::NoMemory;
use al_base_fault::{CheckResult, Fault, unless};
use al_overload::{Context, Nominal, Term};
use al_overload_nodes::{Labeller, check_static_term, check_term};
use al_query::{Answers, Recorder};
use al_tree::Expression;
use al_view::Types;
use al_view_typed::Typed;

#[tactic(auto, using(crate::proofs::Seen::seen_unless))]
fn check(
    labeller: &Labeller,
    context: &Context,
    allowed: &Option<Nominal>,
    types: &Types,
    term: CheckResult<(Term, Option<Fault>)>,
) -> Result<CheckResult<Typed>, NoMemory>
    ensures { IfOk result (λ checked. map_ok typed_model checked ≡ next (map_ok term_with_model term) (λ w. unless w.1 (term_checked labeller.now.predefined labeller.now.own context.now allowed.now types.now w.0))) }
{
    match term {
        Ok((term, fault)) => {
            let checked = check_term(labeller, context, allowed, types, &term);
            drop(term);
            Ok(unless(fault, checked?))
        }
        Err(fault) => Ok(Err(fault)),
    }
}

/// The labelled tree of an expression in its context. The type that the context wants is among `types` or one that every unit has; an
/// aggregate is allowed if a nominal subtype is given for it. Its temporaries have no words yet.
/// # Errors
/// `NoMemory` if the allocator refuses memory. The inner error is E401 or E404 of a name in it; else E402 or E403 at its first token, E405
/// and E604 in it.
pub fn checked_at<A: Answers>(
    site: &Site<'_>,
    context: &Context,
    allowed: &Option<Nominal>,
    types: &Types,
    expression: &Expression,
    recorder: &mut Recorder<A>,
) -> Result<CheckResult<Typed>, NoMemory>
    ensures asked { recorder.new.asked ≡ recorder.old.asked }
    ensures answered { IfOk result (λ checked. FromAnswers recorder.old.log recorder.new.log (λ t. map_ok typed_model checked ≡ checked_at t (site_model site.now) context.now allowed.now types.now (expression_model expression.now))) }
    ensures asks { IfOk result (λ _. AsksOf (site_units (site_model site.now)) by_some_name recorder.old.log recorder.new.log) }
{
    let labeller = site.labeller;
    let (scope, packages) = (site.scope, site.packages);
    let term = context_with_at(labeller, scope, packages, expression, recorder)?;
    check(labeller, context, allowed, types, term)
}

#[tactic(auto, using(crate::proofs::Seen::seen_unless))]
fn check_static(
    labeller: &Labeller,
    context: &Context,
    types: &Types,
    term: CheckResult<(Term, Option<Fault>)>,
) -> Result<CheckResult<Typed>, NoMemory>
    ensures { IfOk result (λ checked. map_ok typed_model checked ≡ next (map_ok term_with_model term) (λ w. unless w.1 (static_term_checked labeller.now.predefined labeller.now.own context.now types.now w.1 w.0))) }
{
    match term {
        Ok((term, fault)) => {
            let checked = check_static_term(labeller, context, types, fault, &term);
            drop(term);
            Ok(unless(fault, checked?))
        }
        Err(fault) => Ok(Err(fault)),
    }
}

/// The labelled tree of an expression that must be static in its context. Its temporaries have no words yet.
/// # Errors
/// `NoMemory` if the allocator refuses memory. The inner error is the first of that of `checked_at` and E304 at its first token if it isn't
/// static.
pub fn static_checked_at<A: Answers>(
    site: &Site<'_>,
    context: &Context,
    types: &Types,
    expression: &Expression,
    recorder: &mut Recorder<A>,
) -> Result<CheckResult<Typed>, NoMemory>
    ensures asked { recorder.new.asked ≡ recorder.old.asked }
    ensures answered { IfOk result (λ checked. FromAnswers recorder.old.log recorder.new.log (λ t. map_ok typed_model checked ≡ static_checked_at t (site_model site.now) context.now types.now (expression_model expression.now))) }
    ensures asks { IfOk result (λ _. AsksOf (site_units (site_model site.now)) by_some_name recorder.old.log recorder.new.log) }
{
    let labeller = site.labeller;
    let (scope, packages) = (site.scope, site.packages);
    let term = context_with_at(labeller, scope, packages, expression, recorder)?;
    check_static(labeller, context, types, term)
}

/// The labelled tree of an expression in its context. The words of its temporaries begin at `word`, which is the next free one afterwards.
/// # Errors
/// `NoMemory` if the allocator refuses memory. The inner error is that of `checked_at`.
pub fn value_at<A: Answers>(
    site: &Site<'_>,
    context: &Context,
    allowed: &Option<Nominal>,
    types: &Types,
    expression: &Expression,
    word: &mut u32,
    recorder: &mut Recorder<A>,
) -> Result<CheckResult<Typed>, NoMemory>
    ensures asked { recorder.new.asked ≡ recorder.old.asked }
    ensures answered { IfOk result (λ checked. FromAnswers recorder.old.log recorder.new.log (λ t. (word.new, map_ok typed_model checked) ≡ value_at t (site_model site.now) context.now allowed.now types.now (expression_model expression.now) word.old)) }
    ensures asks { IfOk result (λ _. AsksOf (site_units (site_model site.now)) by_some_name recorder.old.log recorder.new.log) }
{
    let mut checked = checked_at(site, context, allowed, types, expression, recorder)?;
    take_words(&mut checked, word);
    Ok(checked)
}
