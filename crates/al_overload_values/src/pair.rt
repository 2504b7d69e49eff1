// Two bounds as one context.
ghost use Rattle.std.specs.Prelude.{◌≡◌, IfOk};
ghost use Rattle.al_base_fault.specs.Judging.{next, map_ok, unless};
ghost use Rattle.al_overload_nodes.specs.Ranges.{bounds_checked, static_bounds_checked};
ghost use Rattle.al_overload_nodes.specs.RangesSeen.{pair_model};
ghost use Rattle.al_overload_values.specs.TextsAt.{terms_with_model};
ghost use Rattle.al_query.specs.Asked.{AsksOf, by_some_name};
ghost use Rattle.al_query.specs.Reads.{FromAnswers};
ghost use Rattle.al_tree.specs.DeclarationViews.{range_model};
ghost use Rattle.al_overload_values.specs.Surroundings.{site_model, site_units};
ghost use Rattle.al_overload_values.specs.ValuesAt.{pair_judged_at, static_pair_at};

use crate::bounds_with_at;
use crate::site::Site;
use al_base::NoMemory;
use al_base_fault::{CheckResult, Fault, unless};
use al_overload::{Context, Term};
use al_overload_nodes::{Labeller, Pair, check_bounds, check_static_bounds};
use al_query::{Answers, Recorder};
use al_tree::Range;
use al_view::Types;

#[tactic(auto, using(crate::proofs::Seen::seen_unless))]
fn check_pair(
    labeller: &Labeller,
    context: &Context,
    types: &Types,
    bounds: CheckResult<((Term, Term), Option<Fault>)>,
) -> Result<CheckResult<Pair>, NoMemory>
    ensures { IfOk result (λ checked. map_ok pair_model checked ≡ next (map_ok terms_with_model bounds) (λ b. unless b.1 (bounds_checked labeller.now.predefined labeller.now.own context.now types.now b.0.0 b.0.1))) }
{
    match bounds {
        Ok((terms, fault)) => {
            let checked = check_bounds(labeller, context, types, &terms.0, &terms.1);
            drop(terms);
            Ok(unless(fault, checked?))
        }
        Err(fault) => Ok(Err(fault)),
    }
}

/// Two bounds as one context, with the type of their range. Their temporaries have no words yet.
/// # Errors
/// `NoMemory` if the allocator refuses memory. The inner error is E401 or E404 of a name in either; else E402 or E403 at the low one's
/// first token, E405 and E604 in them.
pub fn pair_judged_at<A: Answers>(
    site: &Site<'_>,
    context: &Context,
    types: &Types,
    range: &Range,
    recorder: &mut Recorder<A>,
) -> Result<CheckResult<Pair>, NoMemory>
    ensures asked { recorder.new.asked ≡ recorder.old.asked }
    ensures answered { IfOk result (λ checked. FromAnswers recorder.old.log recorder.new.log (λ t. map_ok pair_model checked ≡ pair_judged_at t (site_model site.now) context.now types.now (range_model range.now))) }
    ensures asks { IfOk result (λ _. AsksOf (site_units (site_model site.now)) by_some_name recorder.old.log recorder.new.log) }
{
    let labeller = site.labeller;
    let (scope, packages) = (site.scope, site.packages);
    let bounds = bounds_with_at(labeller, scope, packages, range, recorder)?;
    check_pair(labeller, context, types, bounds)
}

#[tactic(auto, using(crate::proofs::Seen::seen_unless))]
fn check_static_pair(
    labeller: &Labeller,
    context: &Context,
    types: &Types,
    bounds: CheckResult<((Term, Term), Option<Fault>)>,
) -> Result<CheckResult<Pair>, NoMemory>
    ensures { IfOk result (λ checked. map_ok pair_model checked ≡ next (map_ok terms_with_model bounds) (λ b. unless b.1 (static_bounds_checked labeller.now.predefined labeller.now.own context.now types.now b.1 b.0.0 b.0.1))) }
{
    match bounds {
        Ok((terms, fault)) => {
            let checked = check_static_bounds(labeller, context, types, fault, &terms.0, &terms.1);
            drop(terms);
            Ok(unless(fault, checked?))
        }
        Err(fault) => Ok(Err(fault)),
    }
}

/// Two bounds that must be static, as one context, with the type of their range. Their temporaries have no words yet.
/// # Errors
/// `NoMemory` if the allocator refuses memory. The inner error is the first of that of `pair_judged_at` and E304 at the first token of each
/// bound that isn't static.
pub fn static_pair_at<A: Answers>(
    site: &Site<'_>,
    context: &Context,
    types: &Types,
    range: &Range,
    recorder: &mut Recorder<A>,
) -> Result<CheckResult<Pair>, NoMemory>
    ensures asked { recorder.new.asked ≡ recorder.old.asked }
    ensures answered { IfOk result (λ checked. FromAnswers recorder.old.log recorder.new.log (λ t. map_ok pair_model checked ≡ static_pair_at t (site_model site.now) context.now types.now (range_model range.now))) }
    ensures asks { IfOk result (λ _. AsksOf (site_units (site_model site.now)) by_some_name recorder.old.log recorder.new.log) }
{
    let labeller = site.labeller;
    let (scope, packages) = (site.scope, site.packages);
    let bounds = bounds_with_at(labeller, scope, packages, range, recorder)?;
    check_static_pair(labeller, context, types, bounds)
}
