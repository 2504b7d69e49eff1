// Selectors of case statements (ARM 5.4).
ghost use Rattle.std.specs.Prelude.{◌≡◌, IfOk};
ghost use Rattle.al_base_fault.specs.Judging.{next, map_ok, unless};
ghost use Rattle.al_overload_nodes.specs.Ranges.{selector_checked};
ghost use Rattle.al_overload_nodes.specs.RangesSeen.{found_model};
ghost use Rattle.al_overload_values.specs.TextsAt.{term_with_model};
ghost use Rattle.al_query.specs.Asked.{AsksOf, by_some_name};
ghost use Rattle.al_query.specs.Reads.{FromAnswers};
ghost use Rattle.al_tree.specs.ExpressionViews.{expression_model};
ghost use Rattle.al_overload_values.specs.Surroundings.{site_model, site_units};
ghost use Rattle.al_overload_values.specs.ValuesAt.{selector_at, selector_judged_at};

use crate::context_with_at;
use crate::site::Site;
use crate::words::take_found_words;
use al_base::NoMemory;
use al_base_fault::{CheckResult, Fault, unless};
use al_overload::Term;
use al_overload_nodes::{DeterminedValue, Labeller, check_selector};
use al_query::{Answers, Recorder};
use al_tree::Expression;

#[tactic(auto, using(crate::proofs::Seen::seen_unless))]
fn check_found(
    labeller: &Labeller,
    term: CheckResult<(Term, Option<Fault>)>,
) -> Result<CheckResult<DeterminedValue>, NoMemory>
    ensures { IfOk result (λ checked. map_ok found_model checked ≡ next (map_ok term_with_model term) (λ w. unless w.1 (selector_checked labeller.now.predefined labeller.now.own w.0))) }
{
    match term {
        Ok((term, fault)) => {
            let checked = check_selector(labeller, &term);
            drop(term);
            Ok(unless(fault, checked?))
        }
        Err(fault) => Ok(Err(fault)),
    }
}

/// The selector of a case statement with its type, which is the root type if it is of numbers alone (ARM 5.4(4)). Its temporaries have no
/// words yet.
/// # Errors
/// `NoMemory` if the allocator refuses memory. The inner error is E401 or E404 of a name in it; else E402 or E403 at its first token, E405
/// and E604 in it.
pub fn selector_judged_at<A: Answers>(
    site: &Site<'_>,
    expression: &Expression,
    recorder: &mut Recorder<A>,
) -> Result<CheckResult<DeterminedValue>, NoMemory>
    ensures asked { recorder.new.asked ≡ recorder.old.asked }
    ensures answered { IfOk result (λ checked. FromAnswers recorder.old.log recorder.new.log (λ t. map_ok found_model checked ≡ selector_judged_at t (site_model site.now) (expression_model expression.now))) }
    ensures asks { IfOk result (λ _. AsksOf (site_units (site_model site.now)) by_some_name recorder.old.log recorder.new.log) }
{
    let labeller = site.labeller;
    let (scope, packages) = (site.scope, site.packages);
    let term = context_with_at(labeller, scope, packages, expression, recorder)?;
    check_found(labeller, term)
}

/// The selector of a case statement with its type. The words of its temporaries begin at `word`, which is the next free one afterwards.
/// # Errors
/// `NoMemory` if the allocator refuses memory. The inner error is that of `selector_judged_at`.
pub fn selector_at<A: Answers>(
    site: &Site<'_>,
    expression: &Expression,
    word: &mut u32,
    recorder: &mut Recorder<A>,
) -> Result<CheckResult<DeterminedValue>, NoMemory>
    ensures asked { recorder.new.asked ≡ recorder.old.asked }
    ensures answered { IfOk result (λ checked. FromAnswers recorder.old.log recorder.new.log (λ t. (word.new, map_ok found_model checked) ≡ selector_at t (site_model site.now) (expression_model expression.now) word.old)) }
    ensures asks { IfOk result (λ _. AsksOf (site_units (site_model site.now)) by_some_name recorder.old.log recorder.new.log) }
{
    let mut checked = selector_judged_at(site, expression, recorder)?;
    take_found_words(&mut checked, word);
    Ok(checked)
}
