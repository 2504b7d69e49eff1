// Selectors of case statements, with the choices of their values.
ghost use Rattle.std.specs.Prelude.{◌≡◌, IfOk};
ghost use Rattle.al_base_fault.specs.Judging.{next, map_ok};
ghost use Rattle.al_overload_nodes.specs.RangesSeen.{found_model};
ghost use Rattle.al_query.specs.Asked.{AsksOf, by_some_name};
ghost use Rattle.al_query.specs.Reads.{FromAnswers};
ghost use Rattle.al_stmts_ranges.specs.ChoicesAt.{all_values, choice_at, selected_at, values_of, whole_at};
ghost use Rattle.al_tree.specs.ExpressionViews.{expression_model};
ghost use Rattle.al_tree.specs.StatementViews.{choice_model};
ghost use Rattle.al_overload_values.specs.Surroundings.{site_model, site_units};

use crate::choice::choice_at;
use al_base::NoMemory;
use al_base_fault::CheckResult;
use al_overload::positions_in;
use al_overload_nodes::{DeterminedValue, FoundType};
use al_overload_values::{Site, selector_judged_at};
use al_query::{Answers, Recorder};
use al_stmts::Choice;
use al_tree::{Choice as ChoiceText, Expression};
use al_view::Bounds;
use al_view_predefined::StandardTypes;

/// The range of a whole type: the positions of an enumeration, and all words of an integer type (ARM 5.4(8, 9)).
pub fn all_values(standard: &StandardTypes, found: &FoundType) -> Bounds
    ensures { result ≡ all_values found.now }
{
    match positions_in(standard, &found.types, &found.of) {
        Some(positions) => positions,
        None => Bounds {
            low: i64::MIN,
            high: i64::MAX,
        },
    }
}

fn values_of(standard: &StandardTypes, checked: &CheckResult<DeterminedValue>) -> Bounds
    ensures { result ≡ values_of (map_ok found_model checked.now) }
{
    match checked {
        Ok(selector) => all_values(standard, &selector.found),
        Err(_) => Bounds {
            low: i64::MIN,
            high: i64::MAX,
        },
    }
}

/// The range of the whole type of a selector at a place (ARM 5.4(8, 9)); all words if it is faulty.
/// # Errors
/// `NoMemory` if the allocator refuses memory.
pub fn whole_at<A: Answers>(
    site: &Site<'_>,
    selector: &Expression,
    recorder: &mut Recorder<A>,
) -> Result<Bounds, NoMemory>
    ensures asked { recorder.new.asked ≡ recorder.old.asked }
    ensures answered { IfOk result (λ whole. FromAnswers recorder.old.log recorder.new.log (λ t. whole ≡ whole_at t (site_model site.now) (expression_model selector.now))) }
    ensures asks { IfOk result (λ _. AsksOf (site_units (site_model site.now)) by_some_name recorder.old.log recorder.new.log) }
{
    let checked = selector_judged_at(site, selector, recorder)?;
    Ok(values_of(&site.labeller.predefined.standard, &checked))
}

fn choice_of<A: Answers>(
    site: &Site<'_>,
    selector: &CheckResult<DeterminedValue>,
    choice: &ChoiceText,
    recorder: &mut Recorder<A>,
) -> Result<CheckResult<Choice>, NoMemory>
    ensures asked { recorder.new.asked ≡ recorder.old.asked }
    ensures answered { IfOk result (λ checked. FromAnswers recorder.old.log recorder.new.log (λ t. checked ≡ next (map_ok found_model selector.now) (λ x. choice_at t (site_model site.now) x.found (choice_model choice.now)))) }
    ensures asks { IfOk result (λ _. AsksOf (site_units (site_model site.now)) by_some_name recorder.old.log recorder.new.log) }
{
    match selector {
        Ok(selector) => choice_at(site, &selector.found, choice, recorder),
        Err(fault) => Ok(Err(*fault)),
    }
}

/// A choice of the selector at a place (ARM 5.4).
/// # Errors
/// `NoMemory` if the allocator refuses memory. The inner error is the selector's fault, or else that of `choice_at`.
pub fn selected_at<A: Answers>(
    site: &Site<'_>,
    selector: &Expression,
    choice: &ChoiceText,
    recorder: &mut Recorder<A>,
) -> Result<CheckResult<Choice>, NoMemory>
    ensures asked { recorder.new.asked ≡ recorder.old.asked }
    ensures answered { IfOk result (λ checked. FromAnswers recorder.old.log recorder.new.log (λ t. checked ≡ selected_at t (site_model site.now) (expression_model selector.now) (choice_model choice.now))) }
    ensures asks { IfOk result (λ _. AsksOf (site_units (site_model site.now)) by_some_name recorder.old.log recorder.new.log) }
{
    let found = selector_judged_at(site, selector, recorder)?;
    let checked = choice_of(site, &found, choice, recorder);
    drop(found);
    checked
}
