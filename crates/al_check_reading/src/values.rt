// Expressions at the place that the check of a unit has reached.
ghost use Rattle.std.specs.Prelude.{◌≡◌, IfOk};
ghost use Rattle.std.specs.Option.{option_copied};
ghost use Rattle.al_base_fault.specs.Judging.{map_ok};
ghost use Rattle.al_query.specs.Reads.{FromAnswers};
ghost use Rattle.al_stmts_text.specs.PerformedViews.{call_effect_model};
ghost use Rattle.al_tree.specs.ExpressionViews.{expression_model};
ghost use Rattle.al_view_typed.specs.ExpressionViews.{typed_model};
ghost use Rattle.al_overload_nodes.specs.RangesSeen.{found_model};
ghost use Rattle.al_check_here.specs.Stacks.{innermost};
ghost use Rattle.al_check_reading.specs.ValuesHere.{condition_here, moment_here, call_effect_here, result_from, result_here, result_of, selector_here, source_here, surroundings, target_here, value_found};
ghost use Rattle.al_overload_values.specs.Surroundings.{site_model};

use al_base::NoMemory;
use al_base_fault::CheckResult;
use al_check_declared::not_yet_fault;
use al_check_here::CheckState;
use al_overload_nodes::DeterminedValue;
use al_overload_values::{
    Site, condition_at, moment_at, result_at, selector_at, source_at, target_at,
};
use al_query::{Answers, Recorder};
use al_stmts_ranges::call_effect_at;
use al_stmts_text::CallEffect;
use al_tree::Expression;
use al_view::SubtypeView;
use al_view_typed::Typed;

/// The context of expressions at the place.
pub(crate) fn site(state: &CheckState) -> Site<'_>
    ensures { site_model result ≡ surroundings state.now }
{
    Site {
        labeller: &state.unit.labeller,
        scope: &state.env.scope,
        packages: state.unit.packages.as_slice(),
    }
}

/// Judges a condition (ARM 5.3, 5.5, 5.7).
///
/// # Errors
/// `NoMemory` if the allocator refuses memory.
pub fn condition<A: Answers>(
    state: &mut CheckState,
    expression: &Expression,
    recorder: &mut Recorder<A>,
) -> Result<CheckResult<Typed>, NoMemory>
    ensures asked { recorder.new.asked ≡ recorder.old.asked }
    ensures answered { IfOk result (λ checked. FromAnswers recorder.old.log recorder.new.log (λ t. (state.new, map_ok typed_model checked) ≡ condition_here t state.old (expression_model expression.now))) }
{
    let mut word = state.word();
    let checked = condition_at(&site(state), expression, &mut word, recorder)?;
    state.set_word(word);
    Ok(checked)
}

/// Judges the expression of a `delay until` (ARM 9.6).
///
/// # Errors
/// `NoMemory` if the allocator refuses memory.
pub fn moment<A: Answers>(
    state: &mut CheckState,
    expression: &Expression,
    recorder: &mut Recorder<A>,
) -> Result<CheckResult<Typed>, NoMemory>
    ensures asked { recorder.new.asked ≡ recorder.old.asked }
    ensures answered { IfOk result (λ checked. FromAnswers recorder.old.log recorder.new.log (λ t. (state.new, map_ok typed_model checked) ≡ moment_here t state.old (expression_model expression.now))) }
{
    let mut word = state.word();
    let checked = moment_at(&site(state), expression, &mut word, recorder)?;
    state.set_word(word);
    Ok(checked)
}

/// Judges the target of an assignment (ARM 5.2).
///
/// # Errors
/// `NoMemory` if the allocator refuses memory.
pub fn target<A: Answers>(
    state: &mut CheckState,
    expression: &Expression,
    recorder: &mut Recorder<A>,
) -> Result<CheckResult<Typed>, NoMemory>
    ensures asked { recorder.new.asked ≡ recorder.old.asked }
    ensures answered { IfOk result (λ checked. FromAnswers recorder.old.log recorder.new.log (λ t. (state.new, map_ok typed_model checked) ≡ target_here t state.old (expression_model expression.now))) }
{
    let mut word = state.word();
    let checked = target_at(&site(state), expression, &mut word, recorder)?;
    state.set_word(word);
    Ok(checked)
}

/// Judges the value that is assigned to a target that is right.
///
/// # Errors
/// `NoMemory` if the allocator refuses memory.
pub fn source<A: Answers>(
    state: &mut CheckState,
    target: &Expression,
    value: &Expression,
    recorder: &mut Recorder<A>,
) -> Result<CheckResult<Typed>, NoMemory>
    ensures asked { recorder.new.asked ≡ recorder.old.asked }
    ensures answered { IfOk result (λ checked. FromAnswers recorder.old.log recorder.new.log (λ t. (state.new, map_ok typed_model checked) ≡ source_here t state.old (expression_model target.now) (expression_model value.now))) }
{
    let mut word = state.word();
    let checked = source_at(&site(state), target, value, &mut word, recorder)?;
    state.set_word(word);
    Ok(checked)
}

/// Judges a call statement: a name alone (ARM 6.4, 9.5.3).
///
/// # Errors
/// `NoMemory` if the allocator refuses memory.
pub fn call_effect<A: Answers>(
    state: &mut CheckState,
    expression: &Expression,
    recorder: &mut Recorder<A>,
) -> Result<CheckResult<CallEffect>, NoMemory>
    ensures asked { recorder.new.asked ≡ recorder.old.asked }
    ensures answered { IfOk result (λ checked. FromAnswers recorder.old.log recorder.new.log (λ t. (state.new, map_ok call_effect_model checked) ≡ call_effect_here t state.old (expression_model expression.now))) }
{
    let mut word = state.word();
    let checked = call_effect_at(&site(state), expression, &mut word, recorder)?;
    state.set_word(word);
    Ok(checked)
}

/// The subtype of the result of the innermost body, if it is a function.
fn result_subtype(state: &CheckState) -> Option<&SubtypeView>
    ensures { option_copied result ≡ result_of (innermost state.now.bodies) }
{
    match state.bodies.innermost() {
        Some(body) => body.result.as_ref(),
        None => None,
    }
}

/// Judges the value of a return statement, for a result of this subtype.
fn returned<A: Answers>(
    state: &CheckState,
    expression: &Expression,
    word: &mut u32,
    recorder: &mut Recorder<A>,
) -> Result<CheckResult<Typed>, NoMemory>
    ensures asked { recorder.new.asked ≡ recorder.old.asked }
    ensures answered { IfOk result (λ checked. FromAnswers recorder.old.log recorder.new.log (λ t. (word.new, map_ok typed_model checked) ≡ result_from t state.now (expression_model expression.now) word.old (result_of (innermost state.now.bodies)))) }
{
    match result_subtype(state) {
        Some(of) => result_at(&site(state), of, expression, word, recorder),
        None => Ok(Err(not_yet_fault())),
    }
}

/// Judges the value that the innermost function returns (ARM 6.5).
///
/// # Errors
/// `NoMemory` if the allocator refuses memory.
pub fn result_value<A: Answers>(
    state: &mut CheckState,
    expression: &Expression,
    recorder: &mut Recorder<A>,
) -> Result<CheckResult<Typed>, NoMemory>
    ensures asked { recorder.new.asked ≡ recorder.old.asked }
    ensures answered { IfOk result (λ checked. FromAnswers recorder.old.log recorder.new.log (λ t. (state.new, map_ok typed_model checked) ≡ result_here t state.old (expression_model expression.now))) }
{
    let mut word = state.word();
    let checked = returned(state, expression, &mut word, recorder)?;
    state.set_word(word);
    Ok(checked)
}

/// The value of a selector, whose type was determined.
fn value_of(found: CheckResult<DeterminedValue>) -> CheckResult<Typed>
    ensures { map_ok typed_model result ≡ map_ok value_found (map_ok found_model found) }
{
    match found {
        Ok(found) => Ok(found.into_value()),
        Err(fault) => Err(fault),
    }
}

/// Judges the selector of a case statement (ARM 5.4).
///
/// # Errors
/// `NoMemory` if the allocator refuses memory.
pub fn selector<A: Answers>(
    state: &mut CheckState,
    expression: &Expression,
    recorder: &mut Recorder<A>,
) -> Result<CheckResult<Typed>, NoMemory>
    ensures asked { recorder.new.asked ≡ recorder.old.asked }
    ensures answered { IfOk result (λ checked. FromAnswers recorder.old.log recorder.new.log (λ t. (state.new, map_ok typed_model checked) ≡ selector_here t state.old (expression_model expression.now))) }
{
    let mut word = state.word();
    let found = selector_at(&site(state), expression, &mut word, recorder)?;
    state.set_word(word);
    Ok(value_of(found))
}
