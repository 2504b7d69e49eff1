// The choices of case statements (ARM 5.4), which are read before the statements of any alternative.
ghost use Rattle.std.specs.Prelude.{◌≡◌, IfOk, OnOk, fold, map, option_map};
ghost use Rattle.al_base_fault.specs.Judging.{map_ok};
ghost use Rattle.al_query.specs.Reads.{FromAnswers};
ghost use Rattle.al_stmts.specs.Cases.{no_choice, with_choice};
ghost use Rattle.al_tree.specs.ExpressionViews.{expression_model};
ghost use Rattle.al_tree.specs.StatementViews.{alternative_model, alternatives_of, choice_model};
ghost use Rattle.al_view_typed.specs.ExpressionViews.{typed_model};
ghost use Rattle.al_stmts.specs.Readings.{giving};
ghost use Rattle.al_stmts.specs.Walking.{all_choices, choices_walked, more_choices, right_choices};
ghost use Rattle.al_stmts_text.specs.Chosen.{choices_of, with_chosen};

use crate::analyzer::Analyzer;
use al_base::NoMemory;
use al_base_fault::CheckResult;
use al_stmts::{AlternativeChoices, CaseChoices, selector_of};
use al_tree::{Alternative, Choice, Expression};
use al_view_typed::Typed;
use std::alloc::Global;

/// Adds a choice of an alternative, or its fault.
fn add_choice<R: Analyzer>(
    analyzer: &mut R,
    selector: &Expression,
    choices: &mut AlternativeChoices,
    choice: &Choice,
) -> Result<(), NoMemory>
    ensures asked { R.asked analyzer.new ≡ R.asked analyzer.old }
    ensures answered { OnOk result (FromAnswers (R.log analyzer.old) (R.log analyzer.new) (λ t. (R.env analyzer.new, choices.new) ≡ giving (R.env analyzer.old) (with_chosen (R.reading t) (R.env analyzer.old) (expression_model selector.now) choices.old (choice_model choice.now)))) }
{
    let checked = analyzer.choice(selector, choice)?;
    choices.add(checked)
}

/// Adds choices of an alternative, one after another.
fn add_choices<R: Analyzer>(
    analyzer: &mut R,
    selector: &Expression,
    choices: &mut AlternativeChoices,
    others: &[Choice],
) -> Result<(), NoMemory>
    ensures asked { R.asked analyzer.new ≡ R.asked analyzer.old }
    ensures answered { OnOk result (FromAnswers (R.log analyzer.old) (R.log analyzer.new) (λ t. (R.env analyzer.new, choices.new) ≡ giving (R.env analyzer.old) (fold (with_chosen (R.reading t) (R.env analyzer.old) (expression_model selector.now)) choices.old (map choice_model others.now)))) }
{
    for choice in others {
        add_choice(analyzer, selector, choices, choice)?;
    }
    Ok(())
}

/// Adds the choices of an alternative to those that there are.
fn fill_choices<R: Analyzer>(
    analyzer: &mut R,
    selector: &Expression,
    choices: &mut AlternativeChoices,
    alternative: &Alternative,
) -> Result<(), NoMemory>
    ensures asked { R.asked analyzer.new ≡ R.asked analyzer.old }
    ensures answered { OnOk result (FromAnswers (R.log analyzer.old) (R.log analyzer.new) (λ t. (R.env analyzer.new, choices.new) ≡ giving (R.env analyzer.old) (choices_of (R.reading t) (R.env analyzer.old) (expression_model selector.now) choices.old (alternative_model alternative.now)))) }
{
    add_choice(analyzer, selector, choices, &alternative.first)?;
    add_choices(analyzer, selector, choices, &alternative.others)
}

/// Adds the choices of the next alternative.
fn add_alternative<R: Analyzer>(
    analyzer: &mut R,
    alloc: Global,
    selector: &Expression,
    so_far: &mut CaseChoices,
    alternative: &Alternative,
) -> Result<(), NoMemory>
    ensures asked { R.asked analyzer.new ≡ R.asked analyzer.old }
    ensures answered { OnOk result (FromAnswers (R.log analyzer.old) (R.log analyzer.new) (λ t. (R.env analyzer.new, so_far.new) ≡ giving (R.env analyzer.old) (choices_walked (R.reading t) (R.env analyzer.old) (expression_model selector.now) so_far.old (alternative_model alternative.now)))) }
{
    let mut choices = AlternativeChoices::new(alloc);
    match fill_choices(analyzer, selector, &mut choices, alternative) {
        Ok(()) => so_far.add(choices),
        Err(error) => Err(error),
    }
}

/// Adds the choices of the alternatives after the first one.
fn add_alternatives<R: Analyzer>(
    analyzer: &mut R,
    alloc: Global,
    selector: &Expression,
    so_far: &mut CaseChoices,
    others: &[Alternative],
) -> Result<(), NoMemory>
    ensures asked { R.asked analyzer.new ≡ R.asked analyzer.old }
    ensures answered { OnOk result (FromAnswers (R.log analyzer.old) (R.log analyzer.new) (λ t. (R.env analyzer.new, so_far.new) ≡ giving (R.env analyzer.old) (more_choices (R.reading t) (R.env analyzer.old) (expression_model selector.now) so_far.old (alternatives_of (map alternative_model others.now))))) }
{
    for alternative in others {
        add_alternative(analyzer, alloc, selector, so_far, alternative)?;
    }
    Ok(())
}

/// Adds the choices of all alternatives to those that there are.
fn fill_alternatives<R: Analyzer>(
    analyzer: &mut R,
    alloc: Global,
    selector: &Expression,
    so_far: &mut CaseChoices,
    first: &Alternative,
    others: &[Alternative],
) -> Result<(), NoMemory>
    ensures asked { R.asked analyzer.new ≡ R.asked analyzer.old }
    ensures answered { OnOk result (FromAnswers (R.log analyzer.old) (R.log analyzer.new) (λ t. (R.env analyzer.new, so_far.new) ≡ giving (R.env analyzer.old) (more_choices (R.reading t) (R.env analyzer.old) (expression_model selector.now) (choices_walked (R.reading t) (R.env analyzer.old) (expression_model selector.now) so_far.old (alternative_model first.now)) (alternatives_of (map alternative_model others.now))))) }
{
    add_alternative(analyzer, alloc, selector, so_far, first)?;
    add_alternatives(analyzer, alloc, selector, so_far, others)
}

/// The choices of all alternatives. If the selector is faulty, none is read.
pub(crate) fn all_choices<R: Analyzer>(
    analyzer: &mut R,
    alloc: Global,
    selector: &Expression,
    is_right: bool,
    first: &Alternative,
    others: &[Alternative],
) -> Result<CaseChoices, NoMemory>
    ensures asked { R.asked analyzer.new ≡ R.asked analyzer.old }
    ensures answered { IfOk result (λ done. FromAnswers (R.log analyzer.old) (R.log analyzer.new) (λ t. (R.env analyzer.new, done) ≡ giving (R.env analyzer.old) (all_choices (R.reading t) (R.env analyzer.old) (expression_model selector.now) is_right (alternative_model first.now) (alternatives_of (map alternative_model others.now))))) }
{
    let mut choices = CaseChoices::new(alloc);
    if !is_right {
        return Ok(choices);
    }
    match fill_alternatives(analyzer, alloc, selector, &mut choices, first, others) {
        Ok(()) => Ok(choices),
        Err(error) => Err(error),
    }
}

/// Whether the choices are right. If the selector is faulty, nothing is asked.
pub(crate) fn right_choices<R: Analyzer>(
    analyzer: &mut R,
    selector: &Expression,
    checked: &CheckResult<Typed>,
    choices: &CaseChoices,
) -> Result<bool, NoMemory>
    ensures asked { R.asked analyzer.new ≡ R.asked analyzer.old }
    ensures answered { IfOk result (λ done. FromAnswers (R.log analyzer.old) (R.log analyzer.new) (λ t. (R.env analyzer.new, done) ≡ giving (R.env analyzer.old) (right_choices (R.reading t) (R.env analyzer.old) (expression_model selector.now) (map_ok typed_model checked.now) choices.now))) }
{
    match checked {
        Ok(typed) => {
            let whole = analyzer.whole(selector)?;
            analyzer.are_right(selector_of(typed, whole), choices.alternatives.as_slice())
        }
        Err(_) => Ok(true),
    }
}
