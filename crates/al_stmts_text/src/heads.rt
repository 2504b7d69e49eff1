// What comes before the statements inside a statement.
ghost use Rattle.std.specs.Prelude.{◌≡◌, IfOk, OnOk, map};
ghost use Rattle.al_base_fault.specs.Judging.{map_ok};
ghost use Rattle.al_query.specs.Reads.{FromAnswers};
ghost use Rattle.al_stmts.specs.LoopForms.{range_model, while_scheme};
ghost use Rattle.al_tree.specs.DeclarationViews.{discrete_range_model};
ghost use Rattle.al_tree.specs.ExpressionViews.{expression_model};
ghost use Rattle.al_tree.specs.Lexemes.{identifier_label};
ghost use Rattle.al_tree.specs.StatementViews.{alternative_model, alternatives_of};
ghost use Rattle.al_view_typed.specs.ExpressionViews.{typed_model};
ghost use Rattle.al_view_typed.specs.StatementViews.{scheme_model};
ghost use Rattle.al_stmts_text.specs.Chosen.{chosen_right};
ghost use Rattle.al_stmts.specs.Readings.{giving};
ghost use Rattle.al_stmts.specs.Walking.{case_after, case_head, for_head, loop_words, parameter_declared, while_walked};
ghost use Rattle.al_stmts.specs.WalkedViews.{choosing_model};

use crate::analyzer::Analyzer;
use crate::choices::{all_choices, right_choices};
use al_base::{NoMemory, Place};
use al_base_fault::CheckResult;
use al_stmts::{CaseChoices, LoopRange, LoopWords, WalkedAlternatives, for_scheme, while_scheme};
use al_tree::{Alternative, DiscreteRange, Expression, Identifier};
use al_view_typed::{LoopScheme, Typed};
use std::alloc::Global;

/// The choices of all alternatives, and whether they are right for a selector that was read.
fn case_choices<R: Analyzer>(
    analyzer: &mut R,
    alloc: Global,
    selector: &Expression,
    checked: &CheckResult<Typed>,
    first: &Alternative,
    others: &[Alternative],
) -> Result<(CaseChoices, bool), NoMemory>
    ensures asked { R.asked analyzer.new ≡ R.asked analyzer.old }
    ensures answered { IfOk result (λ done. FromAnswers (R.log analyzer.old) (R.log analyzer.new) (λ t. (R.env analyzer.new, done) ≡ giving (R.env analyzer.old) (chosen_right (R.reading t) (R.env analyzer.old) (expression_model selector.now) (map_ok typed_model checked.now) (alternative_model first.now) (alternatives_of (map alternative_model others.now))))) }
{
    let choices = all_choices(analyzer, alloc, selector, checked.is_ok(), first, others)?;
    let are_right = right_choices(analyzer, selector, checked, &choices)?;
    Ok((choices, are_right))
}

/// A selector that was read, with its choices.
fn case_after<R: Analyzer>(
    analyzer: &mut R,
    alloc: Global,
    place: Place,
    slot: u32,
    selector: &Expression,
    checked: CheckResult<Typed>,
    first: &Alternative,
    others: &[Alternative],
) -> Result<WalkedAlternatives, NoMemory>
    ensures asked { R.asked analyzer.new ≡ R.asked analyzer.old }
    ensures answered { IfOk result (λ done. FromAnswers (R.log analyzer.old) (R.log analyzer.new) (λ t. (R.env analyzer.new, choosing_model done) ≡ case_after (R.reading t) (R.env analyzer.old) place slot (expression_model selector.now) (map_ok typed_model checked) (alternative_model first.now) (alternatives_of (map alternative_model others.now)))) }
{
    match case_choices(analyzer, alloc, selector, &checked, first, others) {
        Ok(made) => Ok(WalkedAlternatives::new(alloc, place, slot, checked, made.0, made.1)),
        Err(error) => {
            drop(checked);
            Err(error)
        }
    }
}

/// A case statement up to its alternatives: the word that keeps its selector is taken first (ARM 5.4).
/// # Errors
/// `NoMemory` if the allocator refuses memory.
pub fn case_head<R: Analyzer>(
    analyzer: &mut R,
    alloc: Global,
    place: Place,
    selector: &Expression,
    first: &Alternative,
    others: &[Alternative],
) -> Result<WalkedAlternatives, NoMemory>
    ensures asked { R.asked analyzer.new ≡ R.asked analyzer.old }
    ensures answered { IfOk result (λ done. FromAnswers (R.log analyzer.old) (R.log analyzer.new) (λ t. (R.env analyzer.new, choosing_model done) ≡ case_head (R.reading t) (R.env analyzer.old) place (expression_model selector.now) (alternative_model first.now) (alternatives_of (map alternative_model others.now)))) }
{
    let slot = analyzer.word()?;
    analyzer.with_word()?;
    let checked = analyzer.selector(selector)?;
    case_after(
        analyzer, alloc, place, slot, selector, checked, first, others,
    )
}

/// How often a while loop goes round.
/// # Errors
/// `NoMemory` if the allocator refuses memory. The inner error is the fault of the condition.
pub fn while_head<R: Analyzer>(
    analyzer: &mut R,
    condition: &Expression,
) -> Result<CheckResult<LoopScheme>, NoMemory>
    ensures asked { R.asked analyzer.new ≡ R.asked analyzer.old }
    ensures answered { IfOk result (λ done. FromAnswers (R.log analyzer.old) (R.log analyzer.new) (λ t. (R.env analyzer.new, map_ok scheme_model done) ≡ while_walked ((R.reading t).condition (R.env analyzer.old) (expression_model condition.now)))) }
{
    let checked = analyzer.condition(condition)?;
    Ok(while_scheme(checked))
}

/// Takes the words of a loop's parameter and of its last value.
fn loop_words<R: Analyzer>(analyzer: &mut R) -> Result<LoopWords, NoMemory>
    ensures asked { R.asked analyzer.new ≡ R.asked analyzer.old }
    ensures answered { IfOk result (λ done. FromAnswers (R.log analyzer.old) (R.log analyzer.new) (λ t. (R.env analyzer.new, done) ≡ giving ((R.reading t).with_word ((R.reading t).with_word (R.env analyzer.old))) (loop_words (R.reading t) (R.env analyzer.old)))) }
{
    let parameter = analyzer.word()?;
    analyzer.with_word()?;
    let last = analyzer.word()?;
    analyzer.with_word()?;
    Ok(LoopWords { parameter, last })
}

/// Declares the parameter of a for loop, if its range is right.
fn declare_parameter<R: Analyzer>(
    analyzer: &mut R,
    parameter: &Identifier,
    is_reverse: bool,
    words: LoopWords,
    range: CheckResult<LoopRange>,
) -> Result<CheckResult<LoopScheme>, NoMemory>
    ensures asked { R.asked analyzer.new ≡ R.asked analyzer.old }
    ensures answered { IfOk result (λ done. FromAnswers (R.log analyzer.old) (R.log analyzer.new) (λ t. (R.env analyzer.new, map_ok scheme_model done) ≡ parameter_declared (R.reading t) (R.env analyzer.old) (identifier_label parameter.now) is_reverse words (map_ok range_model range))) }
{
    match range {
        Ok(range) => {
            match analyzer.with_parameter(parameter, &range, words) {
                Ok(()) => Ok(Ok(for_scheme(is_reverse, range, words))),
                Err(error) => {
                    drop(range);
                    Err(error)
                }
            }
        }
        Err(fault) => Ok(Err(fault)),
    }
}

/// A for loop up to its statements (ARM 5.5).
/// # Errors
/// `NoMemory` if the allocator refuses memory. The inner error is the fault of the range.
pub fn for_head<R: Analyzer>(
    analyzer: &mut R,
    parameter: &Identifier,
    is_reverse: bool,
    range: &DiscreteRange,
) -> Result<CheckResult<LoopScheme>, NoMemory>
    ensures asked { R.asked analyzer.new ≡ R.asked analyzer.old }
    ensures answered { IfOk result (λ done. FromAnswers (R.log analyzer.old) (R.log analyzer.new) (λ t. (R.env analyzer.new, map_ok scheme_model done) ≡ for_head (R.reading t) (R.env analyzer.old) (identifier_label parameter.now) is_reverse (discrete_range_model range.now))) }
{
    let words = loop_words(analyzer)?;
    analyzer.loop_entered(parameter)?;
    let checked = analyzer.loop_range(range)?;
    declare_parameter(analyzer, parameter, is_reverse, words, checked)
}
