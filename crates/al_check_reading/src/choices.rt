// Choices of case statements at the place that the check of a unit has reached (ARM 5.4).
ghost use Rattle.std.specs.Prelude.{◌≡◌, IfOk};
ghost use Rattle.al_query.specs.Reads.{FromAnswers};
ghost use Rattle.al_tree.specs.ExpressionViews.{expression_model};
ghost use Rattle.al_tree.specs.StatementViews.{choice_model};
ghost use Rattle.al_check_reading.specs.ValuesHere.{choice_here, whole_here};

use crate::values::site;
use al_base::NoMemory;
use al_base_fault::CheckResult;
use al_check_here::CheckState;
use al_query::{Answers, Recorder};
use al_stmts::Choice;
use al_stmts_ranges::{selected_at, whole_at};
use al_tree::{Choice as ChoiceOfText, Expression};
use al_view::Bounds;

/// The bounds of the type of a selector.
///
/// # Errors
/// `NoMemory` if the allocator refuses memory.
pub fn whole<A: Answers>(
    state: &CheckState,
    selector: &Expression,
    recorder: &mut Recorder<A>,
) -> Result<Bounds, NoMemory>
    ensures asked { recorder.new.asked ≡ recorder.old.asked }
    ensures answered { IfOk result (λ found. FromAnswers recorder.old.log recorder.new.log (λ t. found ≡ whole_here t state.now (expression_model selector.now))) }
{
    whole_at(&site(state), selector, recorder)
}

/// Judges a choice, with its selector.
///
/// # Errors
/// `NoMemory` if the allocator refuses memory.
pub fn choice<A: Answers>(
    state: &CheckState,
    selector: &Expression,
    choice: &ChoiceOfText,
    recorder: &mut Recorder<A>,
) -> Result<CheckResult<Choice>, NoMemory>
    ensures asked { recorder.new.asked ≡ recorder.old.asked }
    ensures answered { IfOk result (λ checked. FromAnswers recorder.old.log recorder.new.log (λ t. checked ≡ choice_here t state.now (expression_model selector.now) (choice_model choice.now))) }
{
    selected_at(&site(state), selector, choice, recorder)
}
