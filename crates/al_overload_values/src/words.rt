// The words of the temporaries of what was checked.
ghost use Rattle.std.specs.Prelude.{◌≡◌};
ghost use Rattle.al_base_fault.specs.Judging.{map_ok};
ghost use Rattle.al_overload_nodes.specs.RangesSeen.{found_model};
ghost use Rattle.al_view_typed.specs.ExpressionViews.{typed_model};
ghost use Rattle.al_overload_values.specs.Words.{found_with_words, with_words};

use al_base_fault::CheckResult;
use al_overload_nodes::DeterminedValue;
use al_overload_slots::number_slots;
use al_view_typed::Typed;

/// Gives the temporaries of what is right their words, from this one on, and leaves the next one there.
#[tactic(auto, unfolding(crate::specs::Words::with_words))]
pub(crate) fn take_words(checked: &mut CheckResult<Typed>, word: &mut u32)
    ensures { (word.new, map_ok typed_model checked.new) ≡ with_words word.old (map_ok typed_model checked.old) }
{
    match checked {
        Ok(typed) => {
            *word = number_slots(typed, *word);
        }
        Err(_) => {}
    }
}

/// Gives the temporaries of an expression with its type their words, if it is right, and leaves the next one there.
#[tactic(auto, unfolding(crate::specs::Words::found_with_words))]
pub(crate) fn take_found_words(checked: &mut CheckResult<DeterminedValue>, word: &mut u32)
    ensures { (word.new, map_ok found_model checked.new) ≡ found_with_words word.old (map_ok found_model checked.old) }
{
    match checked {
        Ok(found) => {
            *word = number_slots(&mut found.value, *word);
        }
        Err(_) => {}
    }
}
