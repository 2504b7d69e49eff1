// Ranges of for loops at the place that the check of a unit has reached (ARM 5.5).
ghost use Rattle.std.specs.Prelude.{◌≡◌, IfOk};
ghost use Rattle.al_base_fault.specs.Judging.{map_ok};
ghost use Rattle.al_query.specs.Reads.{FromAnswers};
ghost use Rattle.al_stmts_ranges.specs.LoopsAt.{found_range_model};
ghost use Rattle.al_stmts.specs.LoopForms.{range_model};
ghost use Rattle.al_tree.specs.DeclarationViews.{discrete_range_model};
ghost use Rattle.al_check_reading.specs.ValuesHere.{loop_range_here, range_found, with_range};

use crate::values::site;
use al_base::NoMemory;
use al_base_fault::CheckResult;
use al_check_here::{CheckState, LoopType};
use al_overload_nodes::FoundType;
use al_query::{Answers, Recorder};
use al_stmts::LoopRange;
use al_stmts_ranges::{FoundRange, all_values, loop_range_at};
use al_tree::DiscreteRange;

/// Keeps the type of a range for the loop's parameter, if the range is right.
fn keep_type(state: &mut CheckState, found: CheckResult<FoundRange>) -> CheckResult<LoopRange>
    ensures state { state.new ≡ with_range state.old (map_ok found_range_model found) }
    ensures range { map_ok range_model result ≡ map_ok range_found (map_ok found_range_model found) }
{
    match found {
        Ok(found) => {
            let FoundRange { range, found } = found;
            let values = all_values(&state.unit.labeller.predefined.standard, &found);
            let (of, types) = found.into_parts();
            state.parameter = Some(LoopType { of, types, values });
            Ok(range)
        }
        Err(fault) => Err(fault),
    }
}

/// Judges the range of a for loop (ARM 5.5(4)).
///
/// # Errors
/// `NoMemory` if the allocator refuses memory.
pub fn loop_range<A: Answers>(
    state: &mut CheckState,
    range: &DiscreteRange,
    recorder: &mut Recorder<A>,
) -> Result<CheckResult<LoopRange>, NoMemory>
    ensures asked { recorder.new.asked ≡ recorder.old.asked }
    ensures answered { IfOk result (λ checked. FromAnswers recorder.old.log recorder.new.log (λ t. (state.new, map_ok range_model checked) ≡ loop_range_here t state.old (discrete_range_model range.now))) }
{
    let mut word = state.word();
    let found = loop_range_at(&site(state), range, &mut word, recorder)?;
    state.set_word(word);
    Ok(keep_type(state, found))
}
