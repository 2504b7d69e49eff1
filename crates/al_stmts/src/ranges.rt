// The ranges of choices, in the order of their values.
ghost use Rattle.std.specs.Prelude.{◌≡◌, ◌++◌, ℤ, IfOk, OnOk, IsTrue};
ghost use Rattle.std.specs.List.{All, filter_map, flat_map};
ghost use Rattle.std.specs.List.Sorted.{IsSortedByKey};
ghost use Rattle.std.specs.Ordering.{int_cmp};
ghost use Rattle.al_stmts.specs.Choosing.{ranges_of, value_range};
ghost use Rattle.al_stmts.specs.Values.{has_values, times_chosen};

use crate::bounds::has_values;
use crate::choice::Choice;
use al_view::{Bounds, Seq};
use std::alloc::{AllocError, Global};

/// The range of a choice, if it has values.
fn value_range(choice: &Choice) -> Option<Bounds>
    ensures { result ≡ value_range choice.now }
{
    match choice {
        Choice::Range(bounds) if has_values(bounds) => Some(*bounds),
        _ => None,
    }
}

/// Adds the ranges of an alternative that have values.
#[tactic(auto, using(std::proofs::lemmas::Grind::common_steps, crate::proofs::RangeLemmas::value_ranges_steps))]
fn add_ranges(ranges: &mut Vec<Bounds>, choices: &[Choice]) -> Result<(), AllocError>
    ensures { OnOk result (ranges.new.items ≡ ranges.old.items ++ filter_map value_range choices.now) }
{
    for choice in choices {
        if let Some(bounds) = value_range(choice) {
            ranges.push(bounds)?;
        }
    }
    Ok(())
}

/// The ranges of all alternatives that have values.
#[tactic(auto, using(std::proofs::lemmas::Grind::common_steps, crate::proofs::RangeLemmas::value_ranges_steps))]
fn ranges_with_values(
    alloc: Global,
    alternatives: &[Seq<Choice>],
) -> Result<Vec<Bounds>, AllocError>
    ensures { IfOk result (λ ranges. ranges.items ≡ flat_map (filter_map value_range) alternatives.now) }
{
    let mut ranges = Vec::new(alloc);
    for choices in alternatives {
        add_ranges(&mut ranges, choices.as_slice())?;
    }
    Ok(ranges)
}

/// The ranges of all alternatives that have values, in the order of their low bounds.
pub(crate) fn sorted_ranges(
    alloc: Global,
    alternatives: &[Seq<Choice>],
) -> Result<Vec<Bounds>, AllocError>
    ensures same { IfOk result (λ ranges. (v : ℤ) → times_chosen ranges.items v ≡ times_chosen (ranges_of alternatives.now) v) }
    ensures some { IfOk result (λ ranges. All (λ r. IsTrue (has_values r)) ranges.items) }
    ensures sorted { IfOk result (λ ranges. IsSortedByKey (λ r. r.low) int_cmp ranges.items) }
{
    let mut ranges = ranges_with_values(alloc, alternatives)?;
    ranges.sort_unstable_by_key(|bounds| bounds.low);
    Ok(ranges)
}
