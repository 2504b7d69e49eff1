// Whether the choices of a case statement are right.
ghost use Rattle.std.specs.Prelude.{◌↔◌, IfOk, IsTrue};
ghost use Rattle.std.specs.List.{All};
ghost use Rattle.std.specs.List.Sorted.{IsSortedByKey};
ghost use Rattle.std.specs.Ordering.{int_cmp};
ghost use Rattle.al_stmts.specs.Choosing.{AreRight, ChoosesRight, StaysWithin};
ghost use Rattle.al_stmts.specs.Values.{has_values};

use crate::apart::are_apart;
use crate::choice::{Choice, Selector, are_of_type, have_others, is_others_in_place};
use crate::cover::{are_covering, are_within};
use crate::ranges::sorted_ranges;
use al_base::NoMemory;
use al_view::{Bounds, Seq};
use std::alloc::Global;

/// Whether no value is chosen that a selector of a static subtype can't have.
fn are_of_selector(ranges: &[Bounds], selector: Selector) -> bool
    requires { All (λ r. IsTrue (has_values r)) ranges.now }
    ensures { IsTrue result ↔ StaysWithin selector ranges.now }
{
    match selector {
        Selector::OfSubtype(bounds) => are_within(ranges, bounds),
        Selector::OfType(_) => true,
    }
}

/// Whether ranges with values, which are in the order of their low bounds, are right.
fn are_ranges_right(ranges: &[Bounds], selector: Selector, has_others: bool) -> bool
    requires some { All (λ r. IsTrue (has_values r)) ranges.now }
    requires sorted { IsSortedByKey (λ r. r.low) int_cmp ranges.now }
    ensures { IsTrue result ↔ ChoosesRight selector has_others ranges.now }
{
    if !are_apart(ranges) || !are_of_selector(ranges, selector) {
        return false;
    }
    has_others || are_covering(ranges, selector.covered())
}

/// Whether the choices of a case statement are right, by its alternatives in order.
/// # Errors
/// `NoMemory` if the allocator refuses memory.
pub fn are_right(
    alloc: Global,
    alternatives: &[Seq<Choice>],
    selector: Selector,
) -> Result<bool, NoMemory>
    ensures { IfOk result (λ right. IsTrue right ↔ AreRight selector alternatives.now) }
{
    if !are_of_type(alternatives) || !is_others_in_place(alternatives) {
        return Ok(false);
    }
    let ranges = sorted_ranges(alloc, alternatives)?;
    Ok(are_ranges_right(ranges.as_slice(), selector, have_others(alternatives)))
}
