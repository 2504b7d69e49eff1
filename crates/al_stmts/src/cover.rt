// Whether ranges cover another one.
ghost use Rattle.std.specs.Prelude.{ℤ, ◌<◌, ◌↔◌, IsTrue};
ghost use Rattle.std.specs.List.{All};
ghost use Rattle.al_stmts.specs.Choosing.{Covers};
ghost use Rattle.al_stmts.specs.Values.{AreApart, has_values, holds, times_chosen};

use crate::bounds::{begins_after, has_values, lies_within, rest_after};
use al_view::Bounds;

/// Whether all values of the ranges are values of another one.
pub(crate) fn are_within(ranges: &[Bounds], whole: Bounds) -> bool
    requires some { All (λ r. IsTrue (has_values r)) ranges.now }
    ensures { IsTrue result ↔ ((v : ℤ) → 0 < times_chosen ranges.now v → IsTrue (holds whole v)) }
{
    for range in ranges {
        if !lies_within(range, &whole) {
            return false;
        }
    }
    true
}

/// Whether each value of a range lies in one of the others, which are apart and in order.
pub(crate) fn are_covering(ranges: &[Bounds], whole: Bounds) -> bool
    requires some { All (λ r. IsTrue (has_values r)) ranges.now }
    requires apart { AreApart ranges.now }
    ensures { IsTrue result ↔ Covers ranges.now whole }
{
    if !has_values(&whole) {
        return true;
    }
    let mut missing = whole;
    for range in ranges {
        if begins_after(range, &missing) {
            return false;
        }
        match rest_after(range, missing) {
            Some(rest) => missing = rest,
            None => return true,
        }
    }
    false
}
