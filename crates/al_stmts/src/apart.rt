// Whether ranges are apart.
ghost use Rattle.std.specs.Prelude.{◌<◌, ℤ, IsFalse, IsTrue};
ghost use Rattle.std.specs.List.{All};
ghost use Rattle.std.specs.List.Sorted.{IsSortedByKey};
ghost use Rattle.std.specs.Ordering.{int_cmp};
ghost use Rattle.al_stmts.specs.Values.{AreApart, has_values, times_chosen};

use crate::bounds::ends_before;
use al_view::Bounds;

/// Whether no value lies in two of the ranges, which are in the order of their low bounds.
pub(crate) fn are_apart(ranges: &[Bounds]) -> bool
    requires some { All (λ r. IsTrue (has_values r)) ranges.now }
    requires sorted { IsSortedByKey (λ r. r.low) int_cmp ranges.now }
    ensures apart { IsTrue result → AreApart ranges.now }
    ensures meet { IsFalse result → (v : ℤ) × (1 < times_chosen ranges.now v) }
{
    for i in 1..ranges.len() {
        if !ends_before(&ranges[i - 1], &ranges[i]) {
            return false;
        }
    }
    true
}
