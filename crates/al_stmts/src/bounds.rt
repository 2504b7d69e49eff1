// Ranges of values, two at a time.
ghost use Rattle.std.specs.Prelude.{◌≡◌, ◌≤ℤ◌, ◌<ℤ◌, ℤ, ◌↔◌, IsTrue, MatchOption};
ghost use Rattle.al_stmts.specs.Values.{has_values, IsRestAfter};

use al_view::Bounds;

/// Whether any value lies in a range.
pub(crate) fn has_values(range: &Bounds) -> bool
    ensures { result ≡ has_values range.now }
{
    range.low <= range.high
}

/// Whether a range ends before another one begins.
pub(crate) fn ends_before(range: &Bounds, other: &Bounds) -> bool
    ensures { IsTrue result ↔ (range.now.high <ℤ other.now.low) }
{
    range.high < other.low
}

/// Whether a range begins after the low bound of another one.
pub(crate) fn begins_after(range: &Bounds, other: &Bounds) -> bool
    ensures { IsTrue result ↔ (other.now.low <ℤ range.now.low) }
{
    other.low < range.low
}

/// Whether both bounds of a range lie in another one.
pub(crate) fn lies_within(range: &Bounds, other: &Bounds) -> bool
    ensures { IsTrue result ↔ ((other.now.low ≤ℤ range.now.low) × (range.now.high ≤ℤ other.now.high)) }
{
    other.low <= range.low && range.high <= other.high
}

/// What of some values lies after a range; none if the range ends with them or later.
pub(crate) fn rest_after(range: &Bounds, values: Bounds) -> Option<Bounds>
    requires { values.low ≤ℤ values.high }
    ensures { MatchOption result (values.high ≤ℤ range.now.high) (λ rest. IsRestAfter range.now values rest) }
{
    if values.high <= range.high {
        return None;
    }
    if range.high < values.low {
        return Some(values);
    }
    Some(Bounds {
        low: range.high + 1,
        high: values.high,
    })
}
