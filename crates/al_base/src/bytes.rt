// Comparisons of short runs of bytes.
ghost use Rattle.std.specs.Prelude.{◌≡◌};
ghost use Rattle.std.specs.Cmp.Lexicographic.{slice_cmp};
ghost use Rattle.std.specs.Ordering.{nat_cmp};
ghost use Rattle.std.specs.Str.{bytes_eq};

use std::cmp::Ordering;

/// Whether the bytes are the same. It takes a step a byte, which for a name is less than `==` of slices takes to begin.
pub fn same_bytes(one: &[u8], other: &[u8]) -> bool
    ensures { result ≡ bytes_eq one.now other.now }
{
    if one.len() != other.len() {
        return false;
    }
    let (mut rest, mut other_rest) = (one, other);
    while let [first, more @ ..] = rest {
        let [other_first, other_more @ ..] = other_rest else {
            return false;
        };
        if *first != *other_first {
            return false;
        }
        (rest, other_rest) = (more, other_more);
    }
    true
}

/// The order of the bytes: that of the first in which they differ; a prefix comes before what is longer. It takes a step a byte, as
/// `same_bytes` does.
pub fn order_of_bytes(one: &[u8], other: &[u8]) -> Ordering
    ensures { result ≡ slice_cmp nat_cmp one.now other.now }
{
    let (mut rest, mut other_rest) = (one, other);
    while let [first, more @ ..] = rest {
        let [other_first, other_more @ ..] = other_rest else {
            return Ordering::Greater;
        };
        if *first < *other_first {
            return Ordering::Less;
        }
        if *other_first < *first {
            return Ordering::Greater;
        }
        (rest, other_rest) = (more, other_more);
    }
    if other_rest.is_empty() {
        Ordering::Equal
    } else {
        Ordering::Less
    }
}
