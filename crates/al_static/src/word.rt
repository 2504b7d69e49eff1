// Integers of 64 bits, and what is computed of them (ARM 4.5).
ghost use Rattle.std.specs.Prelude.{◌≡◌, pos, ◌<◌, int_div, int_rem};
ghost use Rattle.al_static.specs.Words.{are_opposite, bit, by_divisor, int_mod, is_true, power};

/// False is 0, True is 1.
pub(crate) fn bit(holds: bool) -> i64
    ensures { result ≡ bit holds }
{
    if holds { 1 } else { 0 }
}

pub(crate) fn is_true(word: i64) -> bool
    ensures { result ≡ is_true word }
{
    word == 1
}

/// `a / b`, to zero (ARM 4.5.5(5)).
pub(crate) fn divided(a: i64, b: i64) -> Option<i64>
    ensures { result ≡ by_divisor b (int_div a b) }
{
    a.checked_div(b)
}

/// `a rem b`, with the sign of a (ARM 4.5.5(6)).
pub(crate) fn remainder(a: i64, b: i64) -> Option<i64>
    ensures { result ≡ by_divisor b (int_rem a b) }
{
    if b == 0 {
        return None;
    }
    if b == -1 {
        return Some(0);
    }
    Some(a % b)
}

fn are_opposite(a: i64, b: i64) -> bool
    ensures { result ≡ are_opposite a b }
{
    (a < 0 && 0 < b) || (0 < a && b < 0)
}

/// `a mod b`, with the sign of b (ARM 4.5.5(7)).
#[tactic(auto, using(crate::proofs::WordLemmas::word_of_some, crate::proofs::WordLemmas::word_is))]
pub(crate) fn modulus(a: i64, b: i64) -> Option<i64>
    ensures { result ≡ by_divisor b (int_mod a b) }
{
    let rest = remainder(a, b)?;
    if are_opposite(rest, b) {
        rest.checked_add(b)
    } else {
        Some(rest)
    }
}

/// The power of a number to an exponent above 64.
#[tactic(auto, using(crate::proofs::PowerLemmas::large_above, crate::proofs::PowerLemmas::large_below, crate::proofs::PowerLemmas::minus_one, crate::proofs::PowerLemmas::power_zero, crate::proofs::PowerLemmas::power_one))]
fn large_power(a: i64, b: u64) -> Option<i64>
    requires { 64 < b }
    ensures { result ≡ power a (pos b) }
{
    if 1 < a || a < -1 {
        return None;
    }
    if a == 0 {
        Some(0)
    } else if a == 1 || b % 2 == 0 {
        Some(1)
    } else {
        Some(-1)
    }
}

/// `a ** b` (ARM 4.5.6(5)).
#[tactic(auto, using(crate::proofs::WordLemmas::word_of_some))]
pub(crate) fn power(a: i64, b: i64) -> Option<i64>
    ensures { result ≡ power a b }
{
    if b < 0 {
        return None;
    }
    if b > 64 {
        return large_power(a, b as u64);
    }
    a.checked_pow(b as u32)
}
