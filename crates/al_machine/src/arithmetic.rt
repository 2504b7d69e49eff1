// What the operators give.
ghost use Rattle.std.specs.Prelude.{◌≡◌, pos, ◌<◌, int_div, int_rem, ◌&&◌, if◌then◌else◌};
ghost use Rattle.al_machine.specs.Words.{bit};
ghost use Rattle.al_machine.specs.Arithmetic.{operated, changed, by_divisor, are_opposite, int_mod, power, is_bit};

use crate::instruction::{BinaryOperator, Exception, Trap, UnaryOperator};

const CONSTRAINT: Trap = Trap::Raised(Exception::Constraint);

/// 1 or 0.
pub(crate) fn bit(holds: bool) -> i64
    ensures { result ≡ bit holds }
{
    if holds { 1 } else { 0 }
}

pub(crate) fn divided(a: i64, b: i64) -> Result<i64, Trap>
    ensures { result ≡ by_divisor b (int_div a b) }
{
    a.checked_div(b).ok_or(CONSTRAINT)
}

fn remainder(a: i64, b: i64) -> Result<i64, Trap>
    ensures { result ≡ by_divisor b (int_rem a b) }
{
    if b == 0 {
        return Err(CONSTRAINT);
    }
    if b == -1 {
        return Ok(0);
    }
    Ok(a % b)
}

fn are_opposite(a: i64, b: i64) -> bool
    ensures { result ≡ are_opposite a b }
{
    (a < 0 && 0 < b) || (0 < a && b < 0)
}

#[tactic(auto, using(crate::proofs::WordLemmas::word_of_some, crate::proofs::WordLemmas::word_is))]
pub(crate) fn modulus(a: i64, b: i64) -> Result<i64, Trap>
    ensures { result ≡ by_divisor b (int_mod a b) }
{
    let rest = remainder(a, b)?;
    if are_opposite(rest, b) {
        rest.checked_add(b).ok_or(CONSTRAINT)
    } else {
        Ok(rest)
    }
}

// The power of a number to an exponent above 64.
#[tactic(auto, using(crate::proofs::PowerLemmas::large_above, crate::proofs::PowerLemmas::large_below, crate::proofs::PowerLemmas::minus_one, crate::proofs::PowerLemmas::power_zero, crate::proofs::PowerLemmas::power_one))]
fn large_power(a: i64, b: u64) -> Result<i64, Trap>
    requires { 64 < b }
    ensures { result ≡ power a (pos b) }
{
    if 1 < a || a < -1 {
        return Err(CONSTRAINT);
    }
    if a == 0 {
        Ok(0)
    } else if a == 1 || b % 2 == 0 {
        Ok(1)
    } else {
        Ok(-1)
    }
}

#[tactic(auto, using(crate::proofs::WordLemmas::word_of_some))]
fn power(a: i64, b: i64) -> Result<i64, Trap>
    ensures { result ≡ power a b }
{
    if b < 0 {
        return Err(CONSTRAINT);
    }
    if b > 64 {
        return large_power(a, b as u64);
    }
    a.checked_pow(b as u32).ok_or(CONSTRAINT)
}

fn is_bit(a: i64) -> bool
    ensures { result ≡ is_bit a }
{
    a == 0 || a == 1
}

fn logical(a: i64, b: i64, value: bool) -> Result<i64, Trap>
    ensures { result ≡ (if is_bit a && is_bit b then Ok (bit value) else Err Trap.Stuck) }
{
    if is_bit(a) && is_bit(b) {
        Ok(bit(value))
    } else {
        Err(Trap::Stuck)
    }
}

/// The result of an operator on the left operand and the right one.
///
/// # Errors
///
/// `Raised` with Constraint_Error if the result has no value or is no word of 64 bits; `Stuck` if a logical operator has an operand
/// other than 0 and 1.
#[tactic(auto, using(crate::proofs::WordLemmas::word_of_some), unfolding(crate::specs::Arithmetic::operated))]
pub fn operated(operator: BinaryOperator, a: i64, b: i64) -> Result<i64, Trap>
    ensures { result ≡ operated operator a b }
{
    match operator {
        BinaryOperator::Add => a.checked_add(b).ok_or(CONSTRAINT),
        BinaryOperator::Sub => a.checked_sub(b).ok_or(CONSTRAINT),
        BinaryOperator::Mul => a.checked_mul(b).ok_or(CONSTRAINT),
        BinaryOperator::Div => divided(a, b),
        BinaryOperator::Mod => modulus(a, b),
        BinaryOperator::Rem => remainder(a, b),
        BinaryOperator::Pow => power(a, b),
        BinaryOperator::And => logical(a, b, a == 1 && b == 1),
        BinaryOperator::Or => logical(a, b, a == 1 || b == 1),
        BinaryOperator::Xor => logical(a, b, (a == 1) != (b == 1)),
        BinaryOperator::Eq => Ok(bit(a == b)),
        BinaryOperator::Ne => Ok(bit(a != b)),
        BinaryOperator::Lt => Ok(bit(a < b)),
        BinaryOperator::Le => Ok(bit(a <= b)),
        BinaryOperator::Gt => Ok(bit(b < a)),
        BinaryOperator::Ge => Ok(bit(b <= a)),
    }
}

/// The result of an operator on one operand.
///
/// # Errors
///
/// `Raised` with Constraint_Error if the result of `Neg` or `Abs` is no word of 64 bits; `Stuck` if that of `Not` is none.
#[tactic(auto, using(crate::proofs::WordLemmas::word_of_some), unfolding(crate::specs::Arithmetic::changed))]
pub fn changed(operator: UnaryOperator, a: i64) -> Result<i64, Trap>
    ensures { result ≡ changed operator a }
{
    match operator {
        UnaryOperator::Neg => a.checked_neg().ok_or(CONSTRAINT),
        UnaryOperator::Abs => a.checked_abs().ok_or(CONSTRAINT),
        UnaryOperator::Not => 1i64.checked_sub(a).ok_or(Trap::Stuck),
    }
}
