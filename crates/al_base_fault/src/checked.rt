// What is right, or the first rule that it breaks.
ghost use Rattle.std.specs.Prelude.{◌≡◌};
ghost use Rattle.al_base_fault.specs.Judging.{both, unless};

use crate::fault::{Fault, earlier};

/// What is right, or the first rule that it breaks.
pub type CheckResult<A> = Result<A, Fault>;

/// Two things that are judged separately: both if both are right, else the first fault of either.
///
/// # Errors
///
/// The earlier of the two faults, or the only one.
pub fn both<A: Drop, B: Drop>(one: CheckResult<A>, two: CheckResult<B>) -> CheckResult<(A, B)>
    ensures { result ≡ both one two }
{
    match (one, two) {
        (Ok(a), Ok(b)) => Ok((a, b)),
        (one, two) => match earlier(one.err(), two.err()) {
            Some(fault) => Err(fault),
            None => unreachable!(),
        },
    }
}

/// What was checked, with one more rule that may be broken.
///
/// # Errors
///
/// The earlier of the two faults, or the only one.
pub fn unless<A: Drop>(fault: Option<Fault>, checked: CheckResult<A>) -> CheckResult<A>
    ensures { result ≡ unless fault checked }
{
    match (fault, checked) {
        (None, checked) => checked,
        (Some(fault), Ok(_)) => Err(fault),
        (Some(fault), Err(other)) => match earlier(Some(fault), Some(other)) {
            Some(first) => Err(first),
            None => Err(fault),
        },
    }
}
