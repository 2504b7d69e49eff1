// A rule that is broken, and the first of two.
ghost use Rattle.std.specs.Prelude.{◌≡◌};
ghost use Rattle.al_base_fault.specs.Faults.{earlier, is_before};

use crate::check_rule::CheckRule;
use al_base::Place;

/// A rule that is broken, and the place.
#[derive(Clone, Copy)]
pub struct Fault {
    /// The place at which it is reported.
    pub place: Place,
    /// The rule that is broken.
    pub rule: CheckRule,
}

/// Whether a fault comes before another one: by place, and at one place by number.
fn is_before(fault: &Fault, other: &Fault) -> bool
    ensures { result ≡ is_before fault.now other.now }
{
    let (here, there) = (fault.place, other.place);
    here.line < there.line
        || (here.line == there.line
            && (here.col < there.col
                || (here.col == there.col && fault.rule.ranks_before(other.rule))))
}

/// The first of two faults that may be there.
pub fn earlier(one: Option<Fault>, two: Option<Fault>) -> Option<Fault>
    ensures { result ≡ earlier one two }
{
    match (one, two) {
        (None, two) => two,
        (one, None) => one,
        (Some(a), Some(b)) => { if is_before(&b, &a) { Some(b) } else { Some(a) } }
    }
}
