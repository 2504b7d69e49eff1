// Whether operands are of numbers alone (ARM 3.4.1(7)). Along a chain of operators, what is found out of the whole is known of what is at
// the left, so that no link is examined again for each link after it.
ghost use Rattle.std.specs.Prelude.{◌≡◌, ◌&&◌};
ghost use Rattle.al_overload.specs.Universal.{computes_two, is_universal};
ghost use Rattle.al_overload_nodes.specs.Known.{IsKnown};
ghost use Rattle.al_overload.specs.TermViews.{term_model};

use crate::are_universal;
use al_overload::Term;
use al_view_typed::BinaryOperator;

/// Whether an operator and its operands are numbers alone; that may be known already.
pub(crate) fn found_universal(
    known: Option<bool>,
    operator: BinaryOperator,
    left: &Term,
    right: &Term,
) -> bool
    requires { IsKnown known (computes_two operator && (is_universal (term_model left.now) && is_universal (term_model right.now))) }
    ensures { result ≡ (computes_two operator && (is_universal (term_model left.now) && is_universal (term_model right.now))) }
{
    match known {
        Some(known) => known,
        None => are_universal(operator, left, right),
    }
}

/// Whether the left operand is of numbers alone, if this follows from whether all is, and from the operator and its right operand.
#[tactic(auto, using(crate::proofs::KnownLemmas::left_too, crate::proofs::KnownLemmas::left_not))]
pub(crate) fn left_known(
    operator: BinaryOperator,
    _left: &Term,
    right: &Term,
    of_numbers: bool,
) -> Option<bool>
    requires { of_numbers ≡ (computes_two operator && (is_universal (term_model _left.now) && is_universal (term_model right.now))) }
    ensures { IsKnown result (is_universal (term_model _left.now)) }
{
    if of_numbers {
        return Some(true);
    }
    if are_universal(operator, right, right) {
        return Some(false);
    }
    None
}
