// Laws of labellings.
ghost use Rattle.std.specs.Prelude.{◌≡◌, true, []};
ghost use Rattle.al_overload.specs.Counts.{plain, plain_all};
ghost use Rattle.al_overload.specs.Labelling.{acceptable, labellings, preferred};
ghost use Rattle.al_overload.specs.Ranges.{has_type, may_be, with_types};

use crate::term::{Expression, Operands};
use crate::types::{Expected, ValueType};

/// The labelling that two passes find is the one that no other labelling beats.
#[tactic(auto, using(crate::proofs::Preferred::acceptable_is_preferred))]
pub fn acceptable_is_preferred(expression: &Expression, expected: &Expected)
    ensures { acceptable (labellings (plain expression.now) expected.now) ≡ preferred (plain expression.now) expected.now }
{}

/// Each discrete type that the head of an operand may have is among those that all operands may have.
#[tactic(auto, using(crate::proofs::RangeLemmas::types_entered))]
pub fn no_type_is_left_out(operands: &Operands, of: &ValueType)
    requires { may_be of.now (plain_all operands.now) ≡ true }
    ensures { has_type (with_types [] (plain_all operands.now)) of.now ≡ true }
{}
