// Chains of operators, which lean to the left: `A - B + C` has `A - B` at the left of its `+`.
ghost use Rattle.std.specs.Prelude.{◌≡◌, IfOk};
ghost use Rattle.al_base_fault.specs.Judging.{map_ok};
ghost use Rattle.al_overload_lookup.specs.Keys.{denoted};
ghost use Rattle.al_overload.specs.TermViews.{term_model};
ghost use Rattle.al_overload_readings.specs.Chains.{chained};

use crate::{as_value, join};
use al_base::NoMemory;
use al_base_fault::CheckResult;
use al_overload::Term;
use al_overload_lookup::Names;
use al_tree::InfixOperator;
use std::alloc::Global;

/// An operator of a chain with its right operand.
#[derive(Drop)]
pub(crate) struct Joint {
    pub(crate) operator: InfixOperator,
    pub(crate) right: CheckResult<Term>,
}

/// The term of a chain, from its first operand on. The last operator in source order comes first.
#[tactic(auto, using(crate::proofs::ChainLemmas::first_joined))]
pub(crate) fn chained(
    alloc: Global,
    names: &Names,
    joints: Vec<Joint>,
    first: CheckResult<Term>,
) -> Result<CheckResult<Term>, NoMemory>
    ensures { IfOk result (λ checked. map_ok term_model checked ≡ chained (denoted names.now) joints.items (map_ok term_model first)) }
{
    let mut joints = joints;
    let mut term = first;
    while let Some(joint) = joints.pop() {
        let operator = joint.operator;
        let reading = join(alloc, names, &operator, term, joint.right)?;
        term = as_value(reading);
    }
    Ok(term)
}
