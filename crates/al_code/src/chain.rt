// Chains of operators, which lean to the left: in `A - B + C` the left operand of `+` is `A - B`.
ghost use Rattle.std.specs.Prelude.{◌≡◌, ℕ, ◌++◌, IfOk, IfSome};
ghost use Rattle.al_code.specs.Chains.{AreBelow, IsBelow, chained_code, sign_code};
ghost use Rattle.al_code.specs.Templates.{value_of};
ghost use Rattle.al_view_typed.specs.ExpressionViews.{typed_model};

use al_base::NoMemory;
use al_view_typed::{BinaryOperator, Form, ShortCircuit, Typed};
use std::alloc::Global;

/// The operator between the operands of a link.
#[derive(Clone, Copy)]
pub(crate) enum Sign {
    /// An operator, with the words of its left operand.
    Operator(BinaryOperator, u32),
    /// `and then` or `or else`.
    ShortCircuit(ShortCircuit),
}

/// The part of a link that comes after its left operand.
#[derive(Drop)]
pub(crate) struct Joint<'a> {
    pub(crate) sign: Sign,
    pub(crate) right: &'a Typed,
}

/// A link of a chain.
#[derive(Drop)]
struct Link<'a> {
    left: &'a Typed,
    joint: Joint<'a>,
}

/// A chain: its first operand, and the links after it. The last link of the source comes first.
#[derive(Drop)]
pub(crate) struct Chain<'a> {
    pub(crate) first: &'a Typed,
    pub(crate) joints: Vec<Joint<'a>>,
}

/// The last link of an expression that is computed, if it is an operator with two operands.
#[tactic(auto, using(crate::proofs::ExprLayers::typed_layers, crate::proofs::ExprLayers::typed_words, al_view_typed::proofs::ExpressionsMade::binary_made, al_view_typed::proofs::ExpressionsMade::short_circuit_made))]
fn last_link(typed: &Typed) -> Option<Link<'_>>
    ensures code { IfSome result (λ l. (depth : ℕ) → value_of depth (typed_model typed.now) ≡ value_of depth (typed_model l.left.now) ++ sign_code l.joint.sign (value_of depth (typed_model l.joint.right.now))) }
    ensures below { IfSome result (λ l. IsBelow typed.now l.left.now × IsBelow typed.now l.joint.right.now) }
{
    if typed.labels.value.is_some() {
        return None;
    }
    match &typed.form {
        Form::Binary(operator, left, right) => {
            let sign = Sign::Operator(*operator, left.labels.words);
            let joint = Joint { sign, right };
            Some(Link { left, joint })
        }
        Form::ShortCircuit(operator, left, right) => {
            let sign = Sign::ShortCircuit(*operator);
            let joint = Joint { sign, right };
            Some(Link { left, joint })
        }
        _ => None,
    }
}

/// The chain that an expression is, if it has a link.
#[tactic(auto, using(crate::proofs::ChainLemmas::first_chained, crate::proofs::ChainLemmas::pushed_below))]
pub(crate) fn chain_of(alloc: Global, typed: &Typed) -> Result<Option<Chain<'_>>, NoMemory>
    ensures code { IfOk result (λ o. IfSome o (λ c. (depth : ℕ) → value_of depth (typed_model c.first.now) ++ chained_code depth c.joints.items ≡ value_of depth (typed_model typed.now))) }
    ensures below { IfOk result (λ o. IfSome o (λ c. AreBelow typed.now c.joints.items)) }
    ensures first { IfOk result (λ o. IfSome o (λ c. IsBelow typed.now c.first.now)) }
{
    let Some(last) = last_link(typed) else {
        return Ok(None);
    };
    let mut joints = Vec::new(alloc);
    joints.push(last.joint)?;
    let mut rest = last.left;
    while let Some(link) = last_link(rest) {
        joints.push(link.joint)?;
        rest = link.left;
    }
    Ok(Some(Chain {
        first: rest,
        joints,
    }))
}
