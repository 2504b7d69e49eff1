// Room for what was read.
ghost use Rattle.std.specs.Prelude.{◌≡◌, ◌∷◌, [], ◌++◌, IfErr, IfOk, OnOk, true};
ghost use Rattle.al_tree_syntax.specs.ExpressionTrees.{expression_tokens, sign_tokens, stands};
ghost use Rattle.al_tree_syntax.specs.ExpressionTrees.Level.{SimpleLevel, TermLevel};
ghost use Rattle.al_tree.specs.ExpressionViews.{expression_model, sign_model};
ghost use Rattle.al_parse.specs.declared.stop.Stop.TheVariants.{Memory};

use crate::stop::Stop;
use al_tree::{Expression, PrefixOperator, Prefixed, Sign};
use std::alloc::Global;

/// The value in a box, so that what holds it is small.
///
/// # Errors
///
/// `Memory` if the allocator refuses memory; no other error.
pub fn boxed<T: Drop>(alloc: Global, value: T) -> Result<Box<T>, Stop>
    ensures kept { IfOk result (λ b. b.value ≡ value) }
    ensures refused { IfErr result (λ e. e ≡ Memory) }
{
    Ok(Box::new(alloc, value)?)
}

/// Adds an item at the end of a list. The first item takes room for one alone, as most lists of a tree have no more.
///
/// # Errors
///
/// `Memory` if the allocator refuses memory; no other error.
pub fn append<T: Drop>(list: &mut Vec<T>, item: T) -> Result<(), Stop>
    ensures items { OnOk result (list.new.items ≡ list.old.items ++ item ∷ []) }
    ensures refused { IfErr result (λ e. e ≡ Memory) }
{
    if list.len() == list.capacity() {
        list.reserve_exact(list.len().max(1))?;
    }
    list.push(item)?;
    Ok(())
}

/// A term, perhaps with a sign before it.
#[tactic(auto, using(crate::proofs::Levels::term_is_simple))]
pub(crate) fn signed(
    alloc: Global,
    sign: Option<Sign>,
    term: Expression,
) -> Result<Expression, Stop>
    requires { stands TermLevel (expression_model term) ≡ true }
    ensures kept { IfOk result (λ s. expression_tokens (expression_model s) ≡ sign_tokens (sign_model sign) ++ expression_tokens (expression_model term)) }
    ensures level { IfOk result (λ s. stands SimpleLevel (expression_model s) ≡ true) }
    ensures refused { IfErr result (λ e. e ≡ Memory) }
{
    match sign {
        None => Ok(term),
        Some(sign) => {
            let signed = Prefixed::new(PrefixOperator::Sign(sign), term);
            Ok(Expression::prefixed(boxed(alloc, signed)?))
        }
    }
}
