// Operators as terms have them (ARM 4.5).
ghost use Rattle.std.specs.Prelude.{◌≡◌, IfOk};
ghost use Rattle.al_overload_lookup.specs.Keys.{denoted};
ghost use Rattle.al_overload.specs.TermViews.{term_model};
ghost use Rattle.al_overload_readings.specs.Signs.{joined, joined_adding, joined_logical, looked_up, multiplying_of, prefixed, relational_of, unary_of};
ghost use Rattle.al_tree.specs.ExpressionViews.{adding_model, logical_model, multiplying_model, operator_model, prefix_model, relational_model};

use crate::pair::{boxed, boxed_pair, together};
use al_base::NoMemory;
use al_overload::Term;
use al_overload_lookup::{Names, prefix_place};
use al_tree::{
    AddingOperator, InfixOperator, LogicalOperator, MultiplyingOperator, PrefixOperator,
    RelationalOperator, Sign,
};
use al_view::Views;
use al_view_typed::{BinaryOperator, ShortCircuit, UnaryOperator};
use std::alloc::Global;

/// All that is visible under a name or a sign.
/// # Errors
/// `NoMemory` if the allocator refuses memory.
pub fn found(alloc: Global, names: &Names, name: &[u8]) -> Result<Views, NoMemory>
    ensures { IfOk result (λ views. views ≡ (denoted names.now).visible name.now) }
{
    let mut views = Views::new(alloc);
    views.append(names.visible.views(name))?;
    Ok(views)
}

/// The operator, and its sign.
#[tactic(auto, unfolding(crate::specs::Signs::unary_of))]
fn unary_of(operator: &PrefixOperator) -> (UnaryOperator, &'static [u8])
    ensures { (result.0, result.1.now) ≡ unary_of (prefix_model operator.now) }
{
    match operator {
        PrefixOperator::Sign(sign) => match sign {
            Sign::Plus(_) => (UnaryOperator::Plus, b"+"),
            Sign::Minus(_) => (UnaryOperator::Minus, b"-"),
        },
        PrefixOperator::Absolute(_) => (UnaryOperator::Abs, b"abs"),
        PrefixOperator::Negation(_) => (UnaryOperator::Not, b"not"),
    }
}

/// An operator before its operand.
/// # Errors
/// `NoMemory` if the allocator refuses memory.
#[tactic(auto, unfolding(crate::specs::Signs::prefixed))]
pub fn prefixed(
    alloc: Global,
    names: &Names,
    operator: &PrefixOperator,
    operand: Term,
) -> Result<Term, NoMemory>
    ensures { IfOk result (λ term. term_model term ≡ prefixed (denoted names.now).visible (prefix_model operator.now) (term_model operand)) }
{
    let (unary, sign) = unary_of(operator);
    let (views, operand) = together(found(alloc, names, sign), boxed(alloc, operand))?;
    Ok(Term::prefixed(prefix_place(operator), unary, views, operand))
}

#[tactic(auto, unfolding(crate::specs::Signs::looked_up))]
fn looked_up(
    alloc: Global,
    names: &Names,
    operator: BinaryOperator,
    sign: &[u8],
    left: Term,
    right: Term,
) -> Result<Term, NoMemory>
    ensures { IfOk result (λ term. term_model term ≡ looked_up (denoted names.now).visible (operator, sign.now) (term_model left) (term_model right)) }
{
    let operands = boxed_pair(alloc, left, right);
    let (views, (left, right)) = together(found(alloc, names, sign), operands)?;
    Ok(Term::infix(operator, views, left, right))
}

#[tactic(auto, unfolding(crate::specs::Signs::joined_logical))]
fn joined_logical(
    alloc: Global,
    names: &Names,
    operator: LogicalOperator,
    left: Term,
    right: Term,
) -> Result<Term, NoMemory>
    ensures { IfOk result (λ term. term_model term ≡ joined_logical (denoted names.now).visible (logical_model operator) (term_model left) (term_model right)) }
{
    match operator {
        LogicalOperator::And => looked_up(alloc, names, BinaryOperator::And, b"and", left, right),
        LogicalOperator::Or => looked_up(alloc, names, BinaryOperator::Or, b"or", left, right),
        LogicalOperator::Xor => looked_up(alloc, names, BinaryOperator::Xor, b"xor", left, right),
        LogicalOperator::AndThen => {
            let (left, right) = boxed_pair(alloc, left, right)?;
            Ok(Term::short_circuit(ShortCircuit::AndThen, left, right))
        }
        LogicalOperator::OrElse => {
            let (left, right) = boxed_pair(alloc, left, right)?;
            Ok(Term::short_circuit(ShortCircuit::OrElse, left, right))
        }
    }
}

#[tactic(auto, unfolding(crate::specs::Signs::relational_of))]
fn relational_of(operator: RelationalOperator) -> (BinaryOperator, &'static [u8])
    ensures { (result.0, result.1.now) ≡ relational_of (relational_model operator) }
{
    match operator {
        RelationalOperator::Equal => (BinaryOperator::Equal, b"="),
        RelationalOperator::NotEqual => (BinaryOperator::NotEqual, b"/="),
        RelationalOperator::Less => (BinaryOperator::Less, b"<"),
        RelationalOperator::LessOrEqual => (BinaryOperator::LessOrEqual, b"<="),
        RelationalOperator::Greater => (BinaryOperator::Greater, b">"),
        RelationalOperator::GreaterOrEqual => (BinaryOperator::GreaterOrEqual, b">="),
    }
}

#[tactic(auto, unfolding(crate::specs::Signs::joined_adding))]
fn joined_adding(
    alloc: Global,
    names: &Names,
    operator: AddingOperator,
    left: Term,
    right: Term,
) -> Result<Term, NoMemory>
    ensures { IfOk result (λ term. term_model term ≡ joined_adding (denoted names.now).visible (adding_model operator) (term_model left) (term_model right)) }
{
    match operator {
        AddingOperator::Plus(_) => {
            looked_up(alloc, names, BinaryOperator::Plus, b"+", left, right)
        }
        AddingOperator::Minus(_) => {
            looked_up(alloc, names, BinaryOperator::Minus, b"-", left, right)
        }
        AddingOperator::Concatenate => {
            let (left, right) = boxed_pair(alloc, left, right)?;
            Ok(Term::concatenation(left, right))
        }
    }
}

#[tactic(auto, unfolding(crate::specs::Signs::multiplying_of))]
fn multiplying_of(operator: MultiplyingOperator) -> (BinaryOperator, &'static [u8])
    ensures { (result.0, result.1.now) ≡ multiplying_of (multiplying_model operator) }
{
    match operator {
        MultiplyingOperator::Times => (BinaryOperator::Times, b"*"),
        MultiplyingOperator::Divide => (BinaryOperator::Divide, b"/"),
        MultiplyingOperator::Mod => (BinaryOperator::Mod, b"mod"),
        MultiplyingOperator::Rem => (BinaryOperator::Rem, b"rem"),
    }
}

/// An operator between its operands.
/// # Errors
/// `NoMemory` if the allocator refuses memory.
#[tactic(auto, unfolding(crate::specs::Signs::joined))]
pub fn joined(
    alloc: Global,
    names: &Names,
    operator: &InfixOperator,
    left: Term,
    right: Term,
) -> Result<Term, NoMemory>
    ensures { IfOk result (λ term. term_model term ≡ joined (denoted names.now).visible (operator_model operator.now) (term_model left) (term_model right)) }
{
    match operator {
        InfixOperator::Logical(operator) => joined_logical(alloc, names, *operator, left, right),
        InfixOperator::Relational(operator) => {
            let (binary, sign) = relational_of(*operator);
            looked_up(alloc, names, binary, sign, left, right)
        }
        InfixOperator::Adding(operator) => joined_adding(alloc, names, *operator, left, right),
        InfixOperator::Multiplying(operator) => {
            let (binary, sign) = multiplying_of(*operator);
            looked_up(alloc, names, binary, sign, left, right)
        }
        InfixOperator::Power => {
            looked_up(alloc, names, BinaryOperator::Power, b"**", left, right)
        }
    }
}
