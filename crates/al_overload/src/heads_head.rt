// The heads of terms, built from their operands up.
ghost use Rattle.std.specs.Prelude.{◌≡◌, ◌&&◌, false, map, IfOk, None};
ghost use Rattle.al_overload.specs.Counts.{plain, plain_all};
ghost use Rattle.al_overload.specs.Labelling.{MoreTrees};
ghost use Rattle.al_overload.specs.TermViews.{term_model, terms_of};
ghost use Rattle.al_overload.specs.HeadsChains.{IsBelow, IsPartly, chained_head, chained_universal, leans, stepped_head, stepped_universal};
ghost use Rattle.al_overload.specs.HeadsHeads.{bounds_head, head_of, heads_of, one, plain_head};
ghost use Rattle.al_overload.specs.Parts.{part_of};
ghost use Rattle.al_overload.specs.Universal.{is_universal};

use crate::built::{
    Built, BuiltOperands, aggregate, attributed, named, nothing, number, prefixed, text, value,
    with_others,
};
use crate::everywhere::Predefined;
use crate::heads_chain::{Joint, Placed, Sign, Step, add, applied, chained, selected, tested};
use crate::operands::gathered;
use crate::part::{Nominal, part_of};
use crate::{Expression, Operands, Term, ValueType};
use al_base::NoMemory;
use std::alloc::Global;

/// The head of a chain whose last links are these, and whether it is of numbers alone. A term that begins with an operand of its own (a
/// chain of operators, indexes or selectors) is processed by a loop, so that it takes no more of the stack than one link does.
#[cycle(heads)]
#[tactic(auto, using(crate::proofs::HeadsChainLemmas::first_joined_head, crate::proofs::HeadsChainLemmas::first_joined_universal))]
fn linked<'a>(
    alloc: Global,
    predefined: &'a Predefined,
    links: Vec<Joint<'a>>,
    term: &'a Term,
) -> Result<Built, NoMemory>
    ensures head { IfOk result (λ b. plain b.expression ≡ chained_head predefined.now links.entry.items (head_of predefined.now None (term_model term.now)) (is_universal (term_model term.now)) (part_of (term_model term.now))) }
    ensures universal { IfOk result (λ b. b.is_universal ≡ chained_universal links.entry.items (is_universal (term_model term.now))) }
{
    let mut joints = links;
    let mut rest = term;
    loop {
        match step(alloc, predefined, &None, rest)? {
            Step::Down(sign, right, left) => {
                add(&mut joints, sign, right)?;
                rest = left;
            }
            Step::Last(built) => {
                let part = part_of(&predefined.standard, rest);
                return chained(alloc, predefined, joints, Placed { built, part });
            }
        }
    }
}

/// The head of an operand, and whether it is of numbers alone.
#[cycle(heads)]
fn operand<'a>(alloc: Global, predefined: &'a Predefined, term: &'a Term) -> Result<Built, NoMemory>
    ensures head { IfOk result (λ b. plain b.expression ≡ head_of predefined.now None (term_model term.now)) }
    ensures universal { IfOk result (λ b. b.is_universal ≡ is_universal (term_model term.now)) }
{
    linked(alloc, predefined, Vec::new(alloc), term)
}

/// A step down: what a term begins with and what comes after that, or the head of what doesn't begin with an operand.
#[cycle(heads)]
#[tactic(auto, using(crate::proofs::TermsSeen::terms_made))]
fn step<'a>(
    alloc: Global,
    predefined: &Predefined,
    allowed: &Option<Nominal>,
    term: &'a Term,
) -> Result<Step<'a>, NoMemory>
    ensures head { IfOk result (λ s. stepped_head predefined.now s ≡ head_of predefined.now allowed.now (term_model term.now)) }
    ensures universal { IfOk result (λ s. stepped_universal s ≡ is_universal (term_model term.now)) }
    ensures part { IfOk result (λ s. IsPartly (part_of (term_model term.now)) s) }
    ensures below { IfOk result (λ s. IsBelow term.now s) }
{
    let p = predefined;
    match term {
        Term::Infix {
            operator,
            views,
            left,
            right,
        } => {
            let right = one(alloc, p, right)?;
            let sign = Sign::Operator(*operator, views.as_slice());
            Ok(Step::Down(sign, right, left))
        }
        Term::Concatenation { left, right } => {
            let right = one(alloc, p, right)?;
            Ok(Step::Down(Sign::Concatenation, right, left))
        }
        Term::ShortCircuit { left, right, .. } => {
            let right = one(alloc, p, right)?;
            Ok(Step::Down(Sign::ShortCircuit, right, left))
        }
        Term::RangeMember {
            value,
            low,
            high,
            ..
        } => {
            let bounds = before(alloc, p, low, one(alloc, p, high)?)?;
            Ok(Step::Down(Sign::Range, bounds, value))
        }
        Term::Member { value, subtype, .. } => tested(alloc, p, value, subtype),
        Term::Selected { prefix, name } => Ok(selected(prefix, name.as_slice())),
        Term::Applied { name, arguments } => {
            let operands = all(alloc, p, arguments.as_slice())?;
            applied(alloc, p, name, operands)
        }
        _ => Ok(Step::Last(alone(alloc, p, allowed, term)?)),
    }
}

/// A list of one operand.
#[cycle(heads)]
fn one(alloc: Global, predefined: &Predefined, term: &Term) -> Result<BuiltOperands, NoMemory>
    ensures operands { IfOk result (λ built. plain_all built.operands ≡ one (head_of predefined.now None (term_model term.now))) }
    ensures universal { IfOk result (λ built. built.are_universal ≡ is_universal (term_model term.now)) }
{
    let built = operand(alloc, predefined, term)?;
    let operands = Operands::before(alloc, built.expression, Operands::none())?;
    Ok(BuiltOperands {
        operands,
        are_universal: built.is_universal,
    })
}

/// Puts one operand before these.
#[cycle(heads)]
fn before(
    alloc: Global,
    predefined: &Predefined,
    term: &Term,
    others: BuiltOperands,
) -> Result<BuiltOperands, NoMemory>
    ensures operands { IfOk result (λ built. plain_all built.operands ≡ MoreTrees (head_of predefined.now None (term_model term.now)) (plain_all others.operands)) }
    ensures universal { IfOk result (λ built. built.are_universal ≡ (is_universal (term_model term.now) && others.are_universal)) }
{
    let first = operand(alloc, predefined, term)?;
    let are_universal = first.is_universal && others.are_universal;
    let operands = Operands::before(alloc, first.expression, others.operands)?;
    Ok(BuiltOperands {
        operands,
        are_universal,
    })
}

/// The heads of arguments, indexes or values of an aggregate, one after another.
#[cycle(heads)]
fn each(alloc: Global, predefined: &Predefined, terms: &[Term]) -> Result<Vec<Expression>, NoMemory>
    ensures { IfOk result (λ heads. map plain heads.items ≡ map (plain_head predefined.now) (map term_model terms.now)) }
{
    let mut heads = Vec::new(alloc);
    for term in terms {
        let built = operand(alloc, predefined, term)?;
        heads.push(built.expression)?;
    }
    Ok(heads)
}

/// The heads of all arguments, indexes or values of an aggregate.
#[cycle(heads)]
#[tactic(auto, using(crate::proofs::Gathered::all_listed))]
fn all(alloc: Global, predefined: &Predefined, terms: &[Term]) -> Result<Operands, NoMemory>
    ensures { IfOk result (λ operands. plain_all operands ≡ heads_of predefined.now (terms_of (map term_model terms.now))) }
{
    let heads = each(alloc, predefined, terms)?;
    gathered(alloc, heads)
}

/// The head of a term that doesn't begin with an operand, and whether it is of numbers alone.
#[cycle(heads)]
#[tactic(auto, using(crate::proofs::TermsSeen::terms_made))]
fn alone(
    alloc: Global,
    predefined: &Predefined,
    allowed: &Option<Nominal>,
    term: &Term,
) -> Result<Built, NoMemory>
    ensures head { leans (term_model term.now) ≡ false → IfOk result (λ b. plain b.expression ≡ head_of predefined.now allowed.now (term_model term.now)) }
    ensures universal { leans (term_model term.now) ≡ false → IfOk result (λ b. b.is_universal ≡ is_universal (term_model term.now)) }
{
    let p = predefined;
    match term {
        Term::Number { .. } | Term::Length { .. } => number(alloc),
        Term::Text { .. } | Term::Image { .. } => text(alloc),
        Term::Named { views, .. } => named(alloc, p, views.as_slice()),
        Term::Bound { subtype, .. } => value(alloc, p, subtype),
        Term::Conversion { subtype, .. } => value(alloc, p, subtype),
        Term::Qualified { subtype, .. } => value(alloc, p, subtype),
        Term::Attribute {
            conversion,
            subtype,
            argument,
            ..
        } => attributed(alloc, p, *conversion, subtype, one(alloc, p, argument)?),
        Term::Prefixed {
            operator: sign,
            views,
            operand,
            ..
        } => prefixed(alloc, p, *sign, views.as_slice(), one(alloc, p, operand)?),
        Term::Group { inner, .. } => build(alloc, p, allowed, inner),
        Term::Aggregate { components, .. } => {
            let values = all(alloc, p, components.as_slice())?;
            aggregate(alloc, p, allowed, components.len(), values)
        }
        Term::Others { component, .. } => {
            with_others(alloc, p, allowed, one(alloc, p, component)?.operands)
        }
        Term::Nothing { .. } => Ok(nothing(alloc)),
        Term::Infix { .. } => Ok(nothing(alloc)),
        Term::Concatenation { .. } => Ok(nothing(alloc)),
        Term::ShortCircuit { .. } => Ok(nothing(alloc)),
        Term::RangeMember { .. } => Ok(nothing(alloc)),
        Term::Member { .. } => Ok(nothing(alloc)),
        Term::Selected { .. } => Ok(nothing(alloc)),
        Term::Applied { .. } => Ok(nothing(alloc)),
    }
}

/// The head of a term, and whether it is of numbers alone.
#[cycle(heads)]
fn build<'a>(
    alloc: Global,
    predefined: &'a Predefined,
    allowed: &Option<Nominal>,
    term: &'a Term,
) -> Result<Built, NoMemory>
    ensures head { IfOk result (λ b. plain b.expression ≡ head_of predefined.now allowed.now (term_model term.now)) }
    ensures universal { IfOk result (λ b. b.is_universal ≡ is_universal (term_model term.now)) }
{
    match step(alloc, predefined, allowed, term)? {
        Step::Down(sign, right, left) => {
            let mut joints = Vec::new(alloc);
            add(&mut joints, sign, right)?;
            linked(alloc, predefined, joints, left)
        }
        Step::Last(built) => Ok(built),
    }
}

/// The tree of a term, whose heads have their candidates. An aggregate is allowed if a nominal subtype is given for it.
/// # Errors
/// `NoMemory` if the allocator refuses memory.
pub fn head_of(
    alloc: Global,
    predefined: &Predefined,
    allowed: &Option<Nominal>,
    term: &Term,
) -> Result<Expression, NoMemory>
    ensures { IfOk result (λ head. plain head ≡ head_of predefined.now allowed.now (term_model term.now)) }
{
    let built = build(alloc, predefined, allowed, term)?;
    Ok(built.expression)
}

/// A pair of bounds as a head with two operands of one type, which is the given one if both are numbers alone.
/// # Errors
/// `NoMemory` if the allocator refuses memory.
pub fn bounds_head(
    alloc: Global,
    predefined: &Predefined,
    numbers: &ValueType,
    low: &Term,
    high: &Term,
) -> Result<Expression, NoMemory>
    ensures { IfOk result (λ head. plain head ≡ bounds_head predefined.now numbers.now (term_model low.now) (term_model high.now)) }
{
    let bounds = before(alloc, predefined, low, one(alloc, predefined, high)?)?;
    Expression::alike(alloc, bounds.operands, &None, numbers, &predefined.root)
}
