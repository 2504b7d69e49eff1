// The one interpretation of an expression.
ghost use Rattle.std.specs.Prelude.{◌≡◌, ◌∷◌, [], map, IfOk, length};
ghost use Rattle.al_overload.specs.Counts.{AreCounted, IsHead, candidates, counted_all, label_of, labels_of, plain, plain_all};
ghost use Rattle.al_overload.specs.Chains.{IsBelow, listed, stepped};
ghost use Rattle.al_overload.specs.Labelling.{NoLabel, Node, NodeAs, acceptable, labellings, pairs, preferred, preferred_all, under};
ghost use Rattle.al_overload.specs.Resolution.{IsInterpretation};

use crate::chain::{Link, Step, all_linked, gathered};
use crate::count::{Count, ways_at, ways_in};
use crate::term::{Choice, Choices, Expression, Labelled, LabelledTerms, Term, Terms};
use crate::types::Expected;
use al_base::NoMemory;
use std::alloc::Global;

/// What an expression means at its place.
#[derive(Drop)]
pub enum Interpretation {
    /// No choice of declarations fits.
    Nothing,
    /// Exactly one choice is acceptable.
    One(Labelled),
    /// At least two choices are acceptable.
    Several,
}

/// Whether the root type's operators are what is preferred at this head.
fn prefers_root(choices: &[Choice], _operands: &Terms, expected: &Expected) -> bool
    requires { choices.now ≡ counted_all (plain_all _operands.now) (candidates choices.now) }
    ensures { preferred (Node (candidates choices.now) (plain_all _operands.now)) expected.now ≡ under (plain_all _operands.now) expected.now result (candidates choices.now) }
{
    ways_in(choices, true, expected).is_any()
}

/// The one candidate that can be at this head, with its number.
fn pick<'a>(
    choices: &'a [Choice],
    _operands: &Terms,
    expected: &Expected,
    is_root: bool,
) -> (usize, &'a Choice)
    requires counted { choices.now ≡ counted_all (plain_all _operands.now) (candidates choices.now) }
    requires one { length (under (plain_all _operands.now) expected.now is_root (candidates choices.now)) ≡ 1 }
    ensures one { length (preferred_all (plain_all _operands.now) result.1.now.candidate.operands) ≡ 1 }
    ensures head { under (plain_all _operands.now) expected.now is_root (candidates choices.now) ≡ map (NodeAs result.0 is_root) (preferred_all (plain_all _operands.now) result.1.now.candidate.operands) }
{
    let mut number = 0;
    for choice in choices {
        if choice.candidate.is_root == is_root
            && choice.candidate.given.fits(expected)
            && choice.ways.is_any()
        {
            return (number, choice);
        }
        number += 1;
    }
    unreachable!()
}

/// The labellings of operands, each of which has exactly one choice.
#[tactic(auto, using(crate::proofs::Counting::first_one, crate::proofs::Counting::others_one))]
fn one_each(operand: &Term, more: &Terms, first: &Expected, others: &[Expected])
    requires { length (pairs (preferred (plain operand.now) first.now) (preferred_all (plain_all more.now) others.now)) ≡ 1 }
    ensures first { length (preferred (plain operand.now) first.now) ≡ 1 }
    ensures others { length (preferred_all (plain_all more.now) others.now) ≡ 1 }
{}

/// The one labelling of a head with its operands that is what is expected. First operands are processed by a loop, so that a chain of
/// operators takes no stack for each.
#[cycle(choose)]
#[tactic(auto, using(crate::proofs::ChainLemmas::first_mapped, crate::proofs::ChainLemmas::same_labels, crate::proofs::ChainLemmas::only_one))]
fn choose<'a>(
    alloc: Global,
    choices: &'a Choices,
    operands: &'a Terms,
    expected: &'a Expected,
) -> Result<Labelled, NoMemory>
    requires counted { IsHead choices.now operands.now }
    requires one { length (preferred (Node (candidates choices.now) (plain_all operands.now)) expected.now) ≡ 1 }
    ensures { IfOk result (λ l. preferred (Node (candidates choices.now) (plain_all operands.now)) expected.now ≡ label_of l ∷ []) }
{
    let mut links = Vec::new(alloc);
    let (mut choices, mut operands, mut expected) = (choices, operands, expected);
    loop {
        match step(alloc, choices, operands, expected)? {
            Step::Down {
                link,
                choices: inner_choices,
                operands: inner,
                expected: first_expected,
            } => {
                links.push(link)?;
                (choices, operands, expected) = (inner_choices, inner, first_expected);
            }
            Step::Last(labelled) => return all_linked(alloc, links, labelled),
        }
    }
}

/// A step down from a head to its first operand, once its others are chosen.
#[cycle(choose)]
#[tactic(auto, using(crate::proofs::ChainLemmas::head_stepped, crate::proofs::ChainLemmas::head_alone))]
fn step<'a>(
    alloc: Global,
    choices: &'a Choices,
    operands: &'a Terms,
    expected: &Expected,
) -> Result<Step<'a>, NoMemory>
    requires counted { IsHead choices.now operands.now }
    requires one { length (preferred (Node (candidates choices.now) (plain_all operands.now)) expected.now) ≡ 1 }
    ensures chosen { IfOk result (λ s. stepped s ≡ preferred (Node (candidates choices.now) (plain_all operands.now)) expected.now) }
    ensures below { IfOk result (λ s. IsBelow operands.now s) }
{
    let choices = choices.as_slice();
    let is_root = prefers_root(choices, operands, expected);
    let (number, choice) = pick(choices, operands, expected, is_root);
    match operands {
        Terms::NoTerms => {
            let none = LabelledTerms::NoLabelled;
            Ok(Step::Last(Labelled::HeadAs(number, is_root, none)))
        }
        Terms::MoreTerms(operand, more) => {
            let [first, others @ ..] = choice.candidate.operands.as_slice() else {
                unreachable!()
            };
            one_each(operand, more, first, others);
            let Term::Head(inner_choices, inner) = &**operand;
            let others = choose_all(alloc, more, others)?;
            Ok(Step::Down {
                link: Link {
                    number,
                    is_root,
                    others,
                },
                choices: inner_choices,
                operands: inner,
                expected: first,
            })
        }
    }
}

/// What is chosen of operands, one after another.
#[cycle(choose)]
#[tactic(auto, using(crate::proofs::ChainLemmas::more_listed, crate::proofs::ChainLemmas::same_lists, crate::proofs::ChainLemmas::none_left))]
fn choose_each(
    alloc: Global,
    operands: &Terms,
    expected: &[Expected],
) -> Result<Vec<Labelled>, NoMemory>
    requires counted { AreCounted operands.now }
    requires one { length (preferred_all (plain_all operands.now) expected.now) ≡ 1 }
    ensures { IfOk result (λ each. preferred_all (plain_all operands.now) expected.now ≡ listed each.items NoLabel ∷ []) }
{
    let mut each = Vec::new(alloc);
    let (mut rest, mut rest_expected) = (operands, expected);
    while let Terms::MoreTerms(operand, more) = rest {
        let [first, others @ ..] = rest_expected else {
            unreachable!()
        };
        one_each(operand, more, first, others);
        let Term::Head(choices, inner) = &**operand;
        let chosen = choose(alloc, choices, inner, first)?;
        each.push(chosen)?;
        (rest, rest_expected) = (more, others);
    }
    Ok(each)
}

#[cycle(choose)]
fn choose_all(
    alloc: Global,
    operands: &Terms,
    expected: &[Expected],
) -> Result<LabelledTerms, NoMemory>
    requires counted { AreCounted operands.now }
    requires one { length (preferred_all (plain_all operands.now) expected.now) ≡ 1 }
    ensures { IfOk result (λ l. preferred_all (plain_all operands.now) expected.now ≡ labels_of l ∷ []) }
{
    let each = choose_each(alloc, operands, expected)?;
    gathered(alloc, each)
}

/// What an expression means if it is expected to be this.
/// # Errors
/// `NoMemory` if the allocator refuses memory.
pub fn interpret(
    alloc: Global,
    expression: &Expression,
    expected: &Expected,
) -> Result<Interpretation, NoMemory>
    ensures { IfOk result (λ found. IsInterpretation (acceptable (labellings (plain expression.now) expected.now)) found) }
{
    interpret_head(alloc, &expression.choices, &expression.operands, expected)
}

fn interpret_head(
    alloc: Global,
    choices: &Choices,
    operands: &Terms,
    expected: &Expected,
) -> Result<Interpretation, NoMemory>
    requires { IsHead choices.now operands.now }
    ensures { IfOk result (λ found. IsInterpretation (acceptable (labellings (Node (candidates choices.now) (plain_all operands.now)) expected.now)) found) }
{
    match ways_at(choices.as_slice(), expected) {
        Count::None => Ok(Interpretation::Nothing),
        Count::One => {
            let labelled = choose(alloc, choices, operands, expected)?;
            Ok(Interpretation::One(labelled))
        }
        Count::Several => Ok(Interpretation::Several),
    }
}
