// Heads whose first operand has operands too, as in a chain of operators, and lists of operands.
ghost use Rattle.std.specs.Prelude.{◌≡◌, IfOk};
ghost use Rattle.al_overload.specs.Chains.{all_linked, linked, listed};
ghost use Rattle.al_overload.specs.Counts.{label_of, labels_of};
ghost use Rattle.al_overload.specs.Labelling.{MoreLabels, NoLabel};

use crate::term::{Choices, Labelled, LabelledTerms, Terms};
use crate::types::Expected;
use al_base::NoMemory;
use std::alloc::Global;

/// A head that is chosen except for its first operand: the number of its candidate, whether that is an operator of the root type, and the
/// choices of its other operands.
#[derive(Drop)]
pub(crate) struct Link {
    pub(crate) number: usize,
    pub(crate) is_root: bool,
    pub(crate) others: LabelledTerms,
}

/// A step down: a link with the head that is its first operand and what that is expected to be, or a head that has no operands.
#[derive(Drop)]
pub(crate) enum Step<'a> {
    Down {
        link: Link,
        choices: &'a Choices,
        operands: &'a Terms,
        expected: &'a Expected,
    },
    Last(Labelled),
}

/// Puts one operand before these.
fn before(alloc: Global, first: Labelled, others: LabelledTerms) -> Result<LabelledTerms, NoMemory>
    ensures { IfOk result (λ all. labels_of all ≡ MoreLabels (label_of first) (labels_of others)) }
{
    let first = Box::new(alloc, first)?;
    let others = Box::new(alloc, others)?;
    Ok(LabelledTerms::MoreLabelled(first, others))
}

/// A link with what is chosen of its first operand.
fn linked(alloc: Global, link: Link, first: Labelled) -> Result<Labelled, NoMemory>
    ensures { IfOk result (λ l. label_of l ≡ linked link (label_of first)) }
{
    let operands = before(alloc, first, link.others)?;
    Ok(Labelled::HeadAs(link.number, link.is_root, operands))
}

/// What a chain of links is, from its first operand on. The innermost link comes last.
#[tactic(auto, using(crate::proofs::ChainLemmas::first_linked))]
pub(crate) fn all_linked(
    alloc: Global,
    links: Vec<Link>,
    first: Labelled,
) -> Result<Labelled, NoMemory>
    ensures { IfOk result (λ l. label_of l ≡ all_linked links.items (label_of first)) }
{
    let mut links = links;
    let mut labelled = first;
    while let Some(link) = links.pop() {
        labelled = linked(alloc, link, labelled)?;
    }
    Ok(labelled)
}

/// Operands in source order.
#[tactic(auto, using(crate::proofs::ChainLemmas::first_listed))]
pub(crate) fn gathered(alloc: Global, each: Vec<Labelled>) -> Result<LabelledTerms, NoMemory>
    ensures { IfOk result (λ all. labels_of all ≡ listed each.items NoLabel) }
{
    let mut each = each;
    let mut all = LabelledTerms::NoLabelled;
    while let Some(operand) = each.pop() {
        all = before(alloc, operand, all)?;
    }
    Ok(all)
}
