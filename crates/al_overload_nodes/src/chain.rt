// Chains, which lean to the left: `A - B + C` has `A - B` at the left of its `+`, and `A (1).C` has `A (1)` before its dot.
ghost use Rattle.std.specs.Prelude.{◌≡◌, IfOk, option_map};
ghost use Rattle.al_overload.specs.Counts.{label_of};
ghost use Rattle.al_overload_nodes.specs.Chains.{IsAt, IsLastOf, chained_node, joint_node, stepped};
ghost use Rattle.al_overload.specs.Universal.{is_universal};
ghost use Rattle.al_overload_nodes.specs.Known.{IsKnown};
ghost use Rattle.al_overload_nodes.specs.Views.{reading_model};
ghost use Rattle.al_overload.specs.Places.{first_place};
ghost use Rattle.al_overload.specs.Terms.{TermTree as trees};
ghost use Rattle.al_overload.specs.TermViews.{term_model};
ghost use Rattle.al_overload_nodes.specs.Leaves.{labelled};
ghost use Rattle.al_overload_nodes.specs.Readings.{reading};

use crate::made::{kept, kept_binary, kept_element, kept_selected, kept_short_circuit, kept_unfit};
use crate::{Labeller, Reading, Signature};
use al_base::{NoMemory, Place};
use al_overload::{Indexing, Labelled, Term, operand_label, part_of};
use al_view::{Subtype, Symbol, Types};
use al_view_typed::{BinaryOperator, ShortCircuit};

/// A link of a chain: what comes after its first operand, or after its prefix, as it was read.
#[derive(Drop)]
pub(crate) enum Joint<'a> {
    /// An operator with its signature and its right operand.
    Operator(BinaryOperator, Signature<'a>, Box<Reading>),
    /// `and then` or `or else` among these types, with its right operand.
    ShortCircuit(ShortCircuit, &'a Types, Box<Reading>),
    /// A selector after what has this nominal subtype.
    Selector(&'a [u8], Option<(&'a Subtype, &'a Types)>),
    /// An index of an array among these types.
    Index(&'a Types, Indexing<'a>, Box<Reading>),
}

/// A step down a chain.
#[derive(Drop)]
pub(crate) enum Step<'a> {
    /// A link; what is at its left, with whether that is of numbers alone, if it is known; its labelling, and its type with the types among
    /// which that is.
    Down {
        joint: Joint<'a>,
        left: &'a Term,
        known: Option<bool>,
        label: &'a Labelled,
        types: &'a Types,
        at: &'a Symbol,
    },
    /// What is there, as it was read: no link, or one that its labelling doesn't fit.
    Last(Box<Reading>),
}

/// A link with what was read at its left.
pub(crate) fn joined(
    labeller: &Labeller,
    place: Place,
    first: Box<Reading>,
    joint: Joint<'_>,
) -> Result<Box<Reading>, NoMemory>
    ensures { IfOk result (λ r. reading_model r.value ≡ joint_node labeller.now.predefined place joint.entry (reading_model first.value)) }
{
    match joint {
        Joint::Operator(operator, of, second) => {
            kept_binary(labeller, place, operator, &of, first, second)
        }
        Joint::ShortCircuit(form, types, second) => {
            kept_short_circuit(labeller, place, types, form, first, second)
        }
        Joint::Selector(name, part) => kept_selected(labeller, place, name, part, first),
        Joint::Index(types, by, index) => kept_element(labeller, place, types, &by, first, index),
    }
}

/// What a chain is, from its first operand on. The last link in source order comes first.
#[tactic(auto, using(crate::proofs::ChainLemmas::first_joined))]
pub(crate) fn chained(
    labeller: &Labeller,
    place: Place,
    joints: Vec<Joint<'_>>,
    first: Box<Reading>,
) -> Result<Box<Reading>, NoMemory>
    ensures { IfOk result (λ r. reading_model r.value ≡ chained_node labeller.now.predefined place joints.entry.items (reading_model first.value)) }
{
    let mut joints = joints;
    let mut reading = first;
    while let Some(joint) = joints.pop() {
        reading = joined(labeller, place, reading, joint)?;
    }
    Ok(reading)
}

/// The step to what is at the left of a link. If that has no labelling, the whole is read already.
pub(crate) fn down<'a>(
    labeller: &Labeller,
    place: Place,
    joint: Joint<'a>,
    left: &'a Term,
    known: Option<bool>,
    label: Option<&'a Labelled>,
    types: &'a Types,
    at: &'a Symbol,
) -> Result<Step<'a>, NoMemory>
    requires { IsKnown known (is_universal (term_model left.now)) }
    ensures read { IfOk result (λ s. stepped labeller.now.predefined labeller.now.own place s ≡ joint_node labeller.now.predefined place joint.entry (labelled place (λ l. reading labeller.now.predefined labeller.now.own (term_model left.now) l types.now at.now) (option_map (λ l. label_of l.now) label.entry))) }
    ensures at { IfOk result (λ s. IsAt left.now s) }
{
    match label {
        Some(label) => Ok(Step::Down {
            joint,
            left,
            known,
            label,
            types,
            at,
        }),
        None => {
            let first = kept_unfit(labeller.alloc, place)?;
            let reading = joined(labeller, place, first, joint)?;
            Ok(Step::Last(reading))
        }
    }
}

/// What ends a chain.
pub(crate) fn last<'a>(
    labeller: &Labeller,
    reading: Result<Reading, NoMemory>,
) -> Result<Step<'a>, NoMemory>
    ensures { IfOk result (λ s. IsLastOf reading s) }
{
    let reading = kept(labeller.alloc, reading)?;
    Ok(Step::Last(reading))
}

/// The step at a selector.
#[inline(never)]
pub(crate) fn step_selected<'a>(
    labeller: &'a Labeller,
    prefix: &'a Term,
    name: &'a [u8],
    place: Place,
    label: &'a Labelled,
    types: &'a Types,
    at: &'a Symbol,
) -> Result<Step<'a>, NoMemory>
    requires { place ≡ first_place (term_model prefix.now) }
    ensures read { IfOk result (λ s. stepped labeller.now.predefined labeller.now.own place s ≡ reading labeller.now.predefined labeller.now.own (trees.SelectedTerm (term_model prefix.now) name.now) (label_of label.now) types.now at.now) }
    ensures at { IfOk result (λ s. IsAt prefix.now s) }
{
    let part = part_of(&labeller.predefined.standard, prefix);
    let joint = Joint::Selector(name, part);
    let first_label = operand_label(label, 0);
    down(labeller, place, joint, prefix, None, first_label, types, at)
}
