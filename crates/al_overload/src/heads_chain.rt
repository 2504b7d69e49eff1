// Chains, which lean to the left: `A - B + C` has `A - B` at the left of its `+`, and `A (1).C` has `A (1)` before its dot.
ghost use Rattle.std.specs.Prelude.{◌≡◌, ◌&&◌, ◌∷◌, [], ◌++◌, false, IfOk, OnOk, None, option_map};
ghost use Rattle.std.specs.Option.{option_and_then};
ghost use Rattle.al_overload.specs.Counts.{plain, plain_all};
ghost use Rattle.al_overload.specs.Labelling.{MoreTrees};
ghost use Rattle.al_overload.specs.TermViews.{term_model};
ghost use Rattle.al_overload.specs.HeadsChains.{IsAt, IsPartly, chained_head, chained_universal, joint_head, joint_part, joint_universal, stepped_head, stepped_universal};
ghost use Rattle.al_overload.specs.declared.everywhere.Predefined.{Predefined};
ghost use Rattle.al_overload.specs.HeadsHeads.{applied, head_of, indexing, membership, one, possible, selection};
ghost use Rattle.al_overload.specs.Parts.{component_of, declared_under, element_of, nominal, part_of};
ghost use Rattle.al_overload.specs.Universal.{is_universal};

use crate::built::{
    Built, BuiltOperands, concatenated, infixed, other, range_member, short_circuited,
};
use crate::everywhere::Predefined;
use crate::heads_candidate::{indexing, membership, possible, selection};
use crate::part::{declared_under, indexed_part, selected_part};
use crate::{Candidate, Operands, Term, all_of};
use al_base::NoMemory;
use al_view::{Subtype, SubtypeView, Types, View};
use al_view_typed::BinaryOperator;
use std::alloc::Global;

/// What comes after the first operand of a chain.
#[derive(Drop)]
pub(crate) enum Sign<'a> {
    /// An operator, with all that is visible under its sign.
    Operator(BinaryOperator, &'a [View]),
    /// `&`.
    Concatenation,
    /// `and then` or `or else`.
    ShortCircuit,
    /// `[not] in low .. high`.
    Range,
    /// A selector.
    Selector(&'a [u8]),
    /// What is in parentheses after a part of an object.
    Indexes,
    /// `[not] in mark`, with what the mark may be.
    Mark(Option<Candidate>),
}

/// A step down a chain.
#[derive(Drop)]
pub(crate) enum Step<'a> {
    /// What comes after an operand, with the operands after that one; and the operand.
    Down(Sign<'a>, BuiltOperands, &'a Term),
    /// The head of what doesn't begin with an operand.
    Last(Built),
}

/// What comes after an operand of a chain, with the operands after that one.
#[derive(Drop)]
pub(crate) struct Joint<'a> {
    pub(crate) sign: Sign<'a>,
    pub(crate) right: BuiltOperands,
}

/// The head of what is at the left, with its nominal subtype and the types that this is of, if it is an object or a part of one.
#[derive(Drop)]
pub(crate) struct Placed<'a> {
    pub(crate) built: Built,
    pub(crate) part: Option<(&'a Subtype, &'a Types)>,
}

/// A head that is no part of an object.
fn apart<'a>(built: Built) -> Placed<'a>
    ensures built { result.built ≡ built }
    ensures part { result.part ≡ None }
{
    Placed { built, part: None }
}

/// Puts one link before the others of a chain.
pub(crate) fn add<'a>(
    joints: &mut Vec<Joint<'a>>,
    sign: Sign<'a>,
    right: BuiltOperands,
) -> Result<(), NoMemory>
    ensures { OnOk result (joints.new.items ≡ joints.old.items ++ record { sign = sign.entry; right = right } ∷ []) }
{
    joints.push(Joint { sign, right })?;
    Ok(())
}

/// The head of a part of an object by its selector.
fn selected_of<'a>(
    alloc: Global,
    predefined: &'a Predefined,
    name: &[u8],
    part: Option<(&'a Subtype, &'a Types)>,
    operands: Operands,
) -> Result<Placed<'a>, NoMemory>
    ensures head { IfOk result (λ b. plain b.built.expression ≡ possible (option_and_then (selection name.now) (option_map (λ x. nominal x.1.now x.0.now) part.entry)) (plain_all operands)) }
    ensures universal { IfOk result (λ b. b.built.is_universal ≡ false) }
    ensures part { IfOk result (λ b. option_map (λ x. nominal x.1.now x.0.now) b.part ≡ option_and_then (component_of name.now) (option_map (λ x. nominal x.1.now x.0.now) part.entry)) }
{
    let standard = &predefined.standard;
    let candidate = selection(alloc, standard, name, part)?;
    let built = other(possible(alloc, candidate, operands)?);
    let part = selected_part(standard, name, part);
    Ok(Placed { built, part })
}

/// The head of a part of an object by its indexes.
fn indexed_of<'a>(
    alloc: Global,
    predefined: &'a Predefined,
    part: Option<(&'a Subtype, &'a Types)>,
    operands: Operands,
) -> Result<Placed<'a>, NoMemory>
    ensures head { IfOk result (λ b. plain b.built.expression ≡ possible (option_and_then indexing (option_map (λ x. nominal x.1.now x.0.now) part.entry)) (plain_all operands)) }
    ensures universal { IfOk result (λ b. b.built.is_universal ≡ false) }
    ensures part { IfOk result (λ b. option_map (λ x. nominal x.1.now x.0.now) b.part ≡ option_and_then element_of (option_map (λ x. nominal x.1.now x.0.now) part.entry)) }
{
    let standard = &predefined.standard;
    let candidate = indexing(alloc, standard, part)?;
    let built = other(possible(alloc, candidate, operands)?);
    let part = indexed_part(standard, part);
    Ok(Placed { built, part })
}

/// The head of the operands of a link, the first of which has this nominal subtype.
fn signed<'a>(
    alloc: Global,
    predefined: &'a Predefined,
    sign: Sign<'a>,
    part: Option<(&'a Subtype, &'a Types)>,
    operands: BuiltOperands,
) -> Result<Placed<'a>, NoMemory>
    ensures head { IfOk result (λ b. plain b.built.expression ≡ joint_head predefined.now sign.entry (option_map (λ x. nominal x.1.now x.0.now) part.entry) (plain_all operands.operands) operands.are_universal) }
    ensures universal { IfOk result (λ b. b.built.is_universal ≡ joint_universal sign.entry operands.are_universal) }
    ensures part { IfOk result (λ b. option_map (λ x. nominal x.1.now x.0.now) b.part ≡ joint_part sign.entry (option_map (λ x. nominal x.1.now x.0.now) part.entry)) }
{
    match sign {
        Sign::Operator(operator, visible) => {
            let built = infixed(alloc, predefined, operator, visible, operands)?;
            Ok(apart(built))
        }
        Sign::Concatenation => Ok(apart(concatenated(alloc, operands.operands)?)),
        Sign::ShortCircuit => Ok(apart(short_circuited(alloc, predefined, operands.operands)?)),
        Sign::Range => Ok(apart(range_member(alloc, predefined, operands.operands)?)),
        Sign::Selector(name) => selected_of(alloc, predefined, name, part, operands.operands),
        Sign::Indexes => indexed_of(alloc, predefined, part, operands.operands),
        Sign::Mark(candidate) => {
            let expression = possible(alloc, candidate, operands.operands)?;
            Ok(apart(other(expression)))
        }
    }
}

/// The head of a link with what is at its left.
fn joined<'a>(
    alloc: Global,
    predefined: &'a Predefined,
    left: Placed<'a>,
    joint: Joint<'a>,
) -> Result<Placed<'a>, NoMemory>
    ensures head { IfOk result (λ b. plain b.built.expression ≡ joint_head predefined.now joint.entry.sign (option_map (λ x. nominal x.1.now x.0.now) left.entry.part) (MoreTrees (plain left.entry.built.expression) (plain_all joint.entry.right.operands)) (left.entry.built.is_universal && joint.entry.right.are_universal)) }
    ensures universal { IfOk result (λ b. b.built.is_universal ≡ joint_universal joint.entry.sign (left.entry.built.is_universal && joint.entry.right.are_universal)) }
    ensures part { IfOk result (λ b. option_map (λ x. nominal x.1.now x.0.now) b.part ≡ joint_part joint.entry.sign (option_map (λ x. nominal x.1.now x.0.now) left.entry.part)) }
{
    let Placed { built, part } = left;
    let are_universal = built.is_universal && joint.right.are_universal;
    let operands = Operands::before(alloc, built.expression, joint.right.operands)?;
    let operands = BuiltOperands {
        operands,
        are_universal,
    };
    signed(alloc, predefined, joint.sign, part, operands)
}

/// The head of a chain, from its first operand on. The last link in source order comes first.
#[tactic(auto, using(crate::proofs::HeadsChainLemmas::first_joined_head, crate::proofs::HeadsChainLemmas::first_joined_universal))]
pub(crate) fn chained<'a>(
    alloc: Global,
    predefined: &'a Predefined,
    joints: Vec<Joint<'a>>,
    first: Placed<'a>,
) -> Result<Built, NoMemory>
    ensures head { IfOk result (λ b. plain b.expression ≡ chained_head predefined.now joints.entry.items (plain first.entry.built.expression) first.entry.built.is_universal (option_map (λ x. nominal x.1.now x.0.now) first.entry.part)) }
    ensures universal { IfOk result (λ b. b.is_universal ≡ chained_universal joints.entry.items first.entry.built.is_universal) }
{
    let mut joints = joints;
    let mut placed = first;
    while let Some(joint) = joints.pop() {
        placed = joined(alloc, predefined, placed, joint)?;
    }
    Ok(placed.built)
}

/// A step to an operand, with the other operands after it, which aren't of numbers alone.
fn after<'a>(sign: Sign<'a>, operands: Operands, left: &'a Term) -> Step<'a>
    ensures head { (p : Predefined) → stepped_head p result ≡ joint_head p sign.entry (part_of (term_model left.now)) (MoreTrees (head_of p None (term_model left.now)) (plain_all operands)) (is_universal (term_model left.now) && false) }
    ensures universal { stepped_universal result ≡ joint_universal sign.entry (is_universal (term_model left.now) && false) }
    ensures part { IsPartly (joint_part sign.entry (part_of (term_model left.now))) result }
    ensures at { IsAt left.now result }
{
    let right = BuiltOperands {
        operands,
        are_universal: false,
    };
    Step::Down(sign, right, left)
}

/// The step to what comes before a selector.
pub(crate) fn selected<'a>(prefix: &'a Term, name: &'a [u8]) -> Step<'a>
    ensures head { (p : Predefined) → stepped_head p result ≡ possible (option_and_then (selection name.now) (part_of (term_model prefix.now))) (one (head_of p None (term_model prefix.now))) }
    ensures universal { stepped_universal result ≡ false }
    ensures part { IsPartly (option_and_then (component_of name.now) (part_of (term_model prefix.now))) result }
    ensures at { IsAt prefix.now result }
{
    after(Sign::Selector(name), Operands::none(), prefix)
}

/// The step to what comes before `[not] in mark`.
pub(crate) fn tested<'a>(
    alloc: Global,
    predefined: &Predefined,
    value: &'a Term,
    mark: &SubtypeView,
) -> Result<Step<'a>, NoMemory>
    ensures head { IfOk result (λ s. stepped_head predefined.now s ≡ possible (membership predefined.now mark.now) (one (head_of predefined.now None (term_model value.now)))) }
    ensures universal { IfOk result (λ s. stepped_universal s ≡ false) }
    ensures part { IfOk result (λ s. IsPartly None s) }
    ensures at { IfOk result (λ s. IsAt value.now s) }
{
    let candidate = membership(alloc, predefined, mark)?;
    Ok(after(Sign::Mark(candidate), Operands::none(), value))
}

/// The step to what comes before indexes.
fn indexed<'a>(prefix: &'a Term, indexes: Operands) -> Step<'a>
    ensures head { (p : Predefined) → stepped_head p result ≡ applied p None (part_of (term_model prefix.now)) (head_of p None (term_model prefix.now)) (plain_all indexes) }
    ensures universal { stepped_universal result ≡ false }
    ensures part { IsPartly (option_and_then element_of (part_of (term_model prefix.now))) result }
    ensures at { IsAt prefix.now result }
{
    after(Sign::Indexes, indexes, prefix)
}

/// A name with arguments, or the step to what comes before indexes.
pub(crate) fn applied<'a>(
    alloc: Global,
    predefined: &Predefined,
    prefix: &'a Term,
    operands: Operands,
) -> Result<Step<'a>, NoMemory>
    ensures head { IfOk result (λ s. stepped_head predefined.now s ≡ applied predefined.now (declared_under (term_model prefix.now)) (part_of (term_model prefix.now)) (head_of predefined.now None (term_model prefix.now)) (plain_all operands)) }
    ensures universal { IfOk result (λ s. stepped_universal s ≡ false) }
    ensures part { IfOk result (λ s. IsPartly (option_and_then element_of (part_of (term_model prefix.now))) s) }
    ensures at { IfOk result (λ s. IsAt prefix.now s) }
{
    match declared_under(prefix) {
        Some(visible) => {
            let (standard, root) = (&predefined.standard, &predefined.root);
            let expression = all_of(alloc, standard, root, visible, operands)?;
            Ok(Step::Last(other(expression)))
        }
        None => Ok(indexed(prefix, operands)),
    }
}
