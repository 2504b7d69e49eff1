// What is wrong in the prefixes of attributes in an expression.
ghost use Rattle.std.specs.Prelude.{◌≡◌, IfOk, map};
ghost use Rattle.al_base_fault.specs.Faults.{earlier};
ghost use Rattle.al_base_fault.specs.Judging.{map_ok};
ghost use Rattle.al_overload_lookup.specs.Keys.{denoted};
ghost use Rattle.al_overload_lookup.specs.Places.{first_place};
ghost use Rattle.al_overload_values.specs.Prefixes.{place_after, prefix_fault};
ghost use Rattle.al_overload_values.specs.Steps.{IsBelow, stepped, tested_value};
ghost use Rattle.al_overload_values.specs.Texts.{all_fault, after_fault, group_fault, text_fault};
ghost use Rattle.al_overload_readings.specs.ReadingViews.{reading_model};
ghost use Rattle.al_overload_readings.specs.Texts.{read};
ghost use Rattle.al_tree.specs.ExpressionViews.{expression_model, expressions_of, group_model, member_model, part_model};

use crate::fault::{place_after, prefix_fault};
use crate::mark::may_be_mark;
use al_base::{NoMemory, Place};
use al_base_fault::{CheckResult, Fault, earlier};
use al_overload_lookup::{Names, first_place, group_place};
use al_overload_nodes::Labeller;
use al_overload_readings::{Reading, read};
use al_tree::{Expression, Group, Member, NamePart};

/// What the prefix of a part of a name may be.
fn prefix_read(
    labeller: &Labeller,
    names: &Names,
    prefix: &Expression,
) -> Result<CheckResult<Reading>, NoMemory>
    ensures { IfOk result (λ checked. map_ok reading_model checked ≡ read (denoted names.now) (expression_model prefix.now)) }
{
    let standard = &labeller.predefined.standard;
    read(labeller.alloc, standard, names, prefix)
}

/// A step into an expression.
#[derive(Drop)]
pub(crate) enum Step<'a> {
    /// The first fault so far, with what is at the left.
    Down(Option<Fault>, &'a Expression),
    /// The first fault of all.
    Last(Option<Fault>),
}

/// The first fault in the prefixes of attributes: the one that was found already, or one in this expression, which is in a context that
/// begins at `at`. What is at the left is processed by a loop.
#[cycle(text)]
pub(crate) fn text_fault(
    labeller: &Labeller,
    names: &Names,
    at: Place,
    found: Option<Fault>,
    expression: &Expression,
) -> Result<Option<Fault>, NoMemory>
    ensures { IfOk result (λ fault. fault ≡ text_fault labeller.now.predefined labeller.now.own (denoted names.now) at found (expression_model expression.now)) }
{
    let mut fault = found;
    let mut rest = expression;
    loop {
        match step_into(labeller, names, at, fault, rest)? {
            Step::Down(so_far, left) => {
                fault = so_far;
                rest = left;
            }
            Step::Last(fault) => return Ok(fault),
        }
    }
}

/// A step by the form of the expression: all but what is at the left.
#[cycle(text)]
#[tactic(auto, using(crate::proofs::Faults::number_fault, crate::proofs::Faults::string_fault, crate::proofs::Faults::name_fault, crate::proofs::Faults::longer_fault, crate::proofs::Faults::prefixed_fault, crate::proofs::Faults::infix_fault, crate::proofs::Faults::grouped_fault, al_tree::proofs::ExpressionsMade::expression_numeric_model, al_tree::proofs::ExpressionsMade::expression_text_model, al_tree::proofs::ExpressionsMade::expression_name_model, al_tree::proofs::ExpressionsMade::expression_longer_model, al_tree::proofs::ExpressionsMade::expression_prefixed_model, al_tree::proofs::ExpressionsMade::expression_infix_model, al_tree::proofs::ExpressionsMade::expression_member_model, al_tree::proofs::ExpressionsMade::expression_group_model))]
fn step_into<'a>(
    labeller: &Labeller,
    names: &Names,
    at: Place,
    found: Option<Fault>,
    expression: &'a Expression,
) -> Result<Step<'a>, NoMemory>
    ensures fault { IfOk result (λ s. stepped labeller.now.predefined labeller.now.own (denoted names.now) at s ≡ text_fault labeller.now.predefined labeller.now.own (denoted names.now) at found (expression_model expression.now)) }
    ensures below { IfOk result (λ s. IsBelow expression.now s) }
{
    match expression {
        Expression::Numeric(_) => Ok(Step::Last(found)),
        Expression::Text(_) => Ok(Step::Last(found)),
        Expression::Name(_) => Ok(Step::Last(found)),
        Expression::Longer(longer) => {
            let fault = after_fault(labeller, names, at, found, &longer.part, &longer.prefix)?;
            Ok(Step::Down(fault, &longer.prefix))
        }
        Expression::Prefixed(prefixed) => Ok(Step::Down(found, &prefixed.operand)),
        Expression::Infix(infix) => {
            let fault = text_fault(labeller, names, at, found, &infix.right)?;
            Ok(Step::Down(fault, &infix.left))
        }
        Expression::Member(tested) => {
            let fault = range_fault(labeller, names, at, found, tested)?;
            Ok(Step::Down(fault, &tested.left))
        }
        Expression::Group(group) => {
            let fault = group_fault(labeller, names, at, found, group)?;
            Ok(Step::Last(fault))
        }
    }
}

/// The first fault in the prefixes in a mark or a range that a value is tested against.
#[cycle(text)]
#[tactic(auto, using(crate::proofs::Faults::mark_fault, crate::proofs::Faults::bounds_fault))]
fn range_fault(
    labeller: &Labeller,
    names: &Names,
    at: Place,
    found: Option<Fault>,
    tested: &Member,
) -> Result<Option<Fault>, NoMemory>
    ensures { IfOk result (λ fault. text_fault labeller.now.predefined labeller.now.own (denoted names.now) at fault (expression_model (tested_value tested.now)) ≡ text_fault labeller.now.predefined labeller.now.own (denoted names.now) at found (member_model tested.now)) }
{
    match &tested.high {
        None => text_fault(labeller, names, at, found, &tested.low),
        Some(high) => {
            let fault = text_fault(labeller, names, at, found, high)?;
            text_fault(labeller, names, at, fault, &tested.low)
        }
    }
}

/// The first fault in the prefixes in a part after a name.
#[cycle(text)]
#[tactic(auto, using(crate::proofs::Faults::selector_fault, crate::proofs::Faults::arguments_fault, crate::proofs::Faults::attribute_fault, crate::proofs::Faults::range_fault, crate::proofs::Faults::operand_fault, al_tree::proofs::ExpressionsMade::part_selector_model, al_tree::proofs::ExpressionsMade::part_arguments_model, al_tree::proofs::ExpressionsMade::part_attribute_model, al_tree::proofs::ExpressionsMade::part_range_attribute_model, al_tree::proofs::ExpressionsMade::part_operand_model))]
fn after_fault(
    labeller: &Labeller,
    names: &Names,
    at: Place,
    found: Option<Fault>,
    part: &NamePart,
    prefix: &Expression,
) -> Result<Option<Fault>, NoMemory>
    ensures { IfOk result (λ fault. fault ≡ after_fault labeller.now.predefined labeller.now.own (denoted names.now) at found (expression_model prefix.now) (part_model part.now)) }
{
    match part {
        NamePart::Selector(_) => Ok(found),
        NamePart::Arguments(_, first, others) => {
            let inner = argument_place(labeller, names, at, prefix, first)?;
            let fault = text_fault(labeller, names, inner, found, first)?;
            all_fault(labeller, names, inner, fault, others)
        }
        NamePart::Attribute(_) => attribute_fault(labeller, names, at, found, prefix),
        NamePart::RangeAttribute => attribute_fault(labeller, names, at, found, prefix),
        NamePart::Operand(group) => {
            group_fault(labeller, names, group_place(group), found, group)
        }
    }
}

/// The place where the context of an argument after a name begins.
#[tactic(auto, using(crate::proofs::Marks::place_after_none))]
fn argument_place(
    labeller: &Labeller,
    names: &Names,
    at: Place,
    prefix: &Expression,
    first: &Expression,
) -> Result<Place, NoMemory>
    ensures { IfOk result (λ place. place ≡ place_after at (first_place (expression_model first.now)) (read (denoted names.now) (expression_model prefix.now))) }
{
    if !may_be_mark(prefix) {
        return Ok(at);
    }
    let name = prefix_read(labeller, names, prefix)?;
    let place = place_after(labeller.alloc, at, first_place(first), &name);
    drop(name);
    place
}

/// The fault of an attribute after this prefix.
fn attribute_fault(
    labeller: &Labeller,
    names: &Names,
    at: Place,
    found: Option<Fault>,
    prefix: &Expression,
) -> Result<Option<Fault>, NoMemory>
    ensures { IfOk result (λ fault. fault ≡ earlier found (prefix_fault labeller.now.predefined labeller.now.own at (read (denoted names.now) (expression_model prefix.now)))) }
{
    let name = prefix_read(labeller, names, prefix)?;
    let fault = prefix_fault(labeller, at, &name);
    drop(name);
    Ok(earlier(found, fault?))
}

/// The first fault in the prefixes in what is in parentheses.
#[cycle(text)]
#[tactic(auto, using(crate::proofs::Faults::positional_fault, crate::proofs::Faults::others_fault, al_tree::proofs::ExpressionsMade::group_positional_model, al_tree::proofs::ExpressionsMade::group_others_aggregate_model))]
fn group_fault(
    labeller: &Labeller,
    names: &Names,
    at: Place,
    found: Option<Fault>,
    group: &Group,
) -> Result<Option<Fault>, NoMemory>
    ensures { IfOk result (λ fault. fault ≡ group_fault labeller.now.predefined labeller.now.own (denoted names.now) at found (group_model group.now)) }
{
    match group {
        Group::Positional(_, first, others) => {
            let fault = text_fault(labeller, names, at, found, first)?;
            all_fault(labeller, names, at, fault, others)
        }
        Group::OthersAggregate(_, value) => text_fault(labeller, names, at, found, value),
    }
}

/// The first fault in the prefixes in several expressions.
#[cycle(text)]
#[tactic(auto, using(crate::proofs::Faults::none_fault, crate::proofs::Faults::more_fault))]
fn all_fault(
    labeller: &Labeller,
    names: &Names,
    at: Place,
    found: Option<Fault>,
    others: &[Expression],
) -> Result<Option<Fault>, NoMemory>
    ensures { IfOk result (λ fault. fault ≡ all_fault labeller.now.predefined labeller.now.own (denoted names.now) at found (expressions_of (map expression_model others.now))) }
{
    let mut fault = found;
    for next in others {
        fault = text_fault(labeller, names, at, fault, next)?;
    }
    Ok(fault)
}
