// The terms of expressions.
ghost use Rattle.std.specs.Prelude.{◌≡◌, IfOk, map, option_map};
ghost use Rattle.al_base_fault.specs.Judging.{next, map_ok};
ghost use Rattle.al_overload_lookup.specs.Keys.{denoted};
ghost use Rattle.al_overload_lookup.specs.Places.{place_of};
ghost use Rattle.al_overload.specs.Terms.{TermTree as terms};
ghost use Rattle.al_overload.specs.TermViews.{term_model};
ghost use Rattle.al_overload_readings.specs.ReadingViews.{reading_model};
ghost use Rattle.al_overload_readings.specs.Readings.{named, ranging, valued};
ghost use Rattle.al_overload_readings.specs.TermLists.{all_model};
ghost use Rattle.al_overload_readings.specs.Texts.{group_term, is_name, is_range, is_range_attribute, is_selector, mark_of_text, noted, number_value, one_range, read, read_more, term_of, unless_range, with_part};
ghost use Rattle.al_overload_readings.specs.Steps.{started};
ghost use Rattle.al_overload_readings.specs.Chains.{IsBelow, stepped};
ghost use Rattle.al_overload_readings.specs.Noted.{NotedTree, linked, plain};
ghost use Rattle.al_tree.specs.ExpressionViews.{expression_model, expressions_of, group_model, infix_model, member_model, part_model, prefixed_model};
ghost use Rattle.al_tree.specs.Lexemes.{identifier_label, number_label, string_label};

use crate::chain::{Joint, chained};
use crate::name::{Link, Step, all_linked, plain, settled};
use crate::{
    Reading, added, aggregated, as_mark, as_single, as_value, bounds, grouped, join, member, named,
    of_value, operate, range_member, repeated, started, together, wrong_kind,
};
use al_base::NoMemory;
use al_base_fault::{CheckResult, Fault, unless};
use al_overload::Term;
use al_overload_lookup::{Names, first_place, group_place};
use al_tree::{
    Expression, Group, Identifier, Infix, Member, NamePart, NumericLiteral, Prefixed, StringLiteral,
};
use al_view::{StaticValue, SubtypeView};
use al_view_predefined::StandardTypes;
use std::alloc::Global;

/// The greatest value of a numeric literal.
const MOST: u64 = 9223372036854775807;

#[tactic(auto, unfolding(crate::specs::Texts::number_value))]
fn number_value(literal: &NumericLiteral) -> StaticValue
    ensures { result ≡ number_value (number_label literal.now) }
{
    let value = if literal.value < MOST {
        literal.value
    } else {
        MOST
    };
    StaticValue { word: value as i64 }
}

fn number(literal: &NumericLiteral) -> Term
    ensures { term_model result ≡ terms.NumberTerm (place_of (number_label literal.now)) (number_value (number_label literal.now)) }
{
    Term::number(literal.place, number_value(literal))
}

fn string(alloc: Global, literal: &StringLiteral) -> Result<Term, NoMemory>
    ensures { IfOk result (λ term. term_model term ≡ terms.TextTerm (place_of (string_label literal.now)) (string_label literal.now).text) }
{
    let bytes = Vec::from_slice(alloc, literal.text.as_slice())?;
    Ok(Term::text(literal.place, bytes))
}

/// What an identifier alone may be.
/// # Errors
/// `NoMemory` if the allocator refuses memory. The inner error is E401 at the identifier if nothing is visible under it.
pub fn read_identifier(
    alloc: Global,
    names: &Names,
    identifier: &Identifier,
) -> Result<CheckResult<Reading>, NoMemory>
    ensures { IfOk result (λ checked. map_ok reading_model checked ≡ named (place_of (identifier_label identifier.now)) (identifier_label identifier.now).text ((denoted names.now).visible (identifier_label identifier.now).text) (identifier_label identifier.now)) }
{
    let name = identifier.name.as_slice();
    let key = Vec::from_slice(alloc, name)?;
    named(
        alloc,
        identifier.place,
        key,
        names.visible.views(name),
        identifier,
    )
}

/// Whether what comes after a name is a selector.
#[tactic(auto, using(al_tree::proofs::ExpressionsMade::part_selector_model, al_tree::proofs::ExpressionsMade::part_arguments_model, al_tree::proofs::ExpressionsMade::part_attribute_model, al_tree::proofs::ExpressionsMade::part_range_attribute_model, al_tree::proofs::ExpressionsMade::part_operand_model))]
pub fn is_selector(part: &NamePart) -> bool
    ensures { result ≡ is_selector (part_model part.now) }
{
    match part {
        NamePart::Selector(_) => true,
        NamePart::Arguments(_, _, _) => false,
        NamePart::Attribute(_) => false,
        NamePart::RangeAttribute => false,
        NamePart::Operand(_) => false,
    }
}

#[tactic(auto, using(al_tree::proofs::ExpressionsMade::part_selector_model, al_tree::proofs::ExpressionsMade::part_arguments_model, al_tree::proofs::ExpressionsMade::part_attribute_model, al_tree::proofs::ExpressionsMade::part_range_attribute_model, al_tree::proofs::ExpressionsMade::part_operand_model))]
fn is_range_attribute(part: &NamePart) -> bool
    ensures { result ≡ is_range_attribute (part_model part.now) }
{
    match part {
        NamePart::Selector(_) => false,
        NamePart::Arguments(_, _, _) => false,
        NamePart::Attribute(_) => false,
        NamePart::RangeAttribute => true,
        NamePart::Operand(_) => false,
    }
}

/// Whether the expression is written as a name.
#[tactic(auto, using(crate::proofs::ReadLemmas::longer_is_name, crate::proofs::ReadLemmas::prefixed_is_name, crate::proofs::ReadLemmas::infix_is_name, crate::proofs::ReadLemmas::member_is_name, al_tree::proofs::ExpressionsMade::expression_numeric_model, al_tree::proofs::ExpressionsMade::expression_text_model, al_tree::proofs::ExpressionsMade::expression_name_model, al_tree::proofs::ExpressionsMade::expression_longer_model, al_tree::proofs::ExpressionsMade::expression_prefixed_model, al_tree::proofs::ExpressionsMade::expression_infix_model, al_tree::proofs::ExpressionsMade::expression_member_model, al_tree::proofs::ExpressionsMade::expression_group_model))]
fn is_name(expression: &Expression) -> bool
    ensures { result ≡ is_name (expression_model expression.now) }
{
    let mut rest = expression;
    loop {
        rest = match rest {
            Expression::Name(_) => return true,
            Expression::Longer(longer) => {
                if !is_selector(&longer.part) {
                    return false;
                }
                &longer.prefix
            }
            Expression::Numeric(_) => return false,
            Expression::Text(_) => return false,
            Expression::Prefixed(_) => return false,
            Expression::Infix(_) => return false,
            Expression::Member(_) => return false,
            Expression::Group(_) => return false,
        };
    }
}

/// Whether the expression is written as a name or a Range attribute.
#[tactic(auto, using(crate::proofs::ReadLemmas::longer_is_range, crate::proofs::ReadLemmas::prefixed_is_range, crate::proofs::ReadLemmas::infix_is_range, crate::proofs::ReadLemmas::member_is_range, al_tree::proofs::ExpressionsMade::expression_numeric_model, al_tree::proofs::ExpressionsMade::expression_text_model, al_tree::proofs::ExpressionsMade::expression_name_model, al_tree::proofs::ExpressionsMade::expression_longer_model, al_tree::proofs::ExpressionsMade::expression_prefixed_model, al_tree::proofs::ExpressionsMade::expression_infix_model, al_tree::proofs::ExpressionsMade::expression_member_model, al_tree::proofs::ExpressionsMade::expression_group_model))]
fn is_range(expression: &Expression) -> bool
    ensures { result ≡ is_range (expression_model expression.now) }
{
    match expression {
        Expression::Name(_) => true,
        Expression::Longer(longer) => {
            is_range_attribute(&longer.part)
                || (is_selector(&longer.part) && is_name(&longer.prefix))
        }
        Expression::Numeric(_) => false,
        Expression::Text(_) => false,
        Expression::Prefixed(_) => false,
        Expression::Infix(_) => false,
        Expression::Member(_) => false,
        Expression::Group(_) => false,
    }
}

/// E404 at the first token of an expression that is written as neither.
#[tactic(auto, unfolding(crate::specs::Texts::unless_range))]
fn unless_range(expression: &Expression) -> Option<Fault>
    ensures { result ≡ unless_range (expression_model expression.now) }
{
    if is_range(expression) {
        None
    } else {
        Some(wrong_kind(first_place(expression)))
    }
}

/// The subtype of an expression that must be a range of one part.
#[tactic(auto, unfolding(crate::specs::Texts::one_range))]
fn as_range(
    alloc: Global,
    expression: &Expression,
    checked: CheckResult<Reading>,
) -> Result<CheckResult<SubtypeView>, NoMemory>
    ensures { IfOk result (λ range. range ≡ one_range (expression_model expression.now) (map_ok reading_model checked)) }
{
    let checked = as_single(alloc, checked)?;
    Ok(unless(unless_range(expression), checked))
}

/// What an expression may be until its context is known. The parts of a name are processed by a loop, so that they take no more of the
/// stack than one does.
/// # Errors
/// `NoMemory` if the allocator refuses memory. The inner error is E401 or E404 at the first of its names that isn't visible or isn't of the
/// right kind.
#[cycle(text)]
pub fn read(
    alloc: Global,
    standard: &StandardTypes,
    names: &Names,
    expression: &Expression,
) -> Result<CheckResult<Reading>, NoMemory>
    ensures { IfOk result (λ checked. map_ok reading_model checked ≡ read (denoted names.now) (expression_model expression.now)) }
{
    let mut links = Vec::new(alloc);
    let mut rest = expression;
    loop {
        match step(alloc, standard, names, rest)? {
            Step::Down(link, prefix) => {
                links.push(link)?;
                rest = prefix;
            }
            Step::Last(first) => {
                let noted = all_linked(alloc, standard, names, links, first)?;
                return Ok(settled(noted));
            }
        }
    }
}

/// A step down: the last part of a name and what comes before it, or what is no name with parts.
#[cycle(text)]
#[tactic(auto, using(crate::proofs::ReadLemmas::number_read, crate::proofs::ReadLemmas::text_read, crate::proofs::ReadLemmas::name_read, crate::proofs::ReadLemmas::longer_read, crate::proofs::ReadLemmas::group_read, al_tree::proofs::ExpressionsMade::expression_numeric_model, al_tree::proofs::ExpressionsMade::expression_text_model, al_tree::proofs::ExpressionsMade::expression_name_model, al_tree::proofs::ExpressionsMade::expression_longer_model, al_tree::proofs::ExpressionsMade::expression_prefixed_model, al_tree::proofs::ExpressionsMade::expression_infix_model, al_tree::proofs::ExpressionsMade::expression_member_model, al_tree::proofs::ExpressionsMade::expression_group_model))]
fn step<'a>(
    alloc: Global,
    standard: &StandardTypes,
    names: &Names,
    expression: &'a Expression,
) -> Result<Step<'a>, NoMemory>
    ensures noted { IfOk result (λ s. stepped (denoted names.now) s ≡ noted (denoted names.now) (expression_model expression.now)) }
    ensures below { IfOk result (λ s. IsBelow expression.now s) }
{
    match expression {
        Expression::Numeric(literal) => {
            Ok(Step::Last(plain(Ok(Reading::Value(number(literal))))))
        }
        Expression::Text(literal) => {
            let term = string(alloc, literal)?;
            Ok(Step::Last(plain(Ok(Reading::Value(term)))))
        }
        Expression::Name(name) => {
            let reading = read_identifier(alloc, names, name)?;
            Ok(Step::Last(plain(reading)))
        }
        Expression::Longer(longer) => {
            let link = link(alloc, standard, names, &longer.part)?;
            Ok(Step::Down(link, &longer.prefix))
        }
        Expression::Prefixed(prefixed) => {
            let reading = read_prefixed(alloc, standard, names, prefixed)?;
            Ok(Step::Last(plain(reading)))
        }
        Expression::Infix(infix) => {
            let reading = read_infix(alloc, standard, names, infix)?;
            Ok(Step::Last(plain(reading)))
        }
        Expression::Member(tested) => {
            let reading = read_member(alloc, standard, names, tested)?;
            Ok(Step::Last(plain(reading)))
        }
        Expression::Group(group) => {
            let term = group_term(alloc, standard, names, group)?;
            Ok(Step::Last(plain(of_value(term))))
        }
    }
}

/// An operator with its operand.
#[cycle(text)]
#[tactic(auto, using(crate::proofs::ReadLemmas::prefix_read))]
fn read_prefixed(
    alloc: Global,
    standard: &StandardTypes,
    names: &Names,
    prefixed: &Prefixed,
) -> Result<CheckResult<Reading>, NoMemory>
    ensures { IfOk result (λ checked. plain (map_ok reading_model checked) ≡ noted (denoted names.now) (prefixed_model prefixed.now)) }
{
    let operand = term_of(alloc, standard, names, &prefixed.operand)?;
    operate(alloc, names, &prefixed.operator, operand)
}

/// An operator with both operands.
#[cycle(text)]
#[tactic(auto, using(crate::proofs::ReadLemmas::infix_read))]
fn read_infix(
    alloc: Global,
    standard: &StandardTypes,
    names: &Names,
    infix: &Infix,
) -> Result<CheckResult<Reading>, NoMemory>
    ensures { IfOk result (λ checked. plain (map_ok reading_model checked) ≡ noted (denoted names.now) (infix_model infix.now)) }
{
    let left = term_of(alloc, standard, names, &infix.left);
    let right = term_of(alloc, standard, names, &infix.right);
    let (left, right) = together(left, right)?;
    join(alloc, names, &infix.operator, left, right)
}

/// A membership test.
#[cycle(text)]
#[tactic(auto, using(crate::proofs::ReadLemmas::member_in_mark, crate::proofs::ReadLemmas::member_in_range))]
fn read_member(
    alloc: Global,
    standard: &StandardTypes,
    names: &Names,
    tested: &Member,
) -> Result<CheckResult<Reading>, NoMemory>
    ensures { IfOk result (λ checked. plain (map_ok reading_model checked) ≡ noted (denoted names.now) (member_model tested.now)) }
{
    let is_negated = tested.not.is_some();
    let value = term_of(alloc, standard, names, &tested.left);
    match &tested.high {
        None => {
            let range = one_range(alloc, standard, names, &tested.low);
            let (value, range) = together(value, range)?;
            member(alloc, is_negated, value, range)
        }
        Some(high) => {
            let low = term_of(alloc, standard, names, &tested.low);
            let high = term_of(alloc, standard, names, high);
            let (value, (low, high)) = together(value, together(low, high))?;
            range_member(alloc, is_negated, value, bounds(low, high))
        }
    }
}

/// The subtype of a mark or a Range attribute alone.
/// # Errors
/// `NoMemory` if the allocator refuses memory. The inner error is E401 or E404 of a name in it; E404 at the first token of what is neither.
#[cycle(text)]
pub fn one_range(
    alloc: Global,
    standard: &StandardTypes,
    names: &Names,
    expression: &Expression,
) -> Result<CheckResult<SubtypeView>, NoMemory>
    ensures { IfOk result (λ range. range ≡ one_range (expression_model expression.now) (read (denoted names.now) (expression_model expression.now))) }
{
    let checked = read(alloc, standard, names, expression)?;
    as_range(alloc, expression, checked)
}

/// A part of a name, with its arguments as they were read.
#[cycle(text)]
#[tactic(auto, using(crate::proofs::ReadLemmas::selector_part, crate::proofs::ReadLemmas::argument_part, crate::proofs::ReadLemmas::arguments_part, crate::proofs::ReadLemmas::attribute_part, crate::proofs::ReadLemmas::range_part, crate::proofs::ReadLemmas::operand_part, al_tree::proofs::ExpressionsMade::part_selector_model, al_tree::proofs::ExpressionsMade::part_arguments_model, al_tree::proofs::ExpressionsMade::part_attribute_model, al_tree::proofs::ExpressionsMade::part_range_attribute_model, al_tree::proofs::ExpressionsMade::part_operand_model))]
fn link<'a>(
    alloc: Global,
    standard: &StandardTypes,
    names: &Names,
    part: &'a NamePart,
) -> Result<Link<'a>, NoMemory>
    ensures { IfOk result (λ link. (name : NotedTree) → linked (denoted names.now) link name ≡ with_part (denoted names.now) (part_model part.now) name) }
{
    match part {
        NamePart::Selector(identifier) => Ok(Link::Selector(identifier)),
        NamePart::Arguments(opening, first, others) => {
            let first = term_of(alloc, standard, names, first)?;
            match others.as_slice() {
                [] => Ok(Link::Argument(*opening, first)),
                [_, ..] => {
                    let all = several(alloc, standard, names, others, first)?;
                    Ok(Link::Arguments(*opening, all))
                }
            }
        }
        NamePart::Attribute(identifier) => Ok(Link::Attribute(identifier)),
        NamePart::RangeAttribute => Ok(Link::RangeAttribute),
        NamePart::Operand(group) => {
            let operand = group_term(alloc, standard, names, group)?;
            Ok(Link::Operand(group_place(group), operand))
        }
    }
}

/// The term of what is in parentheses.
#[cycle(text)]
#[tactic(auto, using(crate::proofs::ReadLemmas::sole_group, crate::proofs::ReadLemmas::aggregate_group, crate::proofs::ReadLemmas::others_group, al_tree::proofs::ExpressionsMade::group_positional_model, al_tree::proofs::ExpressionsMade::group_others_aggregate_model))]
fn group_term(
    alloc: Global,
    standard: &StandardTypes,
    names: &Names,
    group: &Group,
) -> Result<CheckResult<Term>, NoMemory>
    ensures { IfOk result (λ checked. map_ok term_model checked ≡ group_term (denoted names.now) (group_model group.now)) }
{
    match group {
        Group::Positional(opening, first, others) => {
            match others.as_slice() {
                [] => {
                    let first = term_of(alloc, standard, names, first)?;
                    grouped(alloc, *opening, first)
                }
                [_, ..] => {
                    let first = term_of(alloc, standard, names, first)?;
                    let all = several(alloc, standard, names, others, first)?;
                    Ok(aggregated(*opening, all))
                }
            }
        }
        Group::OthersAggregate(opening, value) => {
            let value = term_of(alloc, standard, names, value)?;
            repeated(alloc, *opening, value)
        }
    }
}

/// Several terms: the first and others.
#[cycle(text)]
#[tactic(auto, using(crate::proofs::ReadLemmas::none_more, crate::proofs::ReadLemmas::more_read))]
fn several(
    alloc: Global,
    standard: &StandardTypes,
    names: &Names,
    others: &[Expression],
    first: CheckResult<Term>,
) -> Result<CheckResult<Vec<Term>>, NoMemory>
    ensures { IfOk result (λ checked. map_ok all_model checked ≡ read_more (denoted names.now) (started (map_ok term_model first)) (expressions_of (map expression_model others.now))) }
{
    let mut done = started(alloc, first)?;
    for next in others {
        let term = term_of(alloc, standard, names, next);
        let (before, term) = together(Ok(done), term)?;
        done = added(before, term)?;
    }
    Ok(done)
}

/// The term of a whole expression. A chain of operators is processed by a loop, so that it takes no more of the stack than one operator
/// does.
/// # Errors
/// `NoMemory` if the allocator refuses memory. The inner error is E401 or E404 at the first of its names that isn't visible or isn't of the
/// right kind.
#[cycle(text)]
pub fn term_of(
    alloc: Global,
    standard: &StandardTypes,
    names: &Names,
    expression: &Expression,
) -> Result<CheckResult<Term>, NoMemory>
    ensures { IfOk result (λ checked. map_ok term_model checked ≡ term_of (denoted names.now) (expression_model expression.now)) }
{
    let mut joints = Vec::new(alloc);
    let mut rest = expression;
    while let Expression::Infix(infix) = rest {
        let right = term_of(alloc, standard, names, &infix.right)?;
        joints.push(Joint {
            operator: infix.operator,
            right,
        })?;
        rest = &infix.left;
    }
    let first = read(alloc, standard, names, rest)?;
    chained(alloc, names, joints, as_value(first))
}

/// The subtype that a mark names.
/// # Errors
/// `NoMemory` if the allocator refuses memory. The inner error is E401 or E404 of a name in it; E404 at its first token if it is no mark.
#[tactic(auto, unfolding(crate::specs::Texts::mark_of_text))]
pub fn mark_of_text(
    alloc: Global,
    standard: &StandardTypes,
    names: &Names,
    expression: &Expression,
) -> Result<CheckResult<SubtypeView>, NoMemory>
    ensures { IfOk result (λ mark. mark ≡ mark_of_text (denoted names.now) (expression_model expression.now)) }
{
    let checked = read(alloc, standard, names, expression)?;
    match as_mark(alloc, checked)? {
        Ok((_, subtype)) => Ok(Ok(subtype)),
        Err(fault) => Ok(Err(fault)),
    }
}
