// The names and signs in an expression, in source order.
ghost use Rattle.std.specs.Prelude.{◌≡◌, ◌++◌, IfOk, OnOk, Some, false, map, option_map};
ghost use Rattle.std.specs.Option.{option_copied};
ghost use Rattle.al_overload_lookup.specs.Keys.{dotted, key_of};
ghost use Rattle.al_overload_lookup.specs.Chains.{last_part_key, last_part_names, leans, operation_names, test_names};
ghost use Rattle.al_overload_lookup.specs.Pieces.{front, last_key, names_of};
ghost use Rattle.al_overload_lookup.specs.TextNames.{all_names, group_names, names_in, selected_names, sign_names};
ghost use Rattle.al_tree.specs.ExpressionViews.{expression_model, expressions_of, group_model, prefixed_model};

use crate::chain::{Chain, Link, chain_of};
use crate::piece::Piece;
use crate::sign::{operator_sign, prefix_sign};
use al_base::{Name, NoMemory};
use al_tree::{Expression, Group, Infix, Longer, Member, NamePart, Prefixed};
use std::alloc::Global;

#[tactic(auto, using(crate::proofs::Pieced::alone_names, crate::proofs::Pieced::alone_key))]
fn add_simple(alloc: Global, found: &mut Vec<Piece>, name: &[u8]) -> Result<(), NoMemory>
    ensures names { OnOk result (names_of found.new.items ≡ names_of found.old.items ++ sign_names (Some name.now)) }
    ensures key { OnOk result (last_key found.new.items ≡ name.now) }
{
    let name = Name::from_slice(alloc, name)?;
    found.push(Piece::Alone(name))?;
    Ok(())
}

fn add_sign(alloc: Global, found: &mut Vec<Piece>, sign: Option<&[u8]>) -> Result<(), NoMemory>
    ensures { OnOk result (names_of found.new.items ≡ names_of found.old.items ++ sign_names (option_copied sign.entry)) }
{
    match sign {
        Some(sign) => add_simple(alloc, found, sign),
        None => Ok(()),
    }
}

/// Adds a selector after a name.
#[tactic(auto, using(crate::proofs::Pieced::after_names, crate::proofs::Pieced::after_key))]
fn add_after(alloc: Global, found: &mut Vec<Piece>, name: &[u8]) -> Result<(), NoMemory>
    ensures names { OnOk result (names_of found.new.items ≡ names_of found.old.items ++ selected_names (Some (last_key found.old.items)) name.now) }
    ensures key { OnOk result (last_key found.new.items ≡ dotted (last_key found.old.items) name.now) }
{
    let name = Name::from_slice(alloc, name)?;
    found.push(Piece::After(name))?;
    Ok(())
}

/// Adds a selector after what may be a name.
fn add_selected(
    alloc: Global,
    found: &mut Vec<Piece>,
    named: bool,
    name: &[u8],
) -> Result<(), NoMemory>
    ensures names { OnOk result (names_of found.new.items ≡ names_of found.old.items ++ selected_names (front named found.old.items) name.now) }
    ensures key { OnOk result (front named found.new.items ≡ option_map (λ k. dotted k name.now) (front named found.old.items)) }
{
    if named {
        return add_after(alloc, found, name);
    }
    Ok(())
}

/// Adds the names and signs of an expression to those found. Left operands and prefixes are processed by a loop, so that they take no
/// stack.
#[cycle(text)]
#[tactic(auto, using(std::proofs::Common::append_assoc))]
fn add_names(alloc: Global, found: &mut Vec<Piece>, expression: &Expression) -> Result<(), NoMemory>
    ensures { OnOk result (names_of found.new.items ≡ names_of found.old.items ++ names_in (expression_model expression.now)) }
{
    let Chain { first, mut links } = chain_of(alloc, expression)?;
    let is_name = add_first(alloc, found, first)?;
    let mut named = is_name;
    while let Some(link) = links.pop() {
        match link {
            Link::Part(longer) => {
                let still = add_part(alloc, found, named, longer)?;
                named = still;
            }
            Link::Operator(operation) => {
                add_operation(alloc, found, operation)?;
                named = false;
            }
            Link::Test(member) => {
                add_test(alloc, found, member)?;
                named = false;
            }
        }
    }
    Ok(())
}

/// Adds the names and signs of what begins with no operand or name. The result is whether it is a name.
#[cycle(text)]
#[tactic(auto, using(std::proofs::Common::append_assoc, crate::proofs::NameKeys::prefixed_key, crate::proofs::Found::numeric_adds, crate::proofs::Found::literal_adds, crate::proofs::Found::number_names, crate::proofs::Found::text_names, crate::proofs::Found::name_names, crate::proofs::Found::group_in, crate::proofs::Chained::longer_leans, crate::proofs::Chained::infix_leans, crate::proofs::Chained::member_leans, al_tree::proofs::ExpressionsMade::expression_numeric_model, al_tree::proofs::ExpressionsMade::expression_text_model, al_tree::proofs::ExpressionsMade::expression_name_model, al_tree::proofs::ExpressionsMade::expression_longer_model, al_tree::proofs::ExpressionsMade::expression_prefixed_model, al_tree::proofs::ExpressionsMade::expression_infix_model, al_tree::proofs::ExpressionsMade::expression_member_model, al_tree::proofs::ExpressionsMade::expression_group_model))]
fn add_first(
    alloc: Global,
    found: &mut Vec<Piece>,
    expression: &Expression,
) -> Result<bool, NoMemory>
    ensures names { leans (expression_model expression.now) ≡ false → OnOk result (names_of found.new.items ≡ names_of found.old.items ++ names_in (expression_model expression.now)) }
    ensures key { leans (expression_model expression.now) ≡ false → IfOk result (λ named. front named found.new.items ≡ key_of (expression_model expression.now)) }
{
    match expression {
        Expression::Numeric(_) => Ok(false),
        Expression::Text(_) => Ok(false),
        Expression::Name(identifier) => {
            add_simple(alloc, found, identifier.name.as_slice())?;
            Ok(true)
        }
        Expression::Prefixed(prefixed) => {
            add_prefixed(alloc, found, prefixed)?;
            Ok(false)
        }
        Expression::Group(group) => {
            add_group(alloc, found, group)?;
            Ok(false)
        }
        Expression::Longer(_) => Ok(false),
        Expression::Infix(_) => Ok(false),
        Expression::Member(_) => Ok(false),
    }
}

#[cycle(text)]
#[tactic(auto, using(std::proofs::Common::append_assoc, crate::proofs::Found::prefixed_names))]
fn add_prefixed(alloc: Global, found: &mut Vec<Piece>, prefixed: &Prefixed) -> Result<(), NoMemory>
    ensures { OnOk result (names_of found.new.items ≡ names_of found.old.items ++ names_in (prefixed_model prefixed.now)) }
{
    add_simple(alloc, found, prefix_sign(&prefixed.operator))?;
    add_names(alloc, found, &prefixed.operand)
}

/// Adds the names and signs of an operator and its right operand.
#[cycle(text)]
#[tactic(auto, using(std::proofs::Common::append_assoc))]
fn add_operation(alloc: Global, found: &mut Vec<Piece>, operation: &Infix) -> Result<(), NoMemory>
    ensures { OnOk result (names_of found.new.items ≡ names_of found.old.items ++ operation_names operation.now) }
{
    add_sign(alloc, found, operator_sign(&operation.operator))?;
    add_names(alloc, found, &operation.right)
}

/// Adds the names and signs of what a value is tested against.
#[cycle(text)]
#[tactic(auto, using(std::proofs::Common::append_assoc))]
fn add_test(alloc: Global, found: &mut Vec<Piece>, member: &Member) -> Result<(), NoMemory>
    ensures { OnOk result (names_of found.new.items ≡ names_of found.old.items ++ test_names member.now) }
{
    add_names(alloc, found, &member.low)?;
    match &member.high {
        None => Ok(()),
        Some(high) => {
            add_names(alloc, found, high)?;
            Ok(())
        }
    }
}

/// Adds the names and signs of what comes after what may be a name. The result is whether it is a name with that.
#[cycle(text)]
#[tactic(auto, using(std::proofs::Common::append_assoc, crate::proofs::Found::attribute_adds, crate::proofs::Found::range_adds, crate::proofs::Found::selector_names, crate::proofs::Found::argument_names, crate::proofs::Found::attribute_names, crate::proofs::Found::range_names, crate::proofs::Found::operand_names, al_tree::proofs::ExpressionsMade::part_selector_model, al_tree::proofs::ExpressionsMade::part_arguments_model, al_tree::proofs::ExpressionsMade::part_attribute_model, al_tree::proofs::ExpressionsMade::part_range_attribute_model, al_tree::proofs::ExpressionsMade::part_operand_model))]
fn add_part(
    alloc: Global,
    found: &mut Vec<Piece>,
    named: bool,
    longer: &Longer,
) -> Result<bool, NoMemory>
    ensures names { OnOk result (names_of found.new.items ≡ names_of found.old.items ++ last_part_names (front named found.old.items) longer.now) }
    ensures key { IfOk result (λ still. front still found.new.items ≡ last_part_key (front named found.old.items) longer.now) }
{
    match &longer.part {
        NamePart::Selector(identifier) => {
            add_selected(alloc, found, named, identifier.name.as_slice())?;
            Ok(named)
        }
        NamePart::Arguments(_, first, others) => {
            add_names(alloc, found, first)?;
            add_all(alloc, found, others)?;
            Ok(false)
        }
        NamePart::Attribute(_) => Ok(false),
        NamePart::RangeAttribute => Ok(false),
        NamePart::Operand(group) => {
            add_group(alloc, found, group)?;
            Ok(false)
        }
    }
}

#[cycle(text)]
#[tactic(auto, using(std::proofs::Common::append_assoc, crate::proofs::Found::positional_names, crate::proofs::Found::others_names, al_tree::proofs::ExpressionsMade::group_positional_model, al_tree::proofs::ExpressionsMade::group_others_aggregate_model))]
fn add_group(alloc: Global, found: &mut Vec<Piece>, group: &Group) -> Result<(), NoMemory>
    ensures { OnOk result (names_of found.new.items ≡ names_of found.old.items ++ group_names (group_model group.now)) }
{
    match group {
        Group::Positional(_, first, others) => {
            add_names(alloc, found, first)?;
            add_all(alloc, found, others)
        }
        Group::OthersAggregate(_, value) => add_names(alloc, found, value),
    }
}

#[cycle(text)]
fn add_all(
    alloc: Global,
    found: &mut Vec<Piece>,
    expressions: &[Expression],
) -> Result<(), NoMemory>
    ensures { OnOk result (names_of found.new.items ≡ names_of found.old.items ++ all_names (expressions_of (map expression_model expressions.now))) }
{
    for expression in expressions {
        add_names(alloc, found, expression)?;
    }
    Ok(())
}

/// The names and signs in an expression, in source order, by their parts.
#[tactic(auto, using(crate::proofs::Pieced::no_names))]
pub(crate) fn pieces_in(alloc: Global, expression: &Expression) -> Result<Vec<Piece>, NoMemory>
    ensures { IfOk result (λ pieces. names_of pieces.items ≡ names_in (expression_model expression.now)) }
{
    let mut found = Vec::new(alloc);
    add_names(alloc, &mut found, expression)?;
    Ok(found)
}
