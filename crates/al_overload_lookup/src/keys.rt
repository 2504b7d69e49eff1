// Names in expressions (ARM 4.1.3).
ghost use Rattle.std.specs.Prelude.{◌≡◌, IfOk, OnOk, Some, map, option_map};
ghost use Rattle.al_overload_lookup.specs.Endings.{IsBelow, IsBelowName, all_selected, ended_key};
ghost use Rattle.al_overload_lookup.specs.Keys.{dotted, is_none, key_of, not_visible};
ghost use Rattle.al_tree.specs.ExpressionViews.{expression_model, longer_model};
ghost use Rattle.al_tree.specs.Lexemes.{identifier_label};

use al_base::NoMemory;
use al_base_fault::{CheckRule, Fault};
use al_tree::{Expression, Identifier, Longer, NamePart};
use al_view::View;
use std::alloc::Global;

/// Appends a dot and a name to the key.
fn select(key: &mut Vec<u8>, name: &[u8]) -> Result<(), NoMemory>
    ensures { OnOk result (key.new.items ≡ dotted key.old.items name.now) }
{
    key.push(b'.')?;
    key.extend_from_slice(name)?;
    Ok(())
}

/// A name that is selected in another one, as a key.
/// # Errors
/// `NoMemory` if the allocator refuses memory.
pub fn dotted(alloc: Global, prefix: &[u8], name: &[u8]) -> Result<Vec<u8>, NoMemory>
    ensures { IfOk result (λ key. key.items ≡ dotted prefix.now name.now) }
{
    let mut key = Vec::from_slice(alloc, prefix)?;
    select(&mut key, name)?;
    Ok(key)
}

/// How an expression ends.
#[derive(Drop)]
pub(crate) enum Ending<'a> {
    /// A selector, and what comes before it.
    Selector(&'a Expression, &'a Identifier),
    Identifier(&'a Identifier),
    /// The expression is no name.
    Other,
}

/// A name, longer by its last part.
#[tactic(auto, using(crate::proofs::NameKeys::longer_key, al_tree::proofs::ExpressionsMade::part_selector_model, al_tree::proofs::ExpressionsMade::part_arguments_model, al_tree::proofs::ExpressionsMade::part_attribute_model, al_tree::proofs::ExpressionsMade::part_range_attribute_model, al_tree::proofs::ExpressionsMade::part_operand_model))]
fn longer_ending(longer: &Longer) -> Ending<'_>
    ensures key { ended_key result ≡ key_of (longer_model longer.now) }
    ensures below { IsBelowName longer.now result }
{
    match &longer.part {
        NamePart::Selector(identifier) => Ending::Selector(&longer.prefix, identifier),
        NamePart::Arguments(_, _, _) => Ending::Other,
        NamePart::Attribute(_) => Ending::Other,
        NamePart::RangeAttribute => Ending::Other,
        NamePart::Operand(_) => Ending::Other,
    }
}

#[tactic(auto, using(crate::proofs::NameKeys::prefixed_key, crate::proofs::NameKeys::infix_key, crate::proofs::NameKeys::member_key, al_tree::proofs::ExpressionsMade::expression_numeric_model, al_tree::proofs::ExpressionsMade::expression_text_model, al_tree::proofs::ExpressionsMade::expression_name_model, al_tree::proofs::ExpressionsMade::expression_longer_model, al_tree::proofs::ExpressionsMade::expression_prefixed_model, al_tree::proofs::ExpressionsMade::expression_infix_model, al_tree::proofs::ExpressionsMade::expression_member_model, al_tree::proofs::ExpressionsMade::expression_group_model))]
fn ending_of(expression: &Expression) -> Ending<'_>
    ensures key { ended_key result ≡ key_of (expression_model expression.now) }
    ensures below { IsBelow expression.now result }
{
    match expression {
        Expression::Name(identifier) => Ending::Identifier(identifier),
        Expression::Longer(longer) => longer_ending(longer),
        Expression::Numeric(_) => Ending::Other,
        Expression::Text(_) => Ending::Other,
        Expression::Prefixed(_) => Ending::Other,
        Expression::Infix(_) => Ending::Other,
        Expression::Member(_) => Ending::Other,
        Expression::Group(_) => Ending::Other,
    }
}

/// An identifier with these selectors, in reverse order.
fn selected_in(
    alloc: Global,
    identifier: &Identifier,
    selectors: Vec<&Identifier>,
) -> Result<Vec<u8>, NoMemory>
    ensures { IfOk result (λ key. all_selected (map (λ s. s.now) selectors.entry.items) (Some (identifier_label identifier.now).text) ≡ Some key.items) }
{
    let mut selectors = selectors;
    let mut key = Vec::from_slice(alloc, identifier.name.as_slice())?;
    while let Some(selector) = selectors.pop() {
        select(&mut key, selector.name.as_slice())?;
    }
    Ok(key)
}

/// The name that an expression is, if it is one. Its selectors are processed by a loop, so that they take no stack.
/// # Errors
/// `NoMemory` if the allocator refuses memory.
#[tactic(auto, using(crate::proofs::NameKeys::none_selected))]
pub fn key_of(alloc: Global, expression: &Expression) -> Result<Option<Vec<u8>>, NoMemory>
    ensures { IfOk result (λ key. option_map (λ k. k.items) key ≡ key_of (expression_model expression.now)) }
{
    let mut selectors = Vec::new(alloc);
    let mut rest = expression;
    loop {
        match ending_of(rest) {
            Ending::Selector(prefix, selector) => {
                selectors.push(selector)?;
                rest = prefix;
            }
            Ending::Identifier(identifier) => {
                let key = selected_in(alloc, identifier, selectors)?;
                return Ok(Some(key));
            }
            Ending::Other => return Ok(None),
        }
    }
}

/// E401 at an identifier.
pub fn not_visible(identifier: &Identifier) -> Fault
    ensures { result ≡ not_visible (identifier_label identifier.now) }
{
    Fault {
        place: identifier.place,
        rule: CheckRule::NotVisible,
    }
}

/// Whether nothing is visible.
pub fn is_none(views: &[View]) -> bool
    ensures { result ≡ is_none views.now }
{
    match views {
        [] => true,
        [_, ..] => false,
    }
}
