// Operators with the types of their operands and results.
ghost use Rattle.std.specs.Prelude.{◌≡◌, IfOk, option_map};
ghost use Rattle.std.specs.Option.{option_copied};
ghost use Rattle.al_overload.specs.Counts.{label_of};
ghost use Rattle.al_base_fault.specs.Judging.{map_ok};
ghost use Rattle.al_view_typed.specs.ExpressionTrees.{FormTree as form_trees};
ghost use Rattle.al_view_typed.specs.ExpressionViews.{form_model, typed_model};
ghost use Rattle.al_overload_nodes.specs.Operators.{binary_form, binary_node, binary_profile, binary_signature, by_words, is_relation, operator_on, picked_subprogram, root_result, root_right, short_circuit_form, short_circuit_node, signature, subprogram_in, unary_node, unary_profile, unary_signature};
ghost use Rattle.al_overload_nodes.specs.Views.{pair_model, reading_model};

use crate::labeller::Labeller;
use crate::node::Reading;
use al_base::{NoMemory, Place};
use al_base_fault::{CheckResult, both};
use al_overload::{Labelled, Predefined, is_root_in, is_scalar_type, number_in, pick};
use al_static::Known;
use al_view::{SubprogramView, Symbol, Types, View, ViewKind};
use al_view_predefined::StandardTypes;
use al_view_typed::{BinaryOperator, Form, ShortCircuit, Typed, UnaryOperator};
use std::alloc::Global;

/// The types of an operator's operands and of its result, which are among these types. An operator with one operand has the same type for
/// both.
#[derive(Drop)]
pub struct Signature<'a> {
    /// The type of the left operand.
    pub left: &'a Symbol,
    /// The type of the right operand.
    pub right: &'a Symbol,
    /// The type of the result.
    pub result_type: &'a Symbol,
    /// The types among which these are.
    pub types: &'a Types,
}

/// Whether an operator compares.
fn is_relation(operator: BinaryOperator) -> bool
    ensures { result ≡ is_relation operator }
{
    match operator {
        BinaryOperator::Equal => true,
        BinaryOperator::NotEqual => true,
        BinaryOperator::Less => true,
        BinaryOperator::LessOrEqual => true,
        BinaryOperator::Greater => true,
        BinaryOperator::GreaterOrEqual => true,
        BinaryOperator::And => false,
        BinaryOperator::Or => false,
        BinaryOperator::Xor => false,
        BinaryOperator::Plus => false,
        BinaryOperator::Minus => false,
        BinaryOperator::Times => false,
        BinaryOperator::Divide => false,
        BinaryOperator::Mod => false,
        BinaryOperator::Rem => false,
        BinaryOperator::Power => false,
        BinaryOperator::SameWords => true,
        BinaryOperator::OtherWords => true,
    }
}

/// The right operand's type of an operator of the root type: an exponent is an Integer.
fn root_right(predefined: &Predefined, operator: BinaryOperator) -> &Symbol
    ensures { result.now ≡ root_right predefined.now operator }
{
    match operator {
        BinaryOperator::Power => &predefined.types.integer.symbol,
        _ => &predefined.root,
    }
}

/// The result type of an operator of the root type: Boolean for a relation, else the root type.
pub fn root_result(predefined: &Predefined, operator: BinaryOperator) -> &Symbol
    ensures { result.now ≡ root_result predefined.now operator }
{
    if is_relation(operator) {
        &predefined.types.boolean.symbol
    } else {
        &predefined.root
    }
}

fn subprogram_in(view: &ViewKind, _candidate: usize) -> Option<&SubprogramView>
    ensures { option_copied result ≡ subprogram_in (view.now, _candidate) }
{
    match view {
        ViewKind::OfSubprogram(subprogram) => Some(subprogram),
        ViewKind::OfObject(_) => None,
        ViewKind::OfNumber(_) => None,
        ViewKind::OfLiteral(_) => None,
        ViewKind::OfComponent => None,
        ViewKind::OfType(_) => None,
        ViewKind::OfSubtype(_) => None,
        ViewKind::OfTask(_) => None,
        ViewKind::OfProtected(_) => None,
        ViewKind::OfPackage(_) => None,
    }
}

/// The subprogram whose candidate is meant.
pub fn picked_subprogram<'a>(
    standard: &StandardTypes,
    visible: &'a [View],
    label: &Labelled,
) -> Option<&'a SubprogramView>
    ensures { option_copied result ≡ picked_subprogram visible.now (label_of label.now) }
{
    let (view, candidate) = pick(standard, number_in(label), visible)?;
    subprogram_in(view, candidate)
}

fn unary_profile(subprogram: &SubprogramView) -> Option<Signature<'_>>
    ensures { option_map (λ s. signature s.left.now s.right.now s.result_type.now s.types.now) result ≡ unary_profile subprogram.now }
{
    match (
        subprogram.profile.parameters.as_slice(),
        &subprogram.profile.result,
    ) {
        ([operand], Some(of)) => Some(Signature {
            left: &operand.subtype.base,
            right: &operand.subtype.base,
            result_type: &of.base,
            types: &subprogram.types,
        }),
        _ => None,
    }
}

fn binary_profile(subprogram: &SubprogramView) -> Option<Signature<'_>>
    ensures { option_map (λ s. signature s.left.now s.right.now s.result_type.now s.types.now) result ≡ binary_profile subprogram.now }
{
    match (
        subprogram.profile.parameters.as_slice(),
        &subprogram.profile.result,
    ) {
        ([left, right], Some(of)) => Some(Signature {
            left: &left.subtype.base,
            right: &right.subtype.base,
            result_type: &of.base,
            types: &subprogram.types,
        }),
        _ => None,
    }
}

/// The operator on values of a type: equality of what isn't seen to be scalar compares all words.
fn operator_on(is_scalar: bool, operator: BinaryOperator) -> BinaryOperator
    ensures { result ≡ operator_on is_scalar operator }
{
    if is_scalar {
        return operator;
    }
    match operator {
        BinaryOperator::Equal => BinaryOperator::SameWords,
        BinaryOperator::NotEqual => BinaryOperator::OtherWords,
        operator => operator,
    }
}

fn unary_form(
    alloc: Global,
    operator: UnaryOperator,
    operand: CheckResult<Typed>,
) -> Result<CheckResult<Form>, NoMemory>
    ensures { IfOk result (λ form. map_ok form_model form ≡ map_ok (form_trees.UnaryForm operator) (map_ok typed_model operand)) }
{
    match operand {
        Ok(operand) => {
            let form = Form::unary(alloc, operator, operand)?;
            Ok(Ok(form))
        }
        Err(fault) => Ok(Err(fault)),
    }
}

fn binary_form(
    alloc: Global,
    operator: BinaryOperator,
    operands: CheckResult<(Typed, Typed)>,
) -> Result<CheckResult<Form>, NoMemory>
    ensures { IfOk result (λ form. map_ok form_model form ≡ map_ok (binary_form operator) (map_ok pair_model operands)) }
{
    match operands {
        Ok((left, right)) => {
            let form = Form::binary(alloc, operator, left, right)?;
            Ok(Ok(form))
        }
        Err(fault) => Ok(Err(fault)),
    }
}

fn short_circuit_form(
    alloc: Global,
    form: ShortCircuit,
    operands: CheckResult<(Typed, Typed)>,
) -> Result<CheckResult<Form>, NoMemory>
    ensures { IfOk result (λ made. map_ok form_model made ≡ map_ok (short_circuit_form form) (map_ok pair_model operands)) }
{
    match operands {
        Ok((left, right)) => {
            let form = Form::short_circuit(alloc, form, left, right)?;
            Ok(Ok(form))
        }
        Err(fault) => Ok(Err(fault)),
    }
}

impl Labeller {
    /// The types of a prefix operator. If the operand is a number alone, it has the type that is wanted of it; else it is one of the root
    /// type, or one that is visible.
    pub fn unary_signature<'a>(
        &'a self,
        visible: &'a [View],
        of_numbers: bool,
        label: &Labelled,
        types: &'a Types,
        at: &'a Symbol,
    ) -> Option<Signature<'a>>
        ensures { option_map (λ s. signature s.left.now s.right.now s.result_type.now s.types.now) result ≡ unary_signature self.now.predefined visible.now of_numbers (label_of label.now) types.now at.now }
    {
        if of_numbers {
            return Some(Signature {
                left: at,
                right: at,
                result_type: at,
                types,
            });
        }
        if is_root_in(label) {
            let root = &self.predefined.root;
            return Some(Signature {
                left: root,
                right: root,
                result_type: root,
                types,
            });
        }
        match picked_subprogram(&self.predefined.standard, visible, label) {
            Some(subprogram) => unary_profile(subprogram),
            None => None,
        }
    }

    /// The types of an operator with two operands. If both are numbers alone, it has the type that is wanted of it; else it is one of the
    /// root type, or one that is visible.
    pub fn binary_signature<'a>(
        &'a self,
        operator: BinaryOperator,
        visible: &'a [View],
        of_numbers: bool,
        label: &Labelled,
        types: &'a Types,
        at: &'a Symbol,
    ) -> Option<Signature<'a>>
        ensures { option_map (λ s. signature s.left.now s.right.now s.result_type.now s.types.now) result ≡ binary_signature self.now.predefined operator visible.now of_numbers (label_of label.now) types.now at.now }
    {
        if of_numbers {
            return Some(Signature {
                left: at,
                right: at,
                result_type: at,
                types,
            });
        }
        if is_root_in(label) {
            return Some(Signature {
                left: &self.predefined.root,
                right: root_right(&self.predefined, operator),
                result_type: root_result(&self.predefined, operator),
                types,
            });
        }
        match picked_subprogram(&self.predefined.standard, visible, label) {
            Some(subprogram) => binary_profile(subprogram),
            None => None,
        }
    }

    /// `operator operand`.
    /// # Errors
    /// `NoMemory` if the allocator refuses memory.
    pub fn unary(
        &self,
        place: Place,
        operator: UnaryOperator,
        of: &Signature<'_>,
        operand: Reading,
    ) -> Result<Reading, NoMemory>
        ensures { IfOk result (λ r. reading_model r ≡ unary_node self.now.predefined.root place operator (signature of.now.left.now of.now.right.now of.now.result_type.now of.now.types.now) (reading_model operand)) }
    {
        let known = Known::unary(place, operator, operand.known);
        let form = unary_form(self.alloc, operator, operand.typed)?;
        self.node(place, of.types, of.result_type, None, known, form)
    }

    /// `left operator right`.
    /// # Errors
    /// `NoMemory` if the allocator refuses memory.
    pub fn binary(
        &self,
        place: Place,
        operator: BinaryOperator,
        of: &Signature<'_>,
        left: Reading,
        right: Reading,
    ) -> Result<Reading, NoMemory>
        ensures { IfOk result (λ r. reading_model r ≡ binary_node self.now.predefined.root place operator (signature of.now.left.now of.now.right.now of.now.result_type.now of.now.types.now) (reading_model left) (reading_model right)) }
    {
        let is_scalar = is_scalar_type(&self.predefined.standard, of.types, of.left);
        let operator = operator_on(is_scalar, operator);
        let known = Known::binary(place, operator, left.known, right.known);
        let form = binary_form(self.alloc, operator, both(left.typed, right.typed))?;
        self.node(place, of.types, of.result_type, None, known, form)
    }

    /// `left and then right` or `left or else right`.
    /// # Errors
    /// `NoMemory` if the allocator refuses memory.
    pub fn short_circuit(
        &self,
        place: Place,
        types: &Types,
        form: ShortCircuit,
        left: Reading,
        right: Reading,
    ) -> Result<Reading, NoMemory>
        ensures { IfOk result (λ r. reading_model r ≡ short_circuit_node self.now.predefined.root place types.now self.now.predefined.types.boolean.symbol form (reading_model left) (reading_model right)) }
    {
        let known = Known::short_circuit(place, form, left.known, right.known);
        let form = short_circuit_form(self.alloc, form, both(left.typed, right.typed))?;
        let boolean = &self.predefined.types.boolean.symbol;
        self.node(place, types, boolean, None, known, form)
    }
}
