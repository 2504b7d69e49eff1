// Labelled trees with what is known of their values, and how they are put together.
ghost use Rattle.std.specs.Prelude.{◌≡◌, IfOk};
ghost use Rattle.al_base_fault.specs.Judging.{map_ok};
ghost use Rattle.al_view_typed.specs.ExpressionTrees.{TypedTree as typed_trees};
ghost use Rattle.al_view_typed.specs.ExpressionViews.{form_model, typed_model};
ghost use Rattle.al_overload.specs.Meanings.{nothing_fits};
ghost use Rattle.al_overload_nodes.specs.Nodes.{conversion_node, converted_form, expression_type, faulty, grouped, grouped_tree, checked, labels_for, literal, membership_form, membership_node, misfit, node, regrouped, value_in};
ghost use Rattle.al_overload_nodes.specs.Views.{pair_model, reading_model, three_model};

use crate::labeller::Labeller;
use al_base::{NoMemory, Place};
use al_base_fault::{CheckResult, Fault, both, unless};
use al_overload::{nothing_fits, words_in};
use al_static::Known;
use al_view::{Bounds, StaticValue, Symbol, Types};
use al_view_typed::{CheckedValue, Conversion, ExpressionType, Form, Labels, Typed};
use std::alloc::Global;

/// A type; the root type of all integer types has no declaration.
fn expression_type(alloc: Global, root: &Symbol, of: &Symbol) -> Result<ExpressionType, NoMemory>
    ensures { IfOk result (λ t. t ≡ expression_type root.now of.now) }
{
    if of.is(root) {
        return Ok(ExpressionType::RootInteger);
    }
    let symbol = of.copy(alloc)?;
    Ok(ExpressionType::Declared(symbol))
}

/// What a term is with its labelling.
#[derive(Drop)]
pub struct Reading {
    /// What is known of its value.
    pub known: Known,
    /// Its labelled tree, or the first fault in it that isn't a static failure.
    pub typed: CheckResult<Typed>,
}

fn value_in(known: Known) -> Option<StaticValue>
    ensures { result ≡ value_in known }
{
    match known {
        Known::Value(value) => Some(value),
        Known::Fails(_) => None,
        Known::Open(_) => None,
    }
}

/// A reading of what has a fault in a context inside it.
pub fn faulty(fault: Fault) -> Reading
    ensures { reading_model result ≡ faulty fault }
{
    Reading {
        known: Known::Open(None),
        typed: Err(fault),
    }
}

/// A reading of what its labelling doesn't fit.
pub fn misfit(place: Place) -> Reading
    ensures { reading_model result ≡ misfit place }
{
    faulty(nothing_fits(place))
}

/// An expression with these labels.
fn labelled(labels: Labels, form: CheckResult<Form>) -> CheckResult<Typed>
    ensures { map_ok typed_model result ≡ map_ok (typed_trees.Labelled labels) (map_ok form_model form) }
{
    match form {
        Ok(form) => Ok(Typed::new(labels, form)),
        Err(fault) => Err(fault),
    }
}

fn converted_form(
    alloc: Global,
    conversion: Conversion,
    check: Option<Bounds>,
    operand: CheckResult<Typed>,
) -> Result<CheckResult<Form>, NoMemory>
    ensures { IfOk result (λ form. map_ok form_model form ≡ map_ok (converted_form conversion check) (map_ok typed_model operand)) }
{
    match operand {
        Ok(operand) => {
            let form = Form::converted(alloc, conversion, CheckedValue::new(operand, check))?;
            Ok(Ok(form))
        }
        Err(fault) => Ok(Err(fault)),
    }
}

fn membership_form(
    alloc: Global,
    is_negated: bool,
    operands: CheckResult<(Typed, (Typed, Typed))>,
) -> Result<CheckResult<Form>, NoMemory>
    ensures { IfOk result (λ form. map_ok form_model form ≡ map_ok (membership_form is_negated) (map_ok three_model operands)) }
{
    match operands {
        Ok((value, (low, high))) => {
            let form = Form::membership(alloc, value, is_negated, low, high, 0)?;
            Ok(Ok(form))
        }
        Err(fault) => Ok(Err(fault)),
    }
}

fn regrouped(place: Place, known: Known) -> Known
    ensures { result ≡ regrouped place known }
{
    match known {
        Known::Value(value) => Known::Value(value),
        Known::Fails(_) => Known::Fails(place),
        Known::Open(fault) => Known::Open(fault),
    }
}

/// The expression in parentheses.
fn grouped_tree(place: Place, typed: Typed) -> Typed
    ensures { typed_model result ≡ grouped_tree place (typed_model typed) }
{
    let Typed { labels, form } = typed;
    let labels = Labels {
        place,
        of: labels.of,
        bounds: None,
        words: labels.words,
        value: labels.value,
    };
    Typed::new(labels, form)
}

fn grouped_typed(place: Place, typed: CheckResult<Typed>) -> CheckResult<Typed>
    ensures { map_ok typed_model result ≡ map_ok (grouped_tree place) (map_ok typed_model typed) }
{
    match typed {
        Ok(typed) => Ok(grouped_tree(place, typed)),
        Err(fault) => Err(fault),
    }
}

/// What is in parentheses begins with the left one, and is no name of an object.
pub fn grouped(place: Place, inner: Reading) -> Reading
    ensures { reading_model result ≡ grouped place (reading_model inner) }
{
    Reading {
        known: regrouped(place, inner.known),
        typed: grouped_typed(place, inner.typed),
    }
}

/// The labelled tree of an expression that is evaluated by itself.
/// # Errors
/// The fault of the reading, or E405 at the first token of a static expression that has no value, whichever is first.
pub fn checked(reading: Reading) -> CheckResult<Typed>
    ensures { map_ok typed_model result ≡ checked (reading_model reading) }
{
    unless(reading.known.failure(), reading.typed)
}

impl Labeller {
    /// The labels of an expression that begins here, of this type, which is among these.
    fn labels_for(
        &self,
        place: Place,
        types: &Types,
        of: &Symbol,
        bounds: Option<Bounds>,
        known: Known,
    ) -> Result<Labels, NoMemory>
        ensures { IfOk result (λ labels. labels ≡ labels_for self.now.predefined.root place types.now of.now bounds known) }
    {
        let words = words_in(&self.predefined.standard, types, of);
        let of = expression_type(self.alloc, &self.predefined.root, of)?;
        Ok(Labels {
            place,
            of,
            bounds,
            words,
            value: value_in(known),
        })
    }

    /// An expression that begins here, of this type, which is among these, with its nominal range, its value and its form.
    /// # Errors
    /// `NoMemory` if the allocator refuses memory.
    #[tactic(auto, unfolding(crate::specs::Nodes::node))]
    pub fn node(
        &self,
        place: Place,
        types: &Types,
        of: &Symbol,
        bounds: Option<Bounds>,
        known: Known,
        form: CheckResult<Form>,
    ) -> Result<Reading, NoMemory>
        ensures { IfOk result (λ r. reading_model r ≡ node self.now.predefined.root place types.now of.now bounds known (map_ok form_model form)) }
    {
        let labels = self.labels_for(place, types, of, bounds, known)?;
        Ok(Reading {
            known,
            typed: labelled(labels, form),
        })
    }

    /// A static value that begins here, of this type, which is among these.
    /// # Errors
    /// `NoMemory` if the allocator refuses memory.
    pub fn literal(
        &self,
        place: Place,
        types: &Types,
        of: &Symbol,
        value: StaticValue,
    ) -> Result<Reading, NoMemory>
        ensures { IfOk result (λ r. reading_model r ≡ literal self.now.predefined.root place types.now of.now value) }
    {
        let form = Ok(Form::literal(value));
        self.node(place, types, of, None, Known::Value(value), form)
    }

    /// A conversion, a qualified expression or an attribute that is like one, whose value is checked against this range.
    /// # Errors
    /// `NoMemory` if the allocator refuses memory.
    pub fn conversion(
        &self,
        place: Place,
        types: &Types,
        of: &Symbol,
        bounds: Option<Bounds>,
        conversion: Conversion,
        check: Option<Bounds>,
        operand: Reading,
    ) -> Result<Reading, NoMemory>
        ensures { IfOk result (λ r. reading_model r ≡ conversion_node self.now.predefined.root place types.now of.now bounds conversion check (reading_model operand)) }
    {
        let known = Known::converted(place, conversion, check, operand.known);
        let form = converted_form(self.alloc, conversion, check, operand.typed)?;
        self.node(place, types, of, bounds, known, form)
    }

    /// A membership test.
    /// # Errors
    /// `NoMemory` if the allocator refuses memory.
    pub fn membership(
        &self,
        place: Place,
        types: &Types,
        is_negated: bool,
        value: Reading,
        low: Reading,
        high: Reading,
    ) -> Result<Reading, NoMemory>
        ensures { IfOk result (λ r. reading_model r ≡ membership_node self.now.predefined.root place types.now self.now.predefined.types.boolean.symbol is_negated (reading_model value) (reading_model low) (reading_model high)) }
    {
        let known = Known::membership(place, is_negated, value.known, low.known, high.known);
        let operands = both(value.typed, both(low.typed, high.typed));
        let form = membership_form(self.alloc, is_negated, operands)?;
        let boolean = &self.predefined.types.boolean.symbol;
        self.node(place, types, boolean, None, known, form)
    }
}
