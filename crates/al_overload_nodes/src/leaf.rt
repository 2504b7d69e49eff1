// Terms without expressions in them, and what is made of those that were read.
ghost use Rattle.std.specs.Prelude.{◌≡◌, IfOk, OnOk};
ghost use Rattle.std.specs.Option.{option_copied};
ghost use Rattle.al_overload.specs.Counts.{label_of};
ghost use Rattle.al_overload.specs.Parts.{declared_under, nominal, part_of};
ghost use Rattle.al_base_fault.specs.Judging.{map_ok};
ghost use Rattle.al_overload.specs.declared.context.Context.TheVariants as contexts;
ghost use Rattle.al_overload.specs.TermViews.{term_model};
ghost use Rattle.al_view_typed.specs.ExpressionViews.{form_model, typed_model, value_model};
ghost use Rattle.al_overload_nodes.specs.Seen.{application_model};
ghost use Rattle.al_overload_nodes.specs.Leaves.{aggregate_node, application, applied_view, argument_check, argument_type, attribute_node, bound_node, bound_word, candidate_node, checked, component_in, component_of_type, in_bounds_node, in_mark_node, length_known, length_node, mark_node, mark_type, named_node, others_form, others_of, view_node, with_value};
ghost use Rattle.al_overload_nodes.specs.Views.{reading_model, values_model};

use crate::{Actuals, Labeller, Reading, Values, misfit};
use al_base::{NoMemory, Place};
use al_base_fault::{CheckResult, unless};
use al_overload::{
    Context, Labelled, Nominal, Term, count_of, declared_under, is_position, length_of, number_in,
    part_of, pick, positions_in, range_in, value_type,
};
use al_static::Known;
use al_view::{
    Bounds, ObjectView, StaticValue, SubprogramView, Subtype, SubtypeView, Symbol, TypeDefinition,
    Types, View, ViewKind,
};
use al_view_predefined::StandardTypes;
use al_view_typed::{CheckedValue, Conversion, Form, Typed};
use std::alloc::Global;

/// What comes after a name: arguments of a call, an index of an object, or an index of a part of one.
pub enum Application<'a> {
    /// The arguments of a call of this subprogram.
    CallOf(&'a SubprogramView),
    /// The index of this object of an array type.
    ElementOf(&'a ObjectView),
    /// The index of a part of this nominal subtype, which is of these types.
    ElementOfPart(&'a Subtype, &'a Types),
    /// What fits nothing.
    Misapplied,
}

fn bound_word(is_last: bool, bounds: Bounds) -> StaticValue
    ensures { result ≡ bound_word is_last bounds }
{
    if is_last {
        StaticValue { word: bounds.high }
    } else {
        StaticValue { word: bounds.low }
    }
}

fn applied_view(view: &ViewKind, _candidate: usize) -> Application<'_>
    ensures { application_model result ≡ applied_view (view.now, _candidate) }
{
    match view {
        ViewKind::OfSubprogram(subprogram) => Application::CallOf(subprogram),
        ViewKind::OfObject(object) => Application::ElementOf(object),
        ViewKind::OfNumber(_) => Application::Misapplied,
        ViewKind::OfLiteral(_) => Application::Misapplied,
        ViewKind::OfComponent => Application::Misapplied,
        ViewKind::OfType(_) => Application::Misapplied,
        ViewKind::OfSubtype(_) => Application::Misapplied,
        ViewKind::OfTask(_) => Application::Misapplied,
        ViewKind::OfProtected(_) => Application::Misapplied,
        ViewKind::OfPackage(_) => Application::Misapplied,
    }
}

/// What comes after a name, by what that denotes.
pub fn how_applied<'a>(
    standard: &'a StandardTypes,
    prefix: &'a Term,
    label: &Labelled,
) -> Application<'a>
    ensures { application_model result ≡ application (declared_under (term_model prefix.now)) (part_of (term_model prefix.now)) (label_of label.now) }
{
    match declared_under(prefix) {
        Some(visible) => match pick(standard, number_in(label), visible) {
            Some((view, candidate)) => applied_view(view, candidate),
            None => Application::Misapplied,
        },
        None => match part_of(standard, prefix) {
            Some((subtype, types)) => Application::ElementOfPart(subtype, types),
            None => Application::Misapplied,
        },
    }
}

/// The component with that index of an aggregate of this type.
fn component_in(position: usize, definition: &TypeDefinition) -> Option<&Subtype>
    ensures { option_copied result ≡ component_in position definition.now }
{
    match definition {
        TypeDefinition::Array {
            index: _,
            component,
        } => Some(component),
        TypeDefinition::Record(components) => match components.as_slice().get(position) {
            Some(component) => Some(&component.subtype),
            None => None,
        },
        TypeDefinition::Integer(_) => None,
        TypeDefinition::Enumeration { .. } => None,
        TypeDefinition::Time => None,
        TypeDefinition::Private => None,
    }
}

/// The subtype of the component at that position in an aggregate of this type.
pub fn component_of_type<'a>(
    standard: &'a StandardTypes,
    types: &'a Types,
    at: &Symbol,
    position: usize,
) -> Option<&'a Subtype>
    ensures { option_copied result ≡ component_of_type types.now at.now position }
{
    match standard.type_of(types, at) {
        Some(of) => component_in(position, &of.definition),
        None => None,
    }
}

/// The type that an attribute's argument has.
pub fn argument_type<'a>(
    root: &'a Symbol,
    conversion: Conversion,
    mark: &'a SubtypeView,
) -> &'a Symbol
    ensures { result.now ≡ argument_type root.now conversion mark.now }
{
    match conversion {
        Conversion::Val => root,
        Conversion::Pos => &mark.subtype.base,
        Conversion::Succ => &mark.subtype.base,
        Conversion::Pred => &mark.subtype.base,
        Conversion::ToType => &mark.subtype.base,
        Conversion::Qualification => &mark.subtype.base,
        Conversion::Milliseconds => &mark.subtype.base,
    }
}

/// The range that the value of an attribute is checked against.
fn argument_check(
    standard: &StandardTypes,
    conversion: Conversion,
    mark: &SubtypeView,
) -> Option<Bounds>
    ensures { result ≡ argument_check conversion mark.now }
{
    match conversion {
        Conversion::Pos => None,
        Conversion::Val => positions_in(standard, &mark.types, &mark.subtype.base),
        Conversion::Succ => positions_in(standard, &mark.types, &mark.subtype.base),
        Conversion::Pred => positions_in(standard, &mark.types, &mark.subtype.base),
        Conversion::ToType => range_in(standard, &mark.types, &mark.subtype),
        Conversion::Qualification => range_in(standard, &mark.types, &mark.subtype),
        Conversion::Milliseconds => range_in(standard, &mark.types, &mark.subtype),
    }
}

/// A value with the range that it is checked against.
fn checked(range: Option<Bounds>, value: CheckResult<Typed>) -> CheckResult<CheckedValue>
    ensures { map_ok value_model result ≡ map_ok (checked range) (map_ok typed_model value) }
{
    match value {
        Ok(value) => Ok(CheckedValue::new(value, range)),
        Err(fault) => Err(fault),
    }
}

/// Adds a component of an aggregate.
/// # Errors
/// `NoMemory` if the allocator refuses memory.
pub fn add_value(values: &mut Values, range: Option<Bounds>, value: Reading) -> Result<(), NoMemory>
    ensures { OnOk result (values_model values.new ≡ with_value (values_model values.old) range (reading_model value)) }
{
    let failure = value.known.failure();
    values.add(failure, checked(range, value.typed))
}

fn others_form(
    alloc: Global,
    bounds: Bounds,
    range: Option<Bounds>,
    value: CheckResult<Typed>,
) -> Result<CheckResult<Form>, NoMemory>
    ensures { IfOk result (λ form. map_ok form_model form ≡ map_ok (others_form bounds range) (map_ok typed_model value)) }
{
    match value {
        Ok(value) => {
            let form = Form::others(alloc, count_of(bounds), CheckedValue::new(value, range))?;
            Ok(Ok(form))
        }
        Err(fault) => Ok(Err(fault)),
    }
}

/// The first or the last value of a subtype.
/// # Errors
/// `NoMemory` if the allocator refuses memory.
pub fn bound_reading(
    labeller: &Labeller,
    place: Place,
    mark: &SubtypeView,
    is_last: bool,
) -> Result<Reading, NoMemory>
    ensures { IfOk result (λ r. reading_model r ≡ bound_node labeller.now.predefined.root place mark.now is_last) }
{
    match range_in(&labeller.predefined.standard, &mark.types, &mark.subtype) {
        Some(bounds) => labeller.literal(
            place,
            &mark.types,
            &mark.subtype.base,
            bound_word(is_last, bounds),
        ),
        None => Ok(misfit(place)),
    }
}

/// The length of an index range is static. If there are more values than the largest word, it fails (ARM 3.6.2, 4.9).
fn length_known(place: Place, bounds: Bounds) -> Known
    ensures { result ≡ length_known place bounds }
{
    if bounds.high.saturating_sub(bounds.low) < i64::MAX {
        let word = length_of(bounds);
        Known::Value(StaticValue { word })
    } else {
        Known::Fails(place)
    }
}

/// `A'Length` of an array whose index has these bounds.
/// # Errors
/// `NoMemory` if the allocator refuses memory.
pub fn length_reading(
    labeller: &Labeller,
    place: Place,
    types: &Types,
    at: &Symbol,
    bounds: Bounds,
) -> Result<Reading, NoMemory>
    ensures { IfOk result (λ r. reading_model r ≡ length_node labeller.now.predefined.root place types.now at.now bounds) }
{
    let word = length_of(bounds);
    let form = Ok(Form::literal(StaticValue { word }));
    labeller.node(place, types, at, None, length_known(place, bounds), form)
}

/// A declaration that is named alone.
fn view_reading(
    labeller: &Labeller,
    place: Place,
    types: &Types,
    at: &Symbol,
    view: &ViewKind,
) -> Result<Reading, NoMemory>
    ensures { IfOk result (λ r. reading_model r ≡ view_node labeller.now.predefined.root labeller.now.own place types.now at.now view.now) }
{
    match view {
        ViewKind::OfObject(object) => labeller.object(place, object),
        ViewKind::OfNumber(value) => labeller.literal(place, types, at, *value),
        ViewKind::OfLiteral(literal) => {
            let word = i64::from(literal.position);
            labeller.literal(place, &literal.types, &literal.base, StaticValue { word })
        }
        ViewKind::OfSubprogram(subprogram) => {
            labeller.call(place, subprogram, Actuals::none(labeller.alloc))
        }
        ViewKind::OfComponent => Ok(misfit(place)),
        ViewKind::OfType(_) => Ok(misfit(place)),
        ViewKind::OfSubtype(_) => Ok(misfit(place)),
        ViewKind::OfTask(_) => Ok(misfit(place)),
        ViewKind::OfProtected(_) => Ok(misfit(place)),
        ViewKind::OfPackage(_) => Ok(misfit(place)),
    }
}

/// A name alone.
/// # Errors
/// `NoMemory` if the allocator refuses memory.
pub fn named_reading(
    labeller: &Labeller,
    place: Place,
    visible: &[View],
    label: &Labelled,
    types: &Types,
    at: &Symbol,
) -> Result<Reading, NoMemory>
    ensures { IfOk result (λ r. reading_model r ≡ named_node labeller.now.predefined.root labeller.now.own place visible.now (label_of label.now) types.now at.now) }
{
    let Some((view, candidate)) = pick(&labeller.predefined.standard, number_in(label), visible)
    else {
        return Ok(misfit(place));
    };
    if candidate == 0 {
        return view_reading(labeller, place, types, at, view);
    }
    Ok(misfit(place))
}

/// `S'Pos (X)`, `S'Val (X)`, `S'Succ (X)` or `S'Pred (X)`.
/// # Errors
/// `NoMemory` if the allocator refuses memory.
pub fn attribute_reading(
    labeller: &Labeller,
    place: Place,
    conversion: Conversion,
    mark: &SubtypeView,
    types: &Types,
    at: &Symbol,
    argument: Reading,
) -> Result<Reading, NoMemory>
    ensures { IfOk result (λ r. reading_model r ≡ attribute_node labeller.now.predefined.root place conversion mark.now types.now at.now (reading_model argument)) }
{
    if is_position(conversion) {
        return labeller.conversion(place, types, at, None, Conversion::Pos, None, argument);
    }
    let check = argument_check(&labeller.predefined.standard, conversion, mark);
    let base = &mark.subtype.base;
    labeller.conversion(place, &mark.types, base, None, conversion, check, argument)
}

/// A conversion to this subtype, or a qualified expression of it.
/// # Errors
/// `NoMemory` if the allocator refuses memory.
pub fn marked_reading(
    labeller: &Labeller,
    place: Place,
    conversion: Conversion,
    mark: &SubtypeView,
    operand: Reading,
) -> Result<Reading, NoMemory>
    ensures { IfOk result (λ r. reading_model r ≡ mark_node labeller.now.predefined.root place conversion mark.now (reading_model operand)) }
{
    let range = range_in(&labeller.predefined.standard, &mark.types, &mark.subtype);
    let base = &mark.subtype.base;
    labeller.conversion(place, &mark.types, base, range, conversion, range, operand)
}

/// The context of the operand of a conversion to this subtype.
/// # Errors
/// `NoMemory` if the allocator refuses memory.
pub fn conversion_context(labeller: &Labeller, mark: &SubtypeView) -> Result<Context, NoMemory>
    ensures { IfOk result (λ context. context ≡ contexts.ConversionOperand (mark_type mark.now)) }
{
    let standard = &labeller.predefined.standard;
    let of = value_type(labeller.alloc, standard, &mark.types, &mark.subtype.base)?;
    Ok(Context::ConversionOperand(of))
}

/// The context of the operand of a qualified expression of this subtype.
/// # Errors
/// `NoMemory` if the allocator refuses memory.
pub fn qualified_context(labeller: &Labeller, mark: &SubtypeView) -> Result<Context, NoMemory>
    ensures { IfOk result (λ context. context ≡ contexts.QualifiedOperand (mark_type mark.now)) }
{
    let standard = &labeller.predefined.standard;
    let of = value_type(labeller.alloc, standard, &mark.types, &mark.subtype.base)?;
    Ok(Context::QualifiedOperand(of))
}

/// The nominal subtype that an aggregate after a mark may have.
/// # Errors
/// `NoMemory` if the allocator refuses memory.
pub fn nominal_of(labeller: &Labeller, mark: &SubtypeView) -> Result<Option<Nominal>, NoMemory>
    ensures { IfOk result (λ allowed. allowed ≡ Some (nominal mark.now.types mark.now.subtype)) }
{
    let subtype = mark.subtype.copy(labeller.alloc)?;
    let types = mark.types.share()?;
    Ok(Some(Nominal { subtype, types }))
}

/// `value [not] in mark`.
/// # Errors
/// `NoMemory` if the allocator refuses memory.
pub fn in_mark_reading(
    labeller: &Labeller,
    place: Place,
    is_negated: bool,
    mark: &SubtypeView,
    value: Reading,
) -> Result<Reading, NoMemory>
    ensures { IfOk result (λ r. reading_model r ≡ in_mark_node labeller.now.predefined place is_negated mark.now (reading_model value)) }
{
    let (types, base) = (&mark.types, &mark.subtype.base);
    let Some(bounds) = range_in(&labeller.predefined.standard, types, &mark.subtype) else {
        return Ok(misfit(place));
    };
    let low = labeller.literal(place, types, base, bound_word(false, bounds))?;
    let high = labeller.literal(place, types, base, bound_word(true, bounds))?;
    labeller.membership(place, types, is_negated, value, low, high)
}

/// A positional aggregate.
/// # Errors
/// `NoMemory` if the allocator refuses memory.
pub fn aggregate_reading(
    labeller: &Labeller,
    place: Place,
    types: &Types,
    at: &Symbol,
    values: Values,
) -> Result<Reading, NoMemory>
    ensures { IfOk result (λ r. reading_model r ≡ aggregate_node labeller.now.predefined.root place types.now at.now (values_model values)) }
{
    let known = Known::Open(values.failure);
    let form = unless(values.fault, Ok(Form::aggregate(values.items)));
    labeller.node(place, types, at, None, known, form)
}

/// `(others => value)`.
/// # Errors
/// `NoMemory` if the allocator refuses memory.
pub fn others_reading(
    labeller: &Labeller,
    place: Place,
    types: &Types,
    at: &Symbol,
    bounds: Bounds,
    component: &Subtype,
    value: Reading,
) -> Result<Reading, NoMemory>
    ensures { IfOk result (λ r. reading_model r ≡ others_of labeller.now.predefined.root place types.now at.now bounds component.now (reading_model value)) }
{
    let range = range_in(&labeller.predefined.standard, types, component);
    let known = Known::Open(value.known.failure());
    let form = others_form(labeller.alloc, bounds, range, value.typed)?;
    labeller.node(place, types, at, None, known, form)
}
