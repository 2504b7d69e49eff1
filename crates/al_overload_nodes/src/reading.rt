// The labelled tree of a term with its labelling: the functions that recurse.
ghost use Rattle.std.specs.Prelude.{◌≡◌, ◌&&◌, IfOk, OnOk, false, map, option_map};
ghost use Rattle.std.specs.Option.{option_map_or};
ghost use Rattle.al_overload_nodes.specs.Variables.{variable_as};
ghost use Rattle.al_overload.specs.Counts.{label_of};
ghost use Rattle.al_base_fault.specs.Judging.{map_ok};
ghost use Rattle.al_overload.specs.Terms.{TermTree as trees};
ghost use Rattle.al_overload.specs.TermViews.{term_model, terms_of};
ghost use Rattle.al_overload_nodes.specs.Gathering.{no_parts};
ghost use Rattle.al_overload_nodes.specs.Readings.{actuals_read, applied_read, conversion_read, index_read, member_read, operand_read, qualified_read, reading, short_circuit_read, values_read};
ghost use Rattle.al_overload_nodes.specs.Leaves.{indexed_node, inner, labelled};
ghost use Rattle.al_overload_nodes.specs.OperandLabels.{actual_with, component_with};
ghost use Rattle.al_overload.specs.Places.{first_place};
ghost use Rattle.al_overload.specs.Universal.{computes_two, is_universal};
ghost use Rattle.al_overload_nodes.specs.Chains.{IsAt, IsBelow, stepped};
ghost use Rattle.al_overload_nodes.specs.Known.{IsKnown};
ghost use Rattle.al_overload_nodes.specs.Calls.{call_node};
ghost use Rattle.al_overload_nodes.specs.Names.{object_node};
ghost use Rattle.al_overload_nodes.specs.Views.{actuals_model, reading_model, values_model};

use crate::chain::{Joint, Step, chained, down, joined, last, step_selected};
use crate::made::{kept, kept_unfit, membership_of, read_bound, read_length, read_number, unfit};
use crate::meaning::{interpret_conversion, interpret_qualified, types_of_test};
use crate::operands::{labels_after, next_label, operand_labels};
use crate::pair::together;
use crate::universal::{found_universal, left_known};
use crate::variable::variable_at;
use crate::{
    Actuals, Application, Labeller, Reading, Values, add_actual, add_value, aggregate_reading,
    argument_type, attribute_reading, component_of_type, faulty, grouped, how_applied,
    in_mark_reading, is_computed, marked_reading, misfit, named_reading, others_reading,
};
use al_base::{NoMemory, Place};
use al_base_fault::CheckResult;
use al_overload::{
    Labelled, Term, first_place, how_indexed, nothing_fits, operand_label, range_in,
};
use al_view::{ObjectView, SubprogramView, SubtypeView, Symbol, Types, View};
use al_view_typed::{BinaryOperator, Conversion, ShortCircuit, UnaryOperator};

/// What a term is with its labelling, if it has this type, which is among these.
#[cycle(reading)]
#[tactic(auto, using(crate::proofs::TermsSeen::terms_made))]
pub(crate) fn read(
    labeller: &Labeller,
    term: &Term,
    label: &Labelled,
    types: &Types,
    at: &Symbol,
) -> Result<Reading, NoMemory>
    ensures { IfOk result (λ r. reading_model r ≡ reading labeller.now.predefined labeller.now.own (term_model term.now) (label_of label.now) types.now at.now) }
{
    match term {
        Term::Number { place, value } => read_number(labeller, *place, types, at, *value),
        Term::Text { place, .. } => unfit(*place),
        Term::Named { place, views } => {
            named_reading(labeller, *place, views.as_slice(), label, types, at)
        }
        Term::Selected { prefix, name } => {
            let place = first_place(prefix);
            let step = step_selected(labeller, prefix, name.as_slice(), place, label, types, at)?;
            read_step(labeller, prefix, place, step)
        }
        Term::Applied { name, arguments } => {
            let place = first_place(name);
            let arguments = arguments.as_slice();
            let step = step_applied(labeller, arguments, name, place, label, types, at)?;
            read_step(labeller, name, place, step)
        }
        Term::Bound {
            place,
            subtype,
            is_last,
        } => read_bound(labeller, *place, subtype, *is_last),
        Term::Length { place, bounds } => read_length(labeller, *place, types, at, *bounds),
        Term::Conversion {
            place,
            subtype,
            operand,
        } => read_conversion(labeller, *place, subtype, operand),
        Term::Qualified {
            place,
            subtype,
            operand,
        } => read_qualified(labeller, *place, subtype, operand),
        Term::Attribute {
            place,
            conversion,
            subtype,
            argument,
        } => read_attribute(
            labeller,
            *place,
            *conversion,
            subtype,
            argument,
            label,
            types,
            at,
        ),
        Term::Image { place, .. } => unfit(*place),
        Term::Group { place, inner } => read_group(labeller, *place, inner, label, types, at),
        Term::Aggregate { place, components } => {
            read_aggregate(labeller, *place, components.as_slice(), label, types, at)
        }
        Term::Others { place, component } => {
            read_others(labeller, *place, component, label, types, at)
        }
        Term::Nothing { place } => unfit(*place),
        Term::Concatenation { left, .. } => unfit(first_place(left)),
        Term::Prefixed {
            place,
            operator,
            views,
            operand,
        } => read_prefixed(
            labeller,
            *place,
            *operator,
            views.as_slice(),
            operand,
            label,
            types,
            at,
        ),
        Term::Infix {
            operator,
            views,
            left,
            right,
        } => {
            let place = first_place(left);
            let visible = views.as_slice();
            let step = step_infix(
                labeller, right, left, None, place, *operator, visible, label, types, at,
            )?;
            read_step(labeller, left, place, step)
        }
        Term::ShortCircuit { form, left, right } => {
            let place = first_place(left);
            let step = step_short_circuit(labeller, right, left, place, *form, label, types)?;
            read_step(labeller, left, place, step)
        }
        Term::Member {
            value,
            is_negated,
            subtype,
        } => read_member(labeller, value, *is_negated, subtype, label),
        Term::RangeMember {
            value,
            is_negated,
            low,
            high,
        } => {
            let place = first_place(value);
            let (among, of) = types_of_test(labeller, value, low, high, label, types);
            let value = read_kept(labeller, value, place, 0, label, among, of);
            let low = read_kept(labeller, low, place, 1, label, among, of);
            let high = read_kept(labeller, high, place, 2, label, among, of);
            let (value, (low, high)) = together(value, together(low, high))?;
            membership_of(labeller, place, types, *is_negated, value, low, high)
        }
    }
}

/// What a term is with its labelling, on the heap. A chain of operators, selectors and indexes is processed by a loop, so that it takes no
/// more of the stack than one link does. All that is at the left of its links begins at the place where the chain begins.
#[cycle(reading)]
#[inline(never)]
fn read_boxed(
    labeller: &Labeller,
    term: &Term,
    known: Option<bool>,
    label: &Labelled,
    types: &Types,
    at: &Symbol,
) -> Result<Box<Reading>, NoMemory>
    requires { IsKnown known (is_universal (term_model term.now)) }
    ensures { IfOk result (λ r. reading_model r.value ≡ reading labeller.now.predefined labeller.now.own (term_model term.now) (label_of label.now) types.now at.now) }
{
    let place = first_place(term);
    let mut joints = Vec::new(labeller.alloc);
    let (mut rest, mut known, mut label, mut types, mut at) = (term, known, label, types, at);
    loop {
        match step(labeller, rest, known, place, label, types, at)? {
            Step::Down {
                joint,
                left,
                known: known_left,
                label: left_label,
                types: among,
                at: of,
            } => {
                joints.push(joint)?;
                (rest, known, label, types, at) = (left, known_left, left_label, among, of);
            }
            Step::Last(first) => return chained(labeller, place, joints, first),
        }
    }
}

/// A step down a chain: its last link, and what is at the left of that; or what is no chain.
#[cycle(reading)]
#[inline(never)]
#[tactic(auto, using(crate::proofs::TermsSeen::terms_made))]
fn step<'a>(
    labeller: &'a Labeller,
    term: &'a Term,
    known: Option<bool>,
    place: Place,
    label: &'a Labelled,
    types: &'a Types,
    at: &'a Symbol,
) -> Result<Step<'a>, NoMemory>
    requires begins { place ≡ first_place (term_model term.now) }
    requires known { IsKnown known (is_universal (term_model term.now)) }
    ensures read { IfOk result (λ s. stepped labeller.now.predefined labeller.now.own place s ≡ reading labeller.now.predefined labeller.now.own (term_model term.now) (label_of label.now) types.now at.now) }
    ensures below { IfOk result (λ s. IsBelow term.now s) }
{
    match term {
        Term::Infix {
            operator,
            views,
            left,
            right,
        } => {
            let visible = views.as_slice();
            step_infix(
                labeller, right, left, known, place, *operator, visible, label, types, at,
            )
        }
        Term::ShortCircuit { form, left, right } => {
            step_short_circuit(labeller, right, left, place, *form, label, types)
        }
        Term::Selected { prefix, name } => {
            step_selected(labeller, prefix, name.as_slice(), place, label, types, at)
        }
        Term::Applied { name, arguments } => {
            let arguments = arguments.as_slice();
            step_applied(labeller, arguments, name, place, label, types, at)
        }
        _ => {
            let reading = read_other(labeller, term, label, types, at)?;
            Ok(Step::Last(reading))
        }
    }
}

/// The step at `left operator right`.
#[cycle(reading)]
#[inline(never)]
fn step_infix<'a>(
    labeller: &'a Labeller,
    right: &'a Term,
    left: &'a Term,
    known: Option<bool>,
    place: Place,
    operator: BinaryOperator,
    visible: &'a [View],
    label: &'a Labelled,
    types: &'a Types,
    at: &'a Symbol,
) -> Result<Step<'a>, NoMemory>
    requires begins { place ≡ first_place (term_model left.now) }
    requires known { IsKnown known (computes_two operator && (is_universal (term_model left.now) && is_universal (term_model right.now))) }
    ensures read { IfOk result (λ s. stepped labeller.now.predefined labeller.now.own place s ≡ reading labeller.now.predefined labeller.now.own (trees.InfixTerm operator visible.now (term_model left.now) (term_model right.now)) (label_of label.now) types.now at.now) }
    ensures at { IfOk result (λ s. IsAt left.now s) }
{
    let of_numbers = found_universal(known, operator, left, right);
    let Some(of) = labeller.binary_signature(operator, visible, of_numbers, label, types, at) else {
        let reading = kept_unfit(labeller.alloc, place)?;
        return Ok(Step::Last(reading));
    };
    let second = read_kept(labeller, right, place, 1, label, of.types, of.right)?;
    let (among, stands_at) = (of.types, of.left);
    let joint = Joint::Operator(operator, of, second);
    let first_label = operand_label(label, 0);
    let of_left = left_known(operator, left, right, of_numbers);
    down(
        labeller,
        place,
        joint,
        left,
        of_left,
        first_label,
        among,
        stands_at,
    )
}

/// The step at `left and then right` or `left or else right`.
#[cycle(reading)]
#[inline(never)]
fn step_short_circuit<'a>(
    labeller: &'a Labeller,
    right: &'a Term,
    left: &'a Term,
    place: Place,
    form: ShortCircuit,
    label: &'a Labelled,
    types: &'a Types,
) -> Result<Step<'a>, NoMemory>
    requires { place ≡ first_place (term_model left.now) }
    ensures read { IfOk result (λ s. stepped labeller.now.predefined labeller.now.own place s ≡ short_circuit_read labeller.now.predefined labeller.now.own form (term_model left.now) (term_model right.now) (label_of label.now) types.now) }
    ensures at { IfOk result (λ s. IsAt left.now s) }
{
    let of = &labeller.predefined.types.boolean.symbol;
    let second = read_kept(labeller, right, place, 1, label, types, of)?;
    let joint = Joint::ShortCircuit(form, types, second);
    let first_label = operand_label(label, 0);
    down(labeller, place, joint, left, None, first_label, types, of)
}

/// The step at what is in parentheses after a name.
#[cycle(reading)]
#[inline(never)]
fn step_applied<'a>(
    labeller: &'a Labeller,
    arguments: &'a [Term],
    name: &'a Term,
    place: Place,
    label: &'a Labelled,
    types: &'a Types,
    at: &'a Symbol,
) -> Result<Step<'a>, NoMemory>
    ensures read { IfOk result (λ s. stepped labeller.now.predefined labeller.now.own place s ≡ applied_read labeller.now.predefined labeller.now.own place (term_model name.now) (terms_of (map term_model arguments.now)) (label_of label.now) types.now at.now) }
    ensures at { IfOk result (λ s. IsAt name.now s) }
{
    match how_applied(&labeller.predefined.standard, name, label) {
        Application::CallOf(subprogram) => {
            let reading = read_call(labeller, arguments, place, subprogram, label);
            last(labeller, reading)
        }
        Application::ElementOf(object) => {
            let reading = read_object_element(labeller, arguments, place, object, label);
            last(labeller, reading)
        }
        Application::ElementOfPart(subtype, part) => {
            let of = &subtype.base;
            step_index(labeller, arguments, name, place, label, part, of, types, at)
        }
        Application::Misapplied => last(labeller, unfit(place)),
    }
}

/// The step at an index after a part of an object, which is of this type, which is among these.
#[cycle(reading)]
#[inline(never)]
fn step_index<'a>(
    labeller: &'a Labeller,
    arguments: &'a [Term],
    name: &'a Term,
    place: Place,
    label: &'a Labelled,
    part: &'a Types,
    of: &'a Symbol,
    types: &'a Types,
    at: &'a Symbol,
) -> Result<Step<'a>, NoMemory>
    ensures read { IfOk result (λ s. stepped labeller.now.predefined labeller.now.own place s ≡ indexed_node labeller.now.predefined.root place part.now of.now (operand_read labeller.now.predefined labeller.now.own place 0 (term_model name.now) (label_of label.now) types.now at.now) (λ index. index_read labeller.now.predefined labeller.now.own place 1 (label_of label.now) part.now index (terms_of (map term_model arguments.now)))) }
    ensures at { IfOk result (λ s. IsAt name.now s) }
{
    let Some(by) = how_indexed(&labeller.predefined.standard, part, of) else {
        let reading = kept_unfit(labeller.alloc, place)?;
        return Ok(Step::Last(reading));
    };
    let index = kept_index(labeller, arguments, place, label, part, by.index)?;
    let joint = Joint::Index(part, by, index);
    let first_label = operand_label(label, 0);
    down(labeller, place, joint, name, None, first_label, types, at)
}

/// The only index after a part of an object, on the heap.
#[cycle(reading)]
#[inline(never)]
fn kept_index(
    labeller: &Labeller,
    arguments: &[Term],
    place: Place,
    label: &Labelled,
    types: &Types,
    at: &Symbol,
) -> Result<Box<Reading>, NoMemory>
    ensures { IfOk result (λ r. reading_model r.value ≡ index_read labeller.now.predefined labeller.now.own place 1 (label_of label.now) types.now at.now (terms_of (map term_model arguments.now))) }
{
    let reading = read_index(labeller, arguments, place, 1, label, types, at);
    kept(labeller.alloc, reading)
}

/// What a step makes of its term, once what is at the left is read too.
#[cycle(reading)]
#[inline(never)]
fn read_step(
    labeller: &Labeller,
    left: &Term,
    place: Place,
    step: Step<'_>,
) -> Result<Reading, NoMemory>
    requires { IsAt left.now step }
    ensures { IfOk result (λ r. reading_model r ≡ stepped labeller.now.predefined labeller.now.own place step.entry) }
{
    match step {
        Step::Down {
            joint,
            left: _,
            known,
            label,
            types,
            at,
        } => {
            let first = read_boxed(labeller, left, known, label, types, at)?;
            let reading = joined(labeller, place, first, joint)?;
            Ok(Box::into_inner(reading))
        }
        Step::Last(reading) => Ok(Box::into_inner(reading)),
    }
}

/// What is no chain, on the heap.
#[cycle(reading)]
#[inline(never)]
fn read_other(
    labeller: &Labeller,
    term: &Term,
    label: &Labelled,
    types: &Types,
    at: &Symbol,
) -> Result<Box<Reading>, NoMemory>
    ensures { IfOk result (λ r. reading_model r.value ≡ reading labeller.now.predefined labeller.now.own (term_model term.now) (label_of label.now) types.now at.now) }
{
    let reading = read(labeller, term, label, types, at);
    kept(labeller.alloc, reading)
}

/// The operand of this position with its labelling, on the heap.
#[cycle(reading)]
#[inline(never)]
fn read_kept(
    labeller: &Labeller,
    term: &Term,
    place: Place,
    position: usize,
    label: &Labelled,
    types: &Types,
    at: &Symbol,
) -> Result<Box<Reading>, NoMemory>
    ensures { IfOk result (λ r. reading_model r.value ≡ operand_read labeller.now.predefined labeller.now.own place position (term_model term.now) (label_of label.now) types.now at.now) }
{
    match operand_label(label, position) {
        Some(label) => read_boxed(labeller, term, None, label, types, at),
        None => kept_unfit(labeller.alloc, place),
    }
}

/// A call with its actual parameters.
#[cycle(reading)]
#[inline(never)]
fn read_call(
    labeller: &Labeller,
    arguments: &[Term],
    place: Place,
    subprogram: &SubprogramView,
    label: &Labelled,
) -> Result<Reading, NoMemory>
    ensures { IfOk result (λ r. reading_model r ≡ call_node labeller.now.predefined.root labeller.now.own place subprogram.now (actuals_read labeller.now.predefined labeller.now.own subprogram.now (label_of label.now) 0 no_parts (terms_of (map term_model arguments.now)))) }
{
    let actuals = read_actuals(labeller, arguments, subprogram, label)?;
    labeller.call(place, subprogram, actuals)
}

/// A component of an object of an array type.
#[cycle(reading)]
#[inline(never)]
fn read_object_element(
    labeller: &Labeller,
    arguments: &[Term],
    place: Place,
    object: &ObjectView,
    label: &Labelled,
) -> Result<Reading, NoMemory>
    ensures { IfOk result (λ r. reading_model r ≡ indexed_node labeller.now.predefined.root place object.now.types object.now.subtype.base (object_node labeller.now.predefined.root place object.now) (λ index. index_read labeller.now.predefined labeller.now.own place 0 (label_of label.now) object.now.types index (terms_of (map term_model arguments.now)))) }
{
    let whole = labeller.object(place, object)?;
    let (types, of) = (&object.types, &object.subtype.base);
    read_element(labeller, arguments, place, 0, label, types, of, whole)
}

/// What is in parentheses.
#[cycle(reading)]
#[inline(never)]
fn read_group(
    labeller: &Labeller,
    place: Place,
    inner: &Term,
    label: &Labelled,
    types: &Types,
    at: &Symbol,
) -> Result<Reading, NoMemory>
    ensures { IfOk result (λ r. reading_model r ≡ reading labeller.now.predefined labeller.now.own (trees.GroupTerm place (term_model inner.now)) (label_of label.now) types.now at.now) }
{
    let inner = read(labeller, inner, label, types, at)?;
    Ok(grouped(place, inner))
}

/// An aggregate with a component for each place.
#[cycle(reading)]
#[inline(never)]
fn read_aggregate(
    labeller: &Labeller,
    place: Place,
    components: &[Term],
    label: &Labelled,
    types: &Types,
    at: &Symbol,
) -> Result<Reading, NoMemory>
    ensures { IfOk result (λ r. reading_model r ≡ reading labeller.now.predefined labeller.now.own (trees.AggregateTerm place (terms_of (map term_model components.now))) (label_of label.now) types.now at.now) }
{
    let values = read_values(labeller, components, types, at, label)?;
    aggregate_reading(labeller, place, types, at, values)
}

/// A conversion to this subtype, whose operand is a context by itself.
#[cycle(reading)]
#[inline(never)]
fn read_conversion(
    labeller: &Labeller,
    place: Place,
    subtype: &SubtypeView,
    operand: &Term,
) -> Result<Reading, NoMemory>
    ensures { IfOk result (λ r. reading_model r ≡ conversion_read labeller.now.predefined labeller.now.own place subtype.now (term_model operand.now)) }
{
    let meaning = interpret_conversion(labeller, subtype, operand)?;
    let root = &labeller.predefined.root;
    let operand = read_inner(labeller, operand, meaning, &subtype.types, root)?;
    marked_reading(labeller, place, Conversion::ToType, subtype, operand)
}

/// A qualified expression of this subtype, whose operand is a context by itself.
#[cycle(reading)]
#[inline(never)]
fn read_qualified(
    labeller: &Labeller,
    place: Place,
    subtype: &SubtypeView,
    operand: &Term,
) -> Result<Reading, NoMemory>
    ensures { IfOk result (λ r. reading_model r ≡ qualified_read labeller.now.predefined labeller.now.own place subtype.now (term_model operand.now)) }
{
    let meaning = interpret_qualified(labeller, subtype, operand)?;
    let base = &subtype.subtype.base;
    let operand = read_inner(labeller, operand, meaning, &subtype.types, base)?;
    marked_reading(labeller, place, Conversion::Qualification, subtype, operand)
}

/// `S'Pos (X)`, `S'Val (X)`, `S'Succ (X)` or `S'Pred (X)`.
#[cycle(reading)]
#[inline(never)]
fn read_attribute(
    labeller: &Labeller,
    place: Place,
    conversion: Conversion,
    subtype: &SubtypeView,
    argument: &Term,
    label: &Labelled,
    types: &Types,
    at: &Symbol,
) -> Result<Reading, NoMemory>
    ensures { IfOk result (λ r. reading_model r ≡ reading labeller.now.predefined labeller.now.own (trees.AttributeTerm place conversion subtype.now (term_model argument.now)) (label_of label.now) types.now at.now) }
{
    let of = argument_type(&labeller.predefined.root, conversion, subtype);
    let first_label = operand_label(label, 0);
    let argument = read_operand(labeller, argument, place, first_label, &subtype.types, of)?;
    attribute_reading(labeller, place, conversion, subtype, types, at, argument)
}

/// `(others => component)`.
#[cycle(reading)]
#[inline(never)]
fn read_others(
    labeller: &Labeller,
    place: Place,
    component: &Term,
    label: &Labelled,
    types: &Types,
    at: &Symbol,
) -> Result<Reading, NoMemory>
    ensures { IfOk result (λ r. reading_model r ≡ reading labeller.now.predefined labeller.now.own (trees.OthersTerm place (term_model component.now)) (label_of label.now) types.now at.now) }
{
    let Some(by) = how_indexed(&labeller.predefined.standard, types, at) else {
        return Ok(misfit(place));
    };
    let of = &by.component.base;
    let first_label = operand_label(label, 0);
    let value = read_operand(labeller, component, place, first_label, types, of)?;
    others_reading(labeller, place, types, at, by.bounds, by.component, value)
}

/// An operator before its operand.
#[cycle(reading)]
#[inline(never)]
fn read_prefixed(
    labeller: &Labeller,
    place: Place,
    operator: UnaryOperator,
    visible: &[View],
    operand: &Term,
    label: &Labelled,
    types: &Types,
    at: &Symbol,
) -> Result<Reading, NoMemory>
    ensures { IfOk result (λ r. reading_model r ≡ reading labeller.now.predefined labeller.now.own (trees.PrefixedTerm place operator visible.now (term_model operand.now)) (label_of label.now) types.now at.now) }
{
    let of_numbers = is_computed(operator, operand);
    let Some(of) = labeller.unary_signature(visible, of_numbers, label, types, at) else {
        return Ok(misfit(place));
    };
    let first_label = operand_label(label, 0);
    let operand = read_operand(labeller, operand, place, first_label, of.types, of.left)?;
    labeller.unary(place, operator, &of, operand)
}

/// `value [not] in subtype`.
#[cycle(reading)]
#[inline(never)]
fn read_member(
    labeller: &Labeller,
    value: &Term,
    is_negated: bool,
    subtype: &SubtypeView,
    label: &Labelled,
) -> Result<Reading, NoMemory>
    ensures { IfOk result (λ r. reading_model r ≡ member_read labeller.now.predefined labeller.now.own (term_model value.now) is_negated subtype.now (label_of label.now)) }
{
    let place = first_place(value);
    let of = &subtype.subtype.base;
    let first_label = operand_label(label, 0);
    let value = read_operand(labeller, value, place, first_label, &subtype.types, of)?;
    in_mark_reading(labeller, place, is_negated, subtype, value)
}

/// An operand with its labelling, if it has one.
#[cycle(reading)]
pub(crate) fn read_operand(
    labeller: &Labeller,
    term: &Term,
    place: Place,
    label: Option<&Labelled>,
    types: &Types,
    at: &Symbol,
) -> Result<Reading, NoMemory>
    ensures { IfOk result (λ r. reading_model r ≡ labelled place (λ l. reading labeller.now.predefined labeller.now.own (term_model term.now) l types.now at.now) (option_map (λ l. label_of l.now) label.entry)) }
{
    match label {
        Some(label) => read(labeller, term, label, types, at),
        None => Ok(misfit(place)),
    }
}

/// A context by itself, whose meaning was found.
#[cycle(reading)]
pub(crate) fn read_inner(
    labeller: &Labeller,
    term: &Term,
    meaning: CheckResult<Labelled>,
    types: &Types,
    at: &Symbol,
) -> Result<Reading, NoMemory>
    ensures { IfOk result (λ r. reading_model r ≡ inner (λ l. reading labeller.now.predefined labeller.now.own (term_model term.now) l types.now at.now) (map_ok label_of meaning)) }
{
    match meaning {
        Ok(label) => {
            let reading = read(labeller, term, &label, types, at);
            drop(label);
            reading
        }
        Err(fault) => Ok(faulty(fault)),
    }
}

/// A component of an array, by what is in parentheses after it.
#[cycle(reading)]
fn read_element(
    labeller: &Labeller,
    arguments: &[Term],
    place: Place,
    position: usize,
    label: &Labelled,
    types: &Types,
    of: &Symbol,
    whole: Reading,
) -> Result<Reading, NoMemory>
    ensures { IfOk result (λ r. reading_model r ≡ indexed_node labeller.now.predefined.root place types.now of.now (reading_model whole) (λ index. index_read labeller.now.predefined labeller.now.own place position (label_of label.now) types.now index (terms_of (map term_model arguments.now)))) }
{
    let Some(by) = how_indexed(&labeller.predefined.standard, types, of) else {
        drop(whole);
        return Ok(misfit(place));
    };
    let index = read_index(labeller, arguments, place, position, label, types, by.index);
    let (whole, index) = together(Ok(whole), index)?;
    labeller.element(place, types, &by, whole, index)
}

/// The only index.
#[cycle(reading)]
fn read_index(
    labeller: &Labeller,
    arguments: &[Term],
    place: Place,
    position: usize,
    label: &Labelled,
    types: &Types,
    at: &Symbol,
) -> Result<Reading, NoMemory>
    ensures { IfOk result (λ r. reading_model r ≡ index_read labeller.now.predefined labeller.now.own place position (label_of label.now) types.now at.now (terms_of (map term_model arguments.now))) }
{
    match arguments {
        [] => Ok(misfit(place)),
        [index] => {
            let label = operand_label(label, position);
            read_operand(labeller, index, place, label, types, at)
        }
        [_, _, ..] => Ok(misfit(place)),
    }
}

/// The actual parameters of a call.
#[cycle(reading)]
pub(crate) fn read_actuals(
    labeller: &Labeller,
    arguments: &[Term],
    subprogram: &SubprogramView,
    label: &Labelled,
) -> Result<Actuals, NoMemory>
    ensures { IfOk result (λ a. actuals_model a ≡ actuals_read labeller.now.predefined labeller.now.own subprogram.now (label_of label.now) 0 no_parts (terms_of (map term_model arguments.now))) }
{
    let mut actuals = Actuals::none(labeller.alloc);
    let mut labels = operand_labels(label);
    for (position, argument) in arguments.iter().enumerate() {
        let one = next_label(labels);
        read_actual(labeller, argument, position, subprogram, one, &mut actuals)?;
        labels = labels_after(labels);
    }
    Ok(actuals)
}

/// The actual parameter for the formal of this position.
#[cycle(reading)]
fn read_actual(
    labeller: &Labeller,
    argument: &Term,
    position: usize,
    subprogram: &SubprogramView,
    label: Option<&Labelled>,
    actuals: &mut Actuals,
) -> Result<(), NoMemory>
    ensures { OnOk result (actuals_model actuals.new ≡ actual_with subprogram.now (option_map (λ l. label_of l.now) label.entry) position (actuals_model actuals.old) (first_place (term_model argument.now)) (option_map_or (variable_as (term_model argument.now)) (option_map (λ l. label_of l.now) label.entry) false) (λ l of. reading labeller.now.predefined labeller.now.own (term_model argument.now) l subprogram.now.types of)) }
{
    let place = first_place(argument);
    let Some(parameter) = subprogram.profile.parameters.as_slice().get(position) else {
        return actuals.add(None, Err(nothing_fits(place)));
    };
    let (types, subtype) = (&subprogram.types, &parameter.subtype);
    let range = range_in(&labeller.predefined.standard, types, subtype);
    let base = &subtype.base;
    let value = read_operand(labeller, argument, place, label, types, base)?;
    let is_variable = variable_at(labeller, argument, label);
    add_actual(actuals, parameter.mode, range, place, is_variable, value)
}

/// The components of an aggregate of this type.
#[cycle(reading)]
fn read_values(
    labeller: &Labeller,
    components: &[Term],
    types: &Types,
    at: &Symbol,
    label: &Labelled,
) -> Result<Values, NoMemory>
    ensures { IfOk result (λ v. values_model v ≡ values_read labeller.now.predefined labeller.now.own types.now at.now (label_of label.now) 0 no_parts (terms_of (map term_model components.now))) }
{
    let mut values = Values::none(labeller.alloc);
    let mut labels = operand_labels(label);
    for (position, component) in components.iter().enumerate() {
        let one = next_label(labels);
        read_value(labeller, component, position, types, at, one, &mut values)?;
        labels = labels_after(labels);
    }
    Ok(values)
}

/// The component of this position.
#[cycle(reading)]
fn read_value(
    labeller: &Labeller,
    component: &Term,
    position: usize,
    types: &Types,
    at: &Symbol,
    label: Option<&Labelled>,
    values: &mut Values,
) -> Result<(), NoMemory>
    ensures { OnOk result (values_model values.new ≡ component_with types.now at.now (option_map (λ l. label_of l.now) label.entry) position (values_model values.old) (first_place (term_model component.now)) (λ l of. reading labeller.now.predefined labeller.now.own (term_model component.now) l types.now of)) }
{
    let place = first_place(component);
    let standard = &labeller.predefined.standard;
    let Some(subtype) = component_of_type(standard, types, at, position) else {
        return values.add(None, Err(nothing_fits(place)));
    };
    let range = range_in(standard, types, subtype);
    let base = &subtype.base;
    let value = read_operand(labeller, component, place, label, types, base)?;
    add_value(values, range, value)
}
