// The type that an expression has by itself.
ghost use Rattle.std.specs.Prelude.{◌≡◌, ◌&&◌, option_map};
ghost use Rattle.std.specs.Option.{option_and_then, option_or};
ghost use Rattle.al_overload.specs.Counts.{label_of};
ghost use Rattle.al_overload.specs.Parts.{declared_under, nominal, part_of};
ghost use Rattle.al_overload.specs.Universal.{computes_one, computes_two, is_universal};
ghost use Rattle.al_overload_nodes.specs.Operators.{root_result};
ghost use Rattle.al_overload.specs.TermViews.{term_model};
ghost use Rattle.al_overload_nodes.specs.Seen.{told_model};
ghost use Rattle.al_overload_nodes.specs.FromAnswers.{among, attribute_type, everywhere, mark_told, operand_type, operator_type, pair_type, part_type, range_type, result_of, test_type, type_of_view, type_picked, type_told, types_in};

use crate::{Labeller, picked_subprogram, root_result};
use al_overload::{
    Labelled, Term, computes_one, computes_two, declared_under, is_position, is_root_in,
    is_sole_number, number_in, operand_label, part_of, pick,
};
use al_view::{SubprogramView, Subtype, SubtypeView, Symbol, Types, View, ViewKind};
use al_view_predefined::StandardTypes;
use al_view_typed::{BinaryOperator, Conversion, UnaryOperator};

/// Whether a term is of numbers alone (ARM 3.4.1(7)). Right operands are examined first, and left ones by a loop: chains of operators lean
/// to the left.
#[tactic(auto, using(crate::proofs::TermsSeen::terms_made, crate::proofs::Booleans::and_false, crate::proofs::Booleans::and_true))]
fn is_universal(term: &Term) -> bool
    ensures { result ≡ is_universal (term_model term.now) }
{
    let mut rest = term;
    loop {
        rest = match rest {
            Term::Infix {
                operator,
                left,
                right,
                ..
            } => {
                if !computes_two(*operator) {
                    return false;
                }
                if !is_universal(right) {
                    return false;
                }
                left
            }
            Term::Prefixed {
                operator,
                operand,
                ..
            } => {
                if !computes_one(*operator) {
                    return false;
                }
                operand
            }
            Term::Group { place: _, inner } => inner,
            Term::Named { place: _, views } => return is_sole_number(views.as_slice()),
            Term::Attribute { conversion, .. } => return is_position(*conversion),
            Term::Number { .. } | Term::Length { .. } => return true,
            Term::Text { .. } | Term::Image { .. } => return false,
            Term::Selected { .. } | Term::Applied { .. } => return false,
            Term::Conversion { .. } | Term::Qualified { .. } => return false,
            Term::Member { .. } | Term::RangeMember { .. } => return false,
            Term::Aggregate { .. } | Term::Others { .. } => return false,
            Term::Bound { .. } => return false,
            Term::Concatenation { .. } => return false,
            Term::ShortCircuit { .. } => return false,
            Term::Nothing { .. } => return false,
        };
    }
}

/// The type that an expression has by itself, and the types among which it is; none if it is one that every unit has.
#[derive(Drop)]
pub struct DeterminedType<'a> {
    /// The type.
    pub of: &'a Symbol,
    /// The types among which it is, or none if every unit has it.
    pub types: Option<&'a Types>,
}

/// A type that is among these.
pub fn among<'a>(types: &'a Types, of: &'a Symbol) -> DeterminedType<'a>
    ensures { told_model result ≡ among types.now of.now }
{
    DeterminedType {
        of,
        types: Some(types),
    }
}

/// A type that every unit has.
pub fn everywhere(of: &Symbol) -> DeterminedType<'_>
    ensures { told_model result ≡ everywhere of.now }
{
    DeterminedType { of, types: None }
}

fn result_of(subprogram: &SubprogramView) -> Option<DeterminedType<'_>>
    ensures { option_map told_model result ≡ result_of subprogram.now }
{
    match &subprogram.profile.result {
        Some(of) => Some(among(&subprogram.types, &of.base)),
        None => None,
    }
}

fn type_of_view(view: &ViewKind, _candidate: usize) -> Option<DeterminedType<'_>>
    ensures { option_map told_model result ≡ type_of_view (view.now, _candidate) }
{
    match view {
        ViewKind::OfObject(object) => Some(among(&object.types, &object.subtype.base)),
        ViewKind::OfLiteral(literal) => Some(among(&literal.types, &literal.base)),
        ViewKind::OfSubprogram(subprogram) => result_of(subprogram),
        ViewKind::OfNumber(_) => None,
        ViewKind::OfComponent => None,
        ViewKind::OfType(_) => None,
        ViewKind::OfSubtype(_) => None,
        ViewKind::OfTask(_) => None,
        ViewKind::OfProtected(_) => None,
        ViewKind::OfPackage(_) => None,
    }
}

fn type_picked<'a>(
    standard: &StandardTypes,
    label: &Labelled,
    visible: &'a [View],
) -> Option<DeterminedType<'a>>
    ensures { option_map told_model result ≡ type_picked (label_of label.now) visible.now }
{
    let (view, candidate) = pick(standard, number_in(label), visible)?;
    type_of_view(view, candidate)
}

/// The type of an object or of a part of one.
fn part_type<'a>(part: Option<(&'a Subtype, &'a Types)>) -> Option<DeterminedType<'a>>
    ensures { option_map told_model result ≡ part_type (option_map (λ p. nominal p.1.now p.0.now) part.entry) }
{
    match part {
        Some((subtype, types)) => Some(among(types, &subtype.base)),
        None => None,
    }
}

fn mark_told(mark: &SubtypeView) -> DeterminedType<'_>
    ensures { told_model result ≡ mark_told mark.now }
{
    among(&mark.types, &mark.subtype.base)
}

fn attribute_type(conversion: Conversion, mark: &SubtypeView) -> Option<DeterminedType<'_>>
    ensures { option_map told_model result ≡ attribute_type conversion mark.now }
{
    match conversion {
        Conversion::Pos => None,
        Conversion::Val => Some(mark_told(mark)),
        Conversion::Succ => Some(mark_told(mark)),
        Conversion::Pred => Some(mark_told(mark)),
        Conversion::ToType => Some(mark_told(mark)),
        Conversion::Qualification => Some(mark_told(mark)),
        Conversion::Milliseconds => Some(mark_told(mark)),
    }
}

/// The type of what an operator gives, if the root type's operator gives this.
fn operator_type<'a>(
    standard: &StandardTypes,
    root_result: &'a Symbol,
    visible: &'a [View],
    of_numbers: bool,
    label: &Labelled,
) -> Option<DeterminedType<'a>>
    ensures { option_map told_model result ≡ operator_type root_result.now visible.now of_numbers (label_of label.now) }
{
    if of_numbers {
        return None;
    }
    if is_root_in(label) {
        return Some(everywhere(root_result));
    }
    match picked_subprogram(standard, visible, label) {
        Some(subprogram) => result_of(subprogram),
        None => None,
    }
}

/// The type of an operator before this operand.
fn prefixed_type<'a>(
    labeller: &'a Labeller,
    operator: UnaryOperator,
    visible: &'a [View],
    operand: &Term,
    label: &Labelled,
) -> Option<DeterminedType<'a>>
    ensures { option_map told_model result ≡ operator_type labeller.now.predefined.root visible.now (computes_one operator && is_universal (term_model operand.now)) (label_of label.now) }
{
    let of_numbers = is_computed(operator, operand);
    let (standard, root) = (&labeller.predefined.standard, &labeller.predefined.root);
    operator_type(standard, root, visible, of_numbers, label)
}

/// The type of an operator between these operands.
fn infix_type<'a>(
    labeller: &'a Labeller,
    operator: BinaryOperator,
    visible: &'a [View],
    left: &Term,
    right: &Term,
    label: &Labelled,
) -> Option<DeterminedType<'a>>
    ensures { option_map told_model result ≡ operator_type (root_result labeller.now.predefined operator) visible.now (computes_two operator && (is_universal (term_model left.now) && is_universal (term_model right.now))) (label_of label.now) }
{
    let of_numbers = are_universal(operator, left, right);
    let standard = &labeller.predefined.standard;
    let root = root_result(&labeller.predefined, operator);
    operator_type(standard, root, visible, of_numbers, label)
}

/// The type of what comes after a name.
fn applied_type<'a>(
    standard: &'a StandardTypes,
    whole: &'a Term,
    prefix: &'a Term,
    label: &Labelled,
) -> Option<DeterminedType<'a>>
    ensures { option_map told_model result ≡ option_or (part_type (part_of (term_model whole.now))) (option_and_then (type_picked (label_of label.now)) (declared_under (term_model prefix.now))) }
{
    match part_type(part_of(standard, whole)) {
        Some(of) => Some(of),
        None => match declared_under(prefix) {
            Some(visible) => type_picked(standard, label, visible),
            None => None,
        },
    }
}

/// The type that an expression has by itself: none if it is of numbers alone, an aggregate or text.
#[tactic(auto, using(crate::proofs::TermsSeen::terms_made))]
pub fn type_told<'a>(
    labeller: &'a Labeller,
    term: &'a Term,
    label: &Labelled,
) -> Option<DeterminedType<'a>>
    ensures { option_map told_model result ≡ type_told labeller.now.predefined (term_model term.now) (label_of label.now) }
{
    let standard = &labeller.predefined.standard;
    let boolean = &labeller.predefined.types.boolean.symbol;
    match term {
        Term::Named { place: _, views } => type_picked(standard, label, views.as_slice()),
        Term::Selected { .. } => part_type(part_of(standard, term)),
        Term::Applied { name, .. } => applied_type(standard, term, name, label),
        Term::Bound { subtype, .. } => Some(mark_told(subtype)),
        Term::Conversion { subtype, .. } => Some(mark_told(subtype)),
        Term::Qualified { subtype, .. } => Some(mark_told(subtype)),
        Term::Attribute {
            conversion,
            subtype,
            ..
        } => attribute_type(*conversion, subtype),
        Term::Prefixed {
            operator,
            views,
            operand,
            ..
        } => prefixed_type(labeller, *operator, views.as_slice(), operand, label),
        Term::Infix {
            operator,
            views,
            left,
            right,
        } => infix_type(labeller, *operator, views.as_slice(), left, right, label),
        Term::ShortCircuit { .. } => Some(everywhere(boolean)),
        Term::Member { .. } => Some(everywhere(boolean)),
        Term::RangeMember { .. } => Some(everywhere(boolean)),
        Term::Group { place: _, inner } => type_told(labeller, inner, label),
        Term::Number { .. } => None,
        Term::Text { .. } => None,
        Term::Length { .. } => None,
        Term::Image { .. } => None,
        Term::Concatenation { .. } => None,
        Term::Aggregate { .. } => None,
        Term::Others { .. } => None,
        Term::Nothing { .. } => None,
    }
}

/// Whether a prefix operator and its operand are numbers alone.
pub fn is_computed(operator: UnaryOperator, operand: &Term) -> bool
    ensures { result ≡ (computes_one operator && is_universal (term_model operand.now)) }
{
    computes_one(operator) && is_universal(operand)
}

/// Whether an operator and its operands are numbers alone.
#[tactic(auto, using(crate::proofs::Booleans::and_false, crate::proofs::Booleans::and_true))]
pub fn are_universal(operator: BinaryOperator, left: &Term, right: &Term) -> bool
    ensures { result ≡ (computes_two operator && (is_universal (term_model left.now) && is_universal (term_model right.now))) }
{
    computes_two(operator) && is_universal(right) && is_universal(left)
}

fn operand_type<'a>(
    labeller: &'a Labeller,
    operand: &'a Term,
    label: Option<&Labelled>,
) -> Option<DeterminedType<'a>>
    ensures { option_map told_model result ≡ operand_type labeller.now.predefined (term_model operand.now) (option_map (λ l. label_of l.now) label.entry) }
{
    match label {
        Some(label) => type_told(labeller, operand, label),
        None => None,
    }
}

/// The types among which it is. If every unit has it, those that are known here.
pub fn types_in<'a>(known: &'a Types, determined: &DeterminedType<'a>) -> &'a Types
    ensures { result.now ≡ types_in known.now (told_model determined.now) }
{
    match determined.types {
        Some(types) => types,
        None => known,
    }
}

/// The type of the operands of a membership test: that of the first operand that has one by itself; Integer if all are of numbers alone.
pub fn test_type<'a>(
    labeller: &'a Labeller,
    value: &'a Term,
    low: &'a Term,
    high: &'a Term,
    label: &Labelled,
) -> DeterminedType<'a>
    ensures { told_model result ≡ test_type labeller.now.predefined (term_model value.now) (term_model low.now) (term_model high.now) (label_of label.now) }
{
    if let Some(of) = operand_type(labeller, value, operand_label(label, 0)) {
        return of;
    }
    if let Some(of) = operand_type(labeller, low, operand_label(label, 1)) {
        return of;
    }
    if let Some(of) = operand_type(labeller, high, operand_label(label, 2)) {
        return of;
    }
    everywhere(&labeller.predefined.types.integer.symbol)
}

/// The type of a pair of bounds: that of the first bound that has one by itself, or the given one if both are of numbers alone.
pub fn pair_type<'a>(
    labeller: &'a Labeller,
    otherwise: DeterminedType<'a>,
    low: &'a Term,
    high: &'a Term,
    label: &Labelled,
) -> DeterminedType<'a>
    ensures { told_model result ≡ pair_type labeller.now.predefined (told_model otherwise.entry) (term_model low.now) (term_model high.now) (label_of label.now) }
{
    if let Some(of) = operand_type(labeller, low, operand_label(label, 0)) {
        return of;
    }
    if let Some(of) = operand_type(labeller, high, operand_label(label, 1)) {
        return of;
    }
    otherwise
}

/// The type of a range: Integer for a range of the root type (ARM 3.6(18)).
pub fn range_type<'a>(labeller: &'a Labeller, determined: DeterminedType<'a>) -> DeterminedType<'a>
    ensures { told_model result ≡ range_type labeller.now.predefined (told_model determined.entry) }
{
    if determined.of.is(&labeller.predefined.root) {
        return everywhere(&labeller.predefined.types.integer.symbol);
    }
    determined
}
