// The heads of constructs whose operands are built already.
ghost use Rattle.std.specs.Prelude.{◌≡◌, ◌&&◌, [], true, false, IfOk};
ghost use Rattle.std.specs.Option.{option_and_then};
ghost use Rattle.al_overload.specs.Counts.{plain, plain_all};
ghost use Rattle.al_overload.specs.Labelling.{Node, NoTree};
ghost use Rattle.al_overload.specs.Ranges.{alike};
ghost use Rattle.al_overload.specs.declared.types.Given.TheVariants as g;
ghost use Rattle.al_overload.specs.Heads.{all_candidates};
ghost use Rattle.al_overload.specs.Aggregates.{operation, others, positional};
ghost use Rattle.al_overload.specs.HeadsHeads.{attribute, concatenation, infixed, mark_given, possible, prefixed, short_circuit, sole};
ghost use Rattle.al_overload.specs.Universal.{computes_one, computes_two, is_position, is_sole_number};

use crate::aggregate::{others, positional};
use crate::computing::{
    binary_roots, computes_one, computes_two, is_position, is_sole_number, unary_roots,
};
use crate::everywhere::Predefined;
use crate::heads_candidate::{
    attribute, concatenation, giving, mark_given, of_one, of_two, possible, short_circuit,
};
use crate::part::Nominal;
use crate::{Expected, Expression, Given, Operands, all_of, operator, sole};
use al_base::NoMemory;
use al_view::{SubtypeView, View};
use al_view_typed::{BinaryOperator, Conversion, UnaryOperator};
use std::alloc::Global;

/// A head, and whether it is of numbers alone.
#[derive(Drop)]
pub(crate) struct Built {
    pub expression: Expression,
    pub is_universal: bool,
}

/// Operands, and whether all are of numbers alone.
#[derive(Drop)]
pub(crate) struct BuiltOperands {
    pub operands: Operands,
    pub are_universal: bool,
}

pub(crate) fn other(expression: Expression) -> Built
    ensures expression { result.expression ≡ expression }
    ensures universal { result.is_universal ≡ false }
{
    Built {
        expression,
        is_universal: false,
    }
}

/// The head of a number.
pub(crate) fn number(alloc: Global) -> Result<Built, NoMemory>
    ensures head { IfOk result (λ b. plain b.expression ≡ sole (operation [] g.Universal) NoTree) }
    ensures universal { IfOk result (λ b. b.is_universal ≡ true) }
{
    let expression = sole(alloc, giving(alloc, Given::Universal), Operands::none())?;
    Ok(Built {
        expression,
        is_universal: true,
    })
}

/// The head of text that is put out.
pub(crate) fn text(alloc: Global) -> Result<Built, NoMemory>
    ensures head { IfOk result (λ b. plain b.expression ≡ sole (operation [] g.Text) NoTree) }
    ensures universal { IfOk result (λ b. b.is_universal ≡ false) }
{
    let expression = sole(alloc, giving(alloc, Given::Text), Operands::none())?;
    Ok(other(expression))
}

/// The head of a value of the mark's type.
pub(crate) fn value(
    alloc: Global,
    predefined: &Predefined,
    mark: &SubtypeView,
) -> Result<Built, NoMemory>
    ensures head { IfOk result (λ b. plain b.expression ≡ sole (operation [] (mark_given mark.now)) NoTree) }
    ensures universal { IfOk result (λ b. b.is_universal ≡ false) }
{
    let given = mark_given(alloc, predefined, mark)?;
    let expression = sole(alloc, giving(alloc, given), Operands::none())?;
    Ok(other(expression))
}

/// The head of a name with nothing after it.
pub(crate) fn named(
    alloc: Global,
    predefined: &Predefined,
    visible: &[View],
) -> Result<Built, NoMemory>
    ensures head { IfOk result (λ b. plain b.expression ≡ all_candidates predefined.now.root visible.now NoTree) }
    ensures universal { IfOk result (λ b. b.is_universal ≡ is_sole_number visible.now) }
{
    let standard = &predefined.standard;
    let operands = Operands::none();
    let expression = all_of(alloc, standard, &predefined.root, visible, operands)?;
    Ok(Built {
        expression,
        is_universal: is_sole_number(visible),
    })
}

pub(crate) fn attributed(
    alloc: Global,
    predefined: &Predefined,
    conversion: Conversion,
    mark: &SubtypeView,
    argument: BuiltOperands,
) -> Result<Built, NoMemory>
    ensures head { IfOk result (λ b. plain b.expression ≡ possible (attribute conversion mark.now) (plain_all argument.operands)) }
    ensures universal { IfOk result (λ b. b.is_universal ≡ is_position conversion) }
{
    let candidate = attribute(alloc, predefined, conversion, mark)?;
    let expression = possible(alloc, candidate, argument.operands)?;
    Ok(Built {
        expression,
        is_universal: is_position(conversion),
    })
}

pub(crate) fn prefixed(
    alloc: Global,
    predefined: &Predefined,
    sign: UnaryOperator,
    visible: &[View],
    operand: BuiltOperands,
) -> Result<Built, NoMemory>
    ensures head { IfOk result (λ b. plain b.expression ≡ prefixed predefined.now sign visible.now operand.are_universal (plain_all operand.operands)) }
    ensures universal { IfOk result (λ b. b.is_universal ≡ (computes_one sign && operand.are_universal)) }
{
    if computes_one(sign) && operand.are_universal {
        let candidate = of_one(alloc, Expected::AnyInteger, Given::Universal)?;
        let expression = sole(alloc, candidate, operand.operands)?;
        return Ok(Built {
            expression,
            is_universal: true,
        });
    }
    let (standard, root) = (&predefined.standard, &predefined.root);
    let roots = unary_roots(predefined, sign);
    let expression = operator(alloc, standard, root, visible, roots, operand.operands)?;
    Ok(other(expression))
}

pub(crate) fn infixed(
    alloc: Global,
    predefined: &Predefined,
    sign: BinaryOperator,
    visible: &[View],
    operands: BuiltOperands,
) -> Result<Built, NoMemory>
    ensures head { IfOk result (λ b. plain b.expression ≡ infixed predefined.now sign visible.now operands.are_universal (plain_all operands.operands)) }
    ensures universal { IfOk result (λ b. b.is_universal ≡ (computes_two sign && operands.are_universal)) }
{
    if computes_two(sign) && operands.are_universal {
        let number = Given::Universal;
        let candidate = of_two(alloc, Expected::AnyInteger, Expected::AnyInteger, number)?;
        let expression = sole(alloc, candidate, operands.operands)?;
        return Ok(Built {
            expression,
            is_universal: true,
        });
    }
    let (standard, root) = (&predefined.standard, &predefined.root);
    let roots = binary_roots(predefined, sign);
    let expression = operator(alloc, standard, root, visible, roots, operands.operands)?;
    Ok(other(expression))
}

/// The head of `left & right`.
pub(crate) fn concatenated(alloc: Global, operands: Operands) -> Result<Built, NoMemory>
    ensures head { IfOk result (λ b. plain b.expression ≡ sole concatenation (plain_all operands)) }
    ensures universal { IfOk result (λ b. b.is_universal ≡ false) }
{
    let expression = sole(alloc, concatenation(alloc)?, operands)?;
    Ok(other(expression))
}

/// The head of `left and then right` or `left or else right`.
pub(crate) fn short_circuited(
    alloc: Global,
    predefined: &Predefined,
    operands: Operands,
) -> Result<Built, NoMemory>
    ensures head { IfOk result (λ b. plain b.expression ≡ sole (short_circuit predefined.now) (plain_all operands)) }
    ensures universal { IfOk result (λ b. b.is_universal ≡ false) }
{
    let expression = sole(alloc, short_circuit(alloc, predefined)?, operands)?;
    Ok(other(expression))
}

/// The head of `value [not] in low .. high`.
pub(crate) fn range_member(
    alloc: Global,
    predefined: &Predefined,
    operands: Operands,
) -> Result<Built, NoMemory>
    ensures head { IfOk result (λ b. plain b.expression ≡ alike predefined.now.root predefined.now.types.integer (Some predefined.now.types.boolean) (plain_all operands)) }
    ensures universal { IfOk result (λ b. b.is_universal ≡ false) }
{
    let always = Some(predefined.types.boolean.copy(alloc)?);
    let integer = &predefined.types.integer;
    let expression = Expression::alike(alloc, operands, &always, integer, &predefined.root)?;
    Ok(other(expression))
}

/// The head of a positional aggregate of this many values.
pub(crate) fn aggregate(
    alloc: Global,
    predefined: &Predefined,
    allowed: &Option<Nominal>,
    count: usize,
    values: Operands,
) -> Result<Built, NoMemory>
    ensures head { IfOk result (λ b. plain b.expression ≡ possible (option_and_then (positional count) allowed.now) (plain_all values)) }
    ensures universal { IfOk result (λ b. b.is_universal ≡ false) }
{
    let candidate = positional(alloc, &predefined.standard, count, allowed)?;
    let expression = possible(alloc, candidate, values)?;
    Ok(other(expression))
}

/// The head of an aggregate with `others`.
pub(crate) fn with_others(
    alloc: Global,
    predefined: &Predefined,
    allowed: &Option<Nominal>,
    value: Operands,
) -> Result<Built, NoMemory>
    ensures head { IfOk result (λ b. plain b.expression ≡ possible (option_and_then others allowed.now) (plain_all value)) }
    ensures universal { IfOk result (λ b. b.is_universal ≡ false) }
{
    let candidate = others(alloc, &predefined.standard, allowed)?;
    let expression = possible(alloc, candidate, value)?;
    Ok(other(expression))
}

/// A head that nothing fits.
pub(crate) fn nothing(alloc: Global) -> Built
    ensures head { plain result.expression ≡ Node [] NoTree }
    ensures universal { result.is_universal ≡ false }
{
    other(Expression::new(alloc, Operands::none()))
}
