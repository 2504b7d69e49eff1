// What contexts inside others mean, and the type of a membership test's operands.
ghost use Rattle.std.specs.Prelude.{◌≡◌, IfOk, Some, None};
ghost use Rattle.al_overload.specs.Counts.{label_of};
ghost use Rattle.al_overload.specs.Interpreting.{interpreted};
ghost use Rattle.al_overload.specs.Parts.{nominal};
ghost use Rattle.al_base_fault.specs.Judging.{map_ok};
ghost use Rattle.al_overload.specs.declared.context.Context.TheVariants as contexts;
ghost use Rattle.al_overload.specs.TermViews.{term_model};
ghost use Rattle.al_overload_nodes.specs.Leaves.{mark_type};
ghost use Rattle.al_overload_nodes.specs.FromAnswers.{test_type, types_in};

use crate::{Labeller, conversion_context, nominal_of, qualified_context, test_type, types_in};
use al_base::NoMemory;
use al_base_fault::CheckResult;
use al_overload::{Context, Labelled, Nominal, Term, interpret_term};
use al_view::{SubtypeView, Symbol, Types};

/// What a term means in this context, where no aggregate is allowed.
pub(crate) fn interpret(
    labeller: &Labeller,
    context: Context,
    term: &Term,
) -> Result<CheckResult<Labelled>, NoMemory>
    ensures { IfOk result (λ checked. map_ok label_of checked ≡ interpreted labeller.now.predefined context None (term_model term.now)) }
{
    let (alloc, predefined) = (labeller.alloc, &labeller.predefined);
    let meaning = interpret_term(alloc, predefined, &context, &None, term);
    drop(context);
    meaning
}

/// What the operand of a conversion to this subtype means.
pub(crate) fn interpret_conversion(
    labeller: &Labeller,
    mark: &SubtypeView,
    operand: &Term,
) -> Result<CheckResult<Labelled>, NoMemory>
    ensures { IfOk result (λ checked. map_ok label_of checked ≡ interpreted labeller.now.predefined (contexts.ConversionOperand (mark_type mark.now)) None (term_model operand.now)) }
{
    let context = conversion_context(labeller, mark)?;
    interpret(labeller, context, operand)
}

/// What the operand of a qualified expression means in its context. An aggregate of this nominal subtype is allowed.
fn interpret_allowed(
    labeller: &Labeller,
    mark: &SubtypeView,
    allowed: &Option<Nominal>,
    operand: &Term,
) -> Result<CheckResult<Labelled>, NoMemory>
    ensures { IfOk result (λ checked. map_ok label_of checked ≡ interpreted labeller.now.predefined (contexts.QualifiedOperand (mark_type mark.now)) allowed.now (term_model operand.now)) }
{
    let context = qualified_context(labeller, mark)?;
    let (alloc, predefined) = (labeller.alloc, &labeller.predefined);
    let meaning = interpret_term(alloc, predefined, &context, allowed, operand);
    drop(context);
    meaning
}

/// What the operand of a qualified expression of this subtype means. An aggregate is allowed.
pub(crate) fn interpret_qualified(
    labeller: &Labeller,
    mark: &SubtypeView,
    operand: &Term,
) -> Result<CheckResult<Labelled>, NoMemory>
    ensures { IfOk result (λ checked. map_ok label_of checked ≡ interpreted labeller.now.predefined (contexts.QualifiedOperand (mark_type mark.now)) (Some (nominal mark.now.types mark.now.subtype)) (term_model operand.now)) }
{
    let allowed = nominal_of(labeller, mark)?;
    let meaning = interpret_allowed(labeller, mark, &allowed, operand);
    drop(allowed);
    meaning
}

/// The type of the operands of a membership test, and the types among which it is.
pub(crate) fn types_of_test<'a>(
    labeller: &'a Labeller,
    value: &'a Term,
    low: &'a Term,
    high: &'a Term,
    label: &Labelled,
    types: &'a Types,
) -> (&'a Types, &'a Symbol)
    ensures types { result.0.now ≡ types_in types.now (test_type labeller.now.predefined (term_model value.now) (term_model low.now) (term_model high.now) (label_of label.now)) }
    ensures of { result.1.now ≡ (test_type labeller.now.predefined (term_model value.now) (term_model low.now) (term_model high.now) (label_of label.now)).of }
{
    let determined = test_type(labeller, value, low, high, label);
    (types_in(types, &determined), determined.of)
}
