// What a term means in its complete context (ARM 8.6).
ghost use Rattle.std.specs.Prelude.{◌≡◌, IfOk};
ghost use Rattle.al_overload.specs.Counts.{label_of, plain};
ghost use Rattle.al_base_fault.specs.Judging.{map_ok};
ghost use Rattle.al_overload.specs.TermViews.{term_model};
ghost use Rattle.al_overload.specs.HeadsHeads.{bounds_head};
ghost use Rattle.al_overload.specs.Interpreting.{bounds_interpreted, interpreted, numbers_in};

use crate::everywhere::Predefined;
use crate::heads_head::{bounds_head, head_of};
use crate::part::Nominal;
use crate::{Context, Expression, Labelled, Term, first_place, resolve, wanted_in};
use al_base::NoMemory;
use al_base_fault::CheckResult;
use std::alloc::Global;

/// What the term of a complete context means: its one acceptable interpretation. An aggregate is allowed if a nominal subtype is given for
/// it.
/// # Errors
/// `NoMemory` if the allocator refuses memory. The inner error is E402 at the term's first token if it has no acceptable interpretation,
/// and E403 there if it has several.
pub fn interpret_term(
    alloc: Global,
    predefined: &Predefined,
    context: &Context,
    allowed: &Option<Nominal>,
    term: &Term,
) -> Result<CheckResult<Labelled>, NoMemory>
    ensures { IfOk result (λ checked. map_ok label_of checked ≡ interpreted predefined.now context.now allowed.now (term_model term.now)) }
{
    let head = head_of(alloc, predefined, allowed, term)?;
    let expected = wanted_in(alloc, &predefined.types, context)?;
    resolve(alloc, first_place(term), None, &head, &expected)
}

/// A pair of bounds as a head. If both are numbers alone, they are of the type that is wanted of them, or else of Integer.
fn bounds_in(
    alloc: Global,
    predefined: &Predefined,
    context: &Context,
    low: &Term,
    high: &Term,
) -> Result<Expression, NoMemory>
    ensures { IfOk result (λ head. plain head ≡ bounds_head predefined.now (numbers_in predefined.now context.now) (term_model low.now) (term_model high.now)) }
{
    let integer = &predefined.types.integer;
    match context {
        Context::InitialValue(_) => bounds_head(alloc, predefined, integer, low, high),
        Context::NumberValue => bounds_head(alloc, predefined, integer, low, high),
        Context::PairOfBounds => bounds_head(alloc, predefined, integer, low, high),
        Context::IntegerBound => bounds_head(alloc, predefined, integer, low, high),
        Context::BoundOf(of) => bounds_head(alloc, predefined, of, low, high),
        Context::Condition => bounds_head(alloc, predefined, integer, low, high),
        Context::Selector => bounds_head(alloc, predefined, integer, low, high),
        Context::ChoiceOf(of) => bounds_head(alloc, predefined, of, low, high),
        Context::Moment => bounds_head(alloc, predefined, integer, low, high),
        Context::PriorityValue => bounds_head(alloc, predefined, integer, low, high),
        Context::Target => bounds_head(alloc, predefined, integer, low, high),
        Context::Source(_) => bounds_head(alloc, predefined, integer, low, high),
        Context::ProcedureCall => bounds_head(alloc, predefined, integer, low, high),
        Context::ReturnValue(_) => bounds_head(alloc, predefined, integer, low, high),
        Context::PutArgument => bounds_head(alloc, predefined, integer, low, high),
        Context::ImageArgument(_) => bounds_head(alloc, predefined, integer, low, high),
        Context::ConversionOperand(_) => bounds_head(alloc, predefined, integer, low, high),
        Context::QualifiedOperand(_) => bounds_head(alloc, predefined, integer, low, high),
    }
}

/// What a pair of bounds means in its complete context. Both have one type.
/// # Errors
/// `NoMemory` if the allocator refuses memory. The inner error is E402 at the first token of the low bound if the pair has no acceptable
/// interpretation, and E403 there if it has several.
pub fn interpret_bounds(
    alloc: Global,
    predefined: &Predefined,
    context: &Context,
    low: &Term,
    high: &Term,
) -> Result<CheckResult<Labelled>, NoMemory>
    ensures { IfOk result (λ checked. map_ok label_of checked ≡ bounds_interpreted predefined.now context.now (term_model low.now) (term_model high.now)) }
{
    let head = bounds_in(alloc, predefined, context, low, high)?;
    let expected = wanted_in(alloc, &predefined.types, context)?;
    resolve(alloc, first_place(low), None, &head, &expected)
}
