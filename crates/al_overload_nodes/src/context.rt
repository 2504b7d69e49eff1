// What the terms of complete contexts are (ARM 8.6).
ghost use Rattle.std.specs.Prelude.{◌≡◌, IfOk, map};
ghost use Rattle.al_overload.specs.Counts.{label_of};
ghost use Rattle.al_base_fault.specs.Judging.{map_ok};
ghost use Rattle.al_overload.specs.Terms.{TermTree as terms};
ghost use Rattle.al_overload.specs.TermViews.{term_model, terms_of};
ghost use Rattle.al_view_typed.specs.ExpressionViews.{call_model, typed_model};
ghost use Rattle.al_overload_nodes.specs.Static.{static_term_checked};
ghost use Rattle.al_overload_nodes.specs.Contexts.{call_checked, call_read, stands_at, statement_checked, target_checked, term_checked, term_read};
ghost use Rattle.al_overload_nodes.specs.Views.{actuals_model, reading_model};

use crate::meaning::interpret;
use crate::reading::{read, read_actuals, read_inner};
use crate::staticness::{checked_as, expected_after};
use crate::variable::variable_as;
use crate::{Actuals, Labeller, Reading, checked, picked_subprogram, unless_variable};
use al_base::{NoMemory, Place};
use al_base_fault::{CheckResult, Fault, unless};
use al_overload::{
    Context, Labelled, Nominal, Predefined, Term, declared_under, first_place, interpret_term,
    nothing_fits,
};
use al_view::{SubprogramView, Symbol, Types, View};
use al_view_typed::{Typed, TypedCall};

/// The type that numbers alone have in a context: the one that it wants, or else the root type.
pub(crate) fn stands_at<'a>(predefined: &'a Predefined, context: &'a Context) -> &'a Symbol
    ensures { result.now ≡ stands_at predefined.now context.now }
{
    match context {
        Context::InitialValue(of) => &of.symbol,
        Context::NumberValue => &predefined.root,
        Context::PairOfBounds => &predefined.types.integer.symbol,
        Context::IntegerBound => &predefined.root,
        Context::BoundOf(of) => &of.symbol,
        Context::Condition => &predefined.types.boolean.symbol,
        Context::Selector => &predefined.root,
        Context::ChoiceOf(of) => &of.symbol,
        Context::Moment => &predefined.types.time.symbol,
        Context::PriorityValue => &predefined.types.integer.symbol,
        Context::Target => &predefined.root,
        Context::Source(of) => &of.symbol,
        Context::ProcedureCall => &predefined.root,
        Context::ReturnValue(of) => &of.symbol,
        Context::PutArgument => &predefined.root,
        Context::ImageArgument(of) => &of.symbol,
        Context::ConversionOperand(_) => &predefined.root,
        Context::QualifiedOperand(of) => &of.symbol,
    }
}

/// A context's term with what is known of its value: its labelled tree, or the first fault in it that isn't a static failure. That is E402
/// or E403 at its first token if it has no interpretation, or several; else the first fault of contexts inside it, and E604 of the whole.
/// An aggregate is allowed if a nominal subtype is given for it. The type that the context wants is among `types` or one that every unit
/// has.
/// # Errors
/// `NoMemory` if the allocator refuses memory.
pub fn read_term(
    labeller: &Labeller,
    context: &Context,
    allowed: &Option<Nominal>,
    types: &Types,
    term: &Term,
) -> Result<Reading, NoMemory>
    ensures { IfOk result (λ r. reading_model r ≡ term_read labeller.now.predefined labeller.now.own context.now allowed.now types.now (term_model term.now)) }
{
    let at = stands_at(&labeller.predefined, context);
    let meaning = interpret_term(labeller.alloc, &labeller.predefined, context, allowed, term)?;
    read_inner(labeller, term, meaning, types, at)
}

/// The labelled tree of a context's term, which is evaluated.
/// # Errors
/// `NoMemory` if the allocator refuses memory. The inner error is the first of the fault of `read_term` and E405 at the first token of a
/// static expression that has no value.
pub fn check_term(
    labeller: &Labeller,
    context: &Context,
    allowed: &Option<Nominal>,
    types: &Types,
    term: &Term,
) -> Result<CheckResult<Typed>, NoMemory>
    ensures { IfOk result (λ typed. map_ok typed_model typed ≡ term_checked labeller.now.predefined labeller.now.own context.now allowed.now types.now (term_model term.now)) }
{
    let reading = read_term(labeller, context, allowed, types, term)?;
    Ok(checked(reading))
}

/// The labelled tree of a context's term that must be static. `found` is the first fault in the prefixes of its attributes.
/// # Errors
/// `NoMemory` if the allocator refuses memory. The inner error is the first of that of `check_term` and E304 at the term's first token if
/// the term isn't static; E304 isn't reported if `found` is at that token.
pub fn check_static_term(
    labeller: &Labeller,
    context: &Context,
    types: &Types,
    found: Option<Fault>,
    term: &Term,
) -> Result<CheckResult<Typed>, NoMemory>
    ensures { IfOk result (λ typed. map_ok typed_model typed ≡ static_term_checked labeller.now.predefined labeller.now.own context.now types.now found (term_model term.now)) }
{
    let (alloc, predefined) = (labeller.alloc, &labeller.predefined);
    match interpret_term(alloc, predefined, context, &None, term)? {
        Ok(label) => {
            let reading = read(
                labeller,
                term,
                &label,
                types,
                stands_at(predefined, context),
            );
            drop(label);
            let place = first_place(term);
            Ok(checked_as(expected_after(place, found), place, reading?))
        }
        Err(fault) => Ok(Err(fault)),
    }
}

/// The target of an assignment.
/// # Errors
/// `NoMemory` if the allocator refuses memory. The inner error is the first of that of `check_term` and E406 at the first token of what is
/// no name of a variable.
pub fn check_target(
    labeller: &Labeller,
    types: &Types,
    term: &Term,
) -> Result<CheckResult<Typed>, NoMemory>
    ensures { IfOk result (λ typed. map_ok typed_model typed ≡ target_checked labeller.now.predefined labeller.now.own types.now (term_model term.now)) }
{
    match interpret(labeller, Context::Target, term)? {
        Ok(label) => {
            let predefined = &labeller.predefined;
            let reading = read(labeller, term, &label, types, &predefined.root);
            let is_variable = variable_as(&predefined.standard, term, &label);
            drop(label);
            let fault = unless_variable(is_variable, first_place(term));
            Ok(unless(fault, checked(reading?)))
        }
        Err(fault) => Ok(Err(fault)),
    }
}

fn call_checked(
    labeller: &Labeller,
    place: Place,
    subprogram: &SubprogramView,
    actuals: Actuals,
) -> Result<CheckResult<TypedCall>, NoMemory>
    ensures { IfOk result (λ call. map_ok call_model call ≡ call_checked labeller.now.own place subprogram.now (actuals_model actuals)) }
{
    let failure = actuals.failure;
    let call = labeller.call_made(place, subprogram, actuals)?;
    Ok(unless(failure, call))
}

fn read_call_of(
    labeller: &Labeller,
    name: &Term,
    arguments: &[Term],
    label: &Labelled,
) -> Result<CheckResult<TypedCall>, NoMemory>
    ensures { IfOk result (λ call. map_ok call_model call ≡ call_read labeller.now.predefined labeller.now.own (terms.AppliedTerm (term_model name.now) (terms_of (map term_model arguments.now))) (label_of label.now)) }
{
    let place = first_place(name);
    let Some(visible) = declared_under(name) else {
        return Ok(Err(nothing_fits(place)));
    };
    let standard = &labeller.predefined.standard;
    let Some(subprogram) = picked_subprogram(standard, visible, label) else {
        return Ok(Err(nothing_fits(place)));
    };
    let actuals = read_actuals(labeller, arguments, subprogram, label)?;
    call_checked(labeller, place, subprogram, actuals)
}

/// A call without actual parameters.
fn read_named_call(
    labeller: &Labeller,
    place: Place,
    visible: &[View],
    label: &Labelled,
) -> Result<CheckResult<TypedCall>, NoMemory>
    ensures { IfOk result (λ call. map_ok call_model call ≡ call_read labeller.now.predefined labeller.now.own (terms.NamedTerm place visible.now) (label_of label.now)) }
{
    let standard = &labeller.predefined.standard;
    match picked_subprogram(standard, visible, label) {
        Some(subprogram) => {
            call_checked(labeller, place, subprogram, Actuals::none(labeller.alloc))
        }
        None => Ok(Err(nothing_fits(place))),
    }
}

/// The call of a procedure or an entry with its labelling.
/// # Errors
/// `NoMemory` if the allocator refuses memory. The inner error is E402 at the first token if the labelling doesn't fit a call; else the
/// first of the static failures (E405) in the actual parameters and the error of `call_made`.
#[tactic(auto, using(crate::proofs::TermsSeen::terms_made))]
pub fn read_call(
    labeller: &Labeller,
    term: &Term,
    label: &Labelled,
) -> Result<CheckResult<TypedCall>, NoMemory>
    ensures { IfOk result (λ call. map_ok call_model call ≡ call_read labeller.now.predefined labeller.now.own (term_model term.now) (label_of label.now)) }
{
    match term {
        Term::Named { place, views } => {
            read_named_call(labeller, *place, views.as_slice(), label)
        }
        Term::Applied { name, arguments } => {
            read_call_of(labeller, name, arguments.as_slice(), label)
        }
        Term::Number { .. } => Ok(Err(nothing_fits(first_place(term)))),
        Term::Text { .. } => Ok(Err(nothing_fits(first_place(term)))),
        Term::Selected { .. } => Ok(Err(nothing_fits(first_place(term)))),
        Term::Bound { .. } => Ok(Err(nothing_fits(first_place(term)))),
        Term::Length { .. } => Ok(Err(nothing_fits(first_place(term)))),
        Term::Conversion { .. } => Ok(Err(nothing_fits(first_place(term)))),
        Term::Qualified { .. } => Ok(Err(nothing_fits(first_place(term)))),
        Term::Attribute { .. } => Ok(Err(nothing_fits(first_place(term)))),
        Term::Image { .. } => Ok(Err(nothing_fits(first_place(term)))),
        Term::Prefixed { .. } => Ok(Err(nothing_fits(first_place(term)))),
        Term::Infix { .. } => Ok(Err(nothing_fits(first_place(term)))),
        Term::Concatenation { .. } => Ok(Err(nothing_fits(first_place(term)))),
        Term::ShortCircuit { .. } => Ok(Err(nothing_fits(first_place(term)))),
        Term::Member { .. } => Ok(Err(nothing_fits(first_place(term)))),
        Term::RangeMember { .. } => Ok(Err(nothing_fits(first_place(term)))),
        Term::Group { .. } => Ok(Err(nothing_fits(first_place(term)))),
        Term::Aggregate { .. } => Ok(Err(nothing_fits(first_place(term)))),
        Term::Others { .. } => Ok(Err(nothing_fits(first_place(term)))),
        Term::Nothing { .. } => Ok(Err(nothing_fits(first_place(term)))),
    }
}

/// The call of a procedure or an entry as a statement.
/// # Errors
/// `NoMemory` if the allocator refuses memory. The inner error is E402 or E403 at its first token if it has no interpretation, or several;
/// else that of `read_call`.
pub fn check_call(labeller: &Labeller, term: &Term) -> Result<CheckResult<TypedCall>, NoMemory>
    ensures { IfOk result (λ call. map_ok call_model call ≡ statement_checked labeller.now.predefined labeller.now.own (term_model term.now)) }
{
    match interpret(labeller, Context::ProcedureCall, term)? {
        Ok(label) => {
            let call = read_call(labeller, term, &label);
            drop(label);
            call
        }
        Err(fault) => Ok(Err(fault)),
    }
}
