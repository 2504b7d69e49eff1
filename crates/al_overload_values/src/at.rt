// Expressions at their place, with what is wrong in their prefixes.
ghost use Rattle.std.specs.Prelude.{◌≡◌, IfOk};
ghost use Rattle.al_base_fault.specs.Judging.{both, map_ok};
ghost use Rattle.al_overload_lookup.specs.Keys.{denoted};
ghost use Rattle.al_overload_lookup.specs.Places.{first_place};
ghost use Rattle.al_overload_lookup.specs.Lookups.{asked_units};
ghost use Rattle.al_overload_values.specs.TextsAt.{bounds_with_at, context_with_at, joined, range_with, range_with_at, read_with, read_with_at, reading_with_model, term_with, term_with_at, term_with_model, terms_with_model};
ghost use Rattle.al_query.specs.Asked.{AsksOf, by_some_name};
ghost use Rattle.al_query.specs.Reads.{FromAnswers};
ghost use Rattle.al_tree.specs.DeclarationViews.{range_model};
ghost use Rattle.al_tree.specs.ExpressionViews.{expression_model};

use crate::text::text_fault;
use al_base::{NoMemory, Place, UnitKey};
use al_base_fault::{CheckResult, Fault, both, earlier, unless};
use al_overload::Term;
use al_overload_lookup::{Names, first_place, names};
use al_overload_nodes::Labeller;
use al_overload_readings::{Reading, one_range, read, term_of};
use al_query::{Answers, Recorder};
use al_scope::Scope;
use al_tree::{Expression, Range};
use al_view::SubtypeView;

fn term_with(
    labeller: &Labeller,
    names: &Names,
    at: Place,
    expression: &Expression,
) -> Result<CheckResult<(Term, Option<Fault>)>, NoMemory>
    ensures { IfOk result (λ checked. map_ok term_with_model checked ≡ term_with labeller.now.predefined labeller.now.own (denoted names.now) at (expression_model expression.now)) }
{
    let standard = &labeller.predefined.standard;
    match term_of(labeller.alloc, standard, names, expression)? {
        Ok(term) => match text_fault(labeller, names, at, None, expression) {
            Ok(fault) => Ok(Ok((term, fault))),
            Err(lack) => {
                drop(term);
                Err(lack)
            }
        },
        Err(fault) => Ok(Err(fault)),
    }
}

/// The term of an expression in a context that begins at `at`, with the first fault in the prefixes of its attributes; or E401 or E404 of
/// its names.
fn term_with_at<A: Answers>(
    labeller: &Labeller,
    scope: &Scope,
    packages: &[UnitKey],
    at: Place,
    expression: &Expression,
    recorder: &mut Recorder<A>,
) -> Result<CheckResult<(Term, Option<Fault>)>, NoMemory>
    ensures asked { recorder.new.asked ≡ recorder.old.asked }
    ensures answered { IfOk result (λ checked. FromAnswers recorder.old.log recorder.new.log (λ t. map_ok term_with_model checked ≡ term_with_at t scope.now packages.now labeller.now.predefined labeller.now.own at (expression_model expression.now))) }
    ensures asks { IfOk result (λ _. AsksOf (asked_units scope.now packages.now) by_some_name recorder.old.log recorder.new.log) }
{
    let names = names(labeller.alloc, scope, packages, expression, recorder)?;
    let checked = term_with(labeller, &names, at, expression)?;
    Ok(checked)
}

/// The term of an expression that is a context, with the first fault in the prefixes of its attributes.
/// # Errors
/// `NoMemory` if the allocator refuses memory. The inner error is E401 or E404 at the first of its names that isn't visible or isn't of the
/// right kind.
pub fn context_with_at<A: Answers>(
    labeller: &Labeller,
    scope: &Scope,
    packages: &[UnitKey],
    expression: &Expression,
    recorder: &mut Recorder<A>,
) -> Result<CheckResult<(Term, Option<Fault>)>, NoMemory>
    ensures asked { recorder.new.asked ≡ recorder.old.asked }
    ensures answered { IfOk result (λ checked. FromAnswers recorder.old.log recorder.new.log (λ t. map_ok term_with_model checked ≡ context_with_at t scope.now packages.now labeller.now.predefined labeller.now.own (expression_model expression.now))) }
    ensures asks { IfOk result (λ _. AsksOf (asked_units scope.now packages.now) by_some_name recorder.old.log recorder.new.log) }
{
    let at = first_place(expression);
    let checked = term_with_at(labeller, scope, packages, at, expression, recorder)?;
    Ok(checked)
}

/// The terms of two bounds with what was found in both.
fn joined(
    bounds: CheckResult<((Term, Option<Fault>), (Term, Option<Fault>))>,
) -> CheckResult<((Term, Term), Option<Fault>)>
    ensures { map_ok terms_with_model result ≡ map_ok joined (map_ok (λ b. (term_with_model b.0, term_with_model b.1)) bounds) }
{
    match bounds {
        Ok(((low, one), (high, two))) => Ok(((low, high), earlier(one, two))),
        Err(fault) => Err(fault),
    }
}

/// The terms of two bounds, which are one context, with the first fault in the prefixes of their attributes.
/// # Errors
/// `NoMemory` if the allocator refuses memory. The inner error is E401 or E404 at the first of their names that isn't visible or isn't of
/// the right kind.
pub fn bounds_with_at<A: Answers>(
    labeller: &Labeller,
    scope: &Scope,
    packages: &[UnitKey],
    range: &Range,
    recorder: &mut Recorder<A>,
) -> Result<CheckResult<((Term, Term), Option<Fault>)>, NoMemory>
    ensures asked { recorder.new.asked ≡ recorder.old.asked }
    ensures answered { IfOk result (λ checked. FromAnswers recorder.old.log recorder.new.log (λ t. map_ok terms_with_model checked ≡ bounds_with_at t scope.now packages.now labeller.now.predefined labeller.now.own (range_model range.now))) }
    ensures asks { IfOk result (λ _. AsksOf (asked_units scope.now packages.now) by_some_name recorder.old.log recorder.new.log) }
{
    let at = first_place(&range.low);
    let low = term_with_at(labeller, scope, packages, at, &range.low, recorder)?;
    let high = term_with_at(labeller, scope, packages, at, &range.high, recorder)?;
    Ok(joined(both(low, high)))
}

fn read_with(
    labeller: &Labeller,
    names: &Names,
    at: Place,
    expression: &Expression,
) -> Result<CheckResult<(Reading, Option<Fault>)>, NoMemory>
    ensures { IfOk result (λ checked. map_ok reading_with_model checked ≡ read_with labeller.now.predefined labeller.now.own (denoted names.now) at (expression_model expression.now)) }
{
    let standard = &labeller.predefined.standard;
    match read(labeller.alloc, standard, names, expression)? {
        Ok(reading) => match text_fault(labeller, names, at, None, expression) {
            Ok(fault) => Ok(Ok((reading, fault))),
            Err(lack) => {
                drop(reading);
                Err(lack)
            }
        },
        Err(fault) => Ok(Err(fault)),
    }
}

/// What an expression that is a context may be, until what is round it is known, with the first fault in the prefixes of its attributes.
/// # Errors
/// `NoMemory` if the allocator refuses memory. The inner error is E401 or E404 at the first of its names that isn't visible or isn't of the
/// right kind.
pub fn read_with_at<A: Answers>(
    labeller: &Labeller,
    scope: &Scope,
    packages: &[UnitKey],
    expression: &Expression,
    recorder: &mut Recorder<A>,
) -> Result<CheckResult<(Reading, Option<Fault>)>, NoMemory>
    ensures asked { recorder.new.asked ≡ recorder.old.asked }
    ensures answered { IfOk result (λ checked. FromAnswers recorder.old.log recorder.new.log (λ t. map_ok reading_with_model checked ≡ read_with_at t scope.now packages.now labeller.now.predefined labeller.now.own (expression_model expression.now))) }
    ensures asks { IfOk result (λ _. AsksOf (asked_units scope.now packages.now) by_some_name recorder.old.log recorder.new.log) }
{
    let names = names(labeller.alloc, scope, packages, expression, recorder)?;
    let checked = read_with(labeller, &names, first_place(expression), expression)?;
    Ok(checked)
}

fn range_with(
    labeller: &Labeller,
    names: &Names,
    at: Place,
    expression: &Expression,
) -> Result<CheckResult<SubtypeView>, NoMemory>
    ensures { IfOk result (λ range. range ≡ range_with labeller.now.predefined labeller.now.own (denoted names.now) at (expression_model expression.now)) }
{
    let standard = &labeller.predefined.standard;
    match one_range(labeller.alloc, standard, names, expression)? {
        Ok(subtype) => match text_fault(labeller, names, at, None, expression) {
            Ok(fault) => Ok(unless(fault, Ok(subtype))),
            Err(lack) => {
                drop(subtype);
                Err(lack)
            }
        },
        Err(fault) => Ok(Err(fault)),
    }
}

/// The subtype of a range by itself, a mark or a Range attribute, at a place (ARM 3.5, 3.6.1).
/// # Errors
/// `NoMemory` if the allocator refuses memory. The inner error is E401 or E404 of a name in it, E404 at the first token of what is neither,
/// or else the first fault in the prefixes of its attributes.
pub fn range_with_at<A: Answers>(
    labeller: &Labeller,
    scope: &Scope,
    packages: &[UnitKey],
    expression: &Expression,
    recorder: &mut Recorder<A>,
) -> Result<CheckResult<SubtypeView>, NoMemory>
    ensures asked { recorder.new.asked ≡ recorder.old.asked }
    ensures answered { IfOk result (λ range. FromAnswers recorder.old.log recorder.new.log (λ t. range ≡ range_with_at t scope.now packages.now labeller.now.predefined labeller.now.own (expression_model expression.now))) }
    ensures asks { IfOk result (λ _. AsksOf (asked_units scope.now packages.now) by_some_name recorder.old.log recorder.new.log) }
{
    let names = names(labeller.alloc, scope, packages, expression, recorder)?;
    let range = range_with(labeller, &names, first_place(expression), expression)?;
    Ok(range)
}
