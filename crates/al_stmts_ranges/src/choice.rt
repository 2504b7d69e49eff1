// Choices of case statements (ARM 3.8.1, 5.4).
ghost use Rattle.std.specs.Prelude.{◌≡◌, IfOk, None, option_map};
ghost use Rattle.al_decl_judged.specs.StaticPieces.{static_of};
ghost use Rattle.al_base_fault.specs.Judging.{both, next, map_ok, unless};
ghost use Rattle.al_overload_lookup.specs.Places.{first_place};
ghost use Rattle.al_overload_nodes.specs.Static.{static_term_checked};
ghost use Rattle.al_overload_values.specs.TextsAt.{read_with_at, reading_with_model};
ghost use Rattle.al_query.specs.Asked.{AsksOf, by_some_name};
ghost use Rattle.al_query.specs.Reads.{FromAnswers};
ghost use Rattle.al_stmts_ranges.specs.ChoicesAt.{bounds_choice, choice_at, choice_context, discrete_choice, fitted_choice, mark_choice, marked_choice, one_value, range_choice, range_part, read_choice, static_choice, value_choice};
ghost use Rattle.al_overload_readings.specs.ReadingViews.{reading_model};
ghost use Rattle.al_overload.specs.TermViews.{term_model};
ghost use Rattle.al_overload_values.specs.TermsAt.{mark_at};
ghost use Rattle.al_tree.specs.DeclarationViews.{discrete_range_model, range_model};
ghost use Rattle.al_tree.specs.ExpressionViews.{expression_model};
ghost use Rattle.al_tree.specs.StatementViews.{choice_model};
ghost use Rattle.al_view_typed.specs.ExpressionViews.{typed_model};
ghost use Rattle.al_overload_values.specs.Surroundings.{site_model, site_units};

use al_base::{NoMemory, Place};
use al_base_fault::{CheckResult, Fault, both, unless};
use al_decl_ada::static_at;
use al_decl_judged::{StaticRange, static_of, subtype_of};
use al_overload::{Context, Term, range_in, value_type};
use al_overload_lookup::first_place;
use al_overload_nodes::{FoundType, Labeller, check_static_term};
use al_overload_readings::{Reading, as_value, mark_in};
use al_overload_values::{Site, mark_at, read_with_at};
use al_query::{Answers, Recorder};
use al_stmts::Choice;
use al_tree::{Choice as ChoiceText, DiscreteRange, Expression, Range};
use al_view::{Bounds, SubtypeView};
use al_view_predefined::StandardTypes;
use al_view_typed::Typed;

fn choice_context(labeller: &Labeller, found: &FoundType) -> Result<Context, NoMemory>
    ensures { IfOk result (λ context. context ≡ choice_context found.now) }
{
    let standard = &labeller.predefined.standard;
    let of = value_type(labeller.alloc, standard, &found.types, &found.of)?;
    Ok(Context::ChoiceOf(of))
}

fn check_value(
    labeller: &Labeller,
    found: &FoundType,
    fault: Option<Fault>,
    term: &Term,
) -> Result<CheckResult<Typed>, NoMemory>
    ensures { IfOk result (λ value. map_ok typed_model value ≡ static_term_checked labeller.now.predefined labeller.now.own (choice_context found.now) found.now.types fault (term_model term.now)) }
{
    let context = choice_context(labeller, found)?;
    check_static_term(labeller, &context, &found.types, fault, term)
}

/// One value, which must be static.
fn one_value(checked: &CheckResult<Typed>) -> CheckResult<Choice>
    ensures { result ≡ next (map_ok typed_model checked.now) (λ x. map_ok one_value (static_of x)) }
{
    match checked {
        Ok(value) => match static_of(value) {
            Ok(value) => Ok(Choice::Range(Bounds {
                low: value.word,
                high: value.word,
            })),
            Err(fault) => Err(fault),
        },
        Err(fault) => Err(*fault),
    }
}

#[tactic(auto, using(al_overload_values::proofs::Seen::seen_unless))]
fn value_choice(
    labeller: &Labeller,
    found: &FoundType,
    fault: Option<Fault>,
    term: &Term,
) -> Result<CheckResult<Choice>, NoMemory>
    ensures { IfOk result (λ choice. choice ≡ value_choice labeller.now.predefined labeller.now.own found.now fault (term_model term.now)) }
{
    let value = check_value(labeller, found, fault, term)?;
    let checked = unless(fault, value);
    Ok(one_value(&checked))
}

fn any_value_choice(
    labeller: &Labeller,
    found: &FoundType,
    fault: Option<Fault>,
    term: CheckResult<Term>,
) -> Result<CheckResult<Choice>, NoMemory>
    ensures { IfOk result (λ choice. choice ≡ next (map_ok term_model term) (value_choice labeller.now.predefined labeller.now.own found.now fault)) }
{
    match term {
        Ok(term) => {
            let choice = value_choice(labeller, found, fault, &term);
            drop(term);
            choice
        }
        Err(fault) => Ok(Err(fault)),
    }
}

fn bounds_choice(bounds: Option<Bounds>) -> Choice
    ensures { result ≡ bounds_choice bounds }
{
    match bounds {
        Some(bounds) => Choice::Range(bounds),
        None => Choice::OfOtherType,
    }
}

/// The choice of a subtype; a subtype of another type than the selector's is no choice of it.
#[tactic(auto, unfolding(crate::specs::ChoicesAt::mark_choice))]
fn mark_choice(standard: &StandardTypes, found: &FoundType, mark: &SubtypeView) -> Choice
    ensures { result ≡ mark_choice found.now mark.now }
{
    if mark.subtype.base.is(&found.of) {
        bounds_choice(range_in(standard, &mark.types, &mark.subtype))
    } else {
        Choice::OfOtherType
    }
}

fn optional_choice(
    standard: &StandardTypes,
    found: &FoundType,
    mark: &Option<SubtypeView>,
) -> Option<Choice>
    ensures { result ≡ option_map (mark_choice found.now) mark.now }
{
    match mark {
        Some(mark) => Some(mark_choice(standard, found, mark)),
        None => None,
    }
}

/// What a mark or a Range attribute chooses.
#[tactic(auto, unfolding(al_overload_readings::specs::Readings::range_read))]
fn range_part(
    labeller: &Labeller,
    found: &FoundType,
    reading: &Reading,
) -> Result<Option<Choice>, NoMemory>
    ensures { IfOk result (λ choice. choice ≡ range_part found.now (reading_model reading.now)) }
{
    let standard = &labeller.predefined.standard;
    match reading {
        Reading::Name(_, _, views) => {
            let mark = mark_in(labeller.alloc, views.as_slice())?;
            Ok(optional_choice(standard, found, &mark))
        }
        Reading::Range(_, subtype) => Ok(Some(mark_choice(standard, found, subtype))),
        Reading::Value(_) => Ok(None),
        Reading::Function(_, _, _) => Ok(None),
        Reading::Image(_, _) => Ok(None),
    }
}

/// What is alone: a mark or a Range attribute, or else a value.
fn read_choice(
    labeller: &Labeller,
    found: &FoundType,
    reading: Reading,
    fault: Option<Fault>,
) -> Result<CheckResult<Choice>, NoMemory>
    ensures { IfOk result (λ choice. choice ≡ read_choice labeller.now.predefined labeller.now.own found.now (reading_model reading, fault)) }
{
    match range_part(labeller, found, &reading) {
        Ok(Some(choice)) => {
            drop(reading);
            Ok(unless(fault, Ok(choice)))
        }
        Ok(None) => any_value_choice(labeller, found, fault, as_value(Ok(reading))),
        Err(lack) => {
            drop(reading);
            Err(lack)
        }
    }
}

fn any_read_choice(
    labeller: &Labeller,
    found: &FoundType,
    reading: CheckResult<(Reading, Option<Fault>)>,
) -> Result<CheckResult<Choice>, NoMemory>
    ensures { IfOk result (λ choice. choice ≡ next (map_ok reading_with_model reading) (read_choice labeller.now.predefined labeller.now.own found.now)) }
{
    match reading {
        Ok((reading, fault)) => read_choice(labeller, found, reading, fault),
        Err(fault) => Ok(Err(fault)),
    }
}

fn single_choice<A: Answers>(
    site: &Site<'_>,
    found: &FoundType,
    expression: &Expression,
    recorder: &mut Recorder<A>,
) -> Result<CheckResult<Choice>, NoMemory>
    ensures asked { recorder.new.asked ≡ recorder.old.asked }
    ensures answered { IfOk result (λ choice. FromAnswers recorder.old.log recorder.new.log (λ t. choice ≡ next (read_with_at t (site_model site.now).place (site_model site.now).packages (site_model site.now).predefined (site_model site.now).own (expression_model expression.now)) (read_choice (site_model site.now).predefined (site_model site.now).own found.now))) }
    ensures asks { IfOk result (λ _. AsksOf (site_units (site_model site.now)) by_some_name recorder.old.log recorder.new.log) }
{
    let labeller = site.labeller;
    let (scope, packages) = (site.scope, site.packages);
    let reading = read_with_at(labeller, scope, packages, expression, recorder)?;
    let choice = any_read_choice(labeller, found, reading)?;
    Ok(choice)
}

/// Two bounds, which must be static.
fn static_choice<A: Answers>(
    site: &Site<'_>,
    found: &FoundType,
    range: &Range,
    recorder: &mut Recorder<A>,
) -> Result<CheckResult<StaticRange>, NoMemory>
    ensures asked { recorder.new.asked ≡ recorder.old.asked }
    ensures answered { IfOk result (λ bounds. FromAnswers recorder.old.log recorder.new.log (λ t. bounds ≡ static_choice t (site_model site.now) found.now (range_model range.now))) }
    ensures asks { IfOk result (λ _. AsksOf (site_units (site_model site.now)) by_some_name recorder.old.log recorder.new.log) }
{
    let context = choice_context(site.labeller, found)?;
    static_at(site, &context, &found.types, range, recorder)
}

fn range_choice(range: CheckResult<StaticRange>) -> CheckResult<Choice>
    ensures { result ≡ map_ok range_choice range }
{
    match range {
        Ok(range) => Ok(Choice::Range(range.bounds)),
        Err(fault) => Err(fault),
    }
}

fn bounds_chosen<A: Answers>(
    site: &Site<'_>,
    found: &FoundType,
    range: &Range,
    recorder: &mut Recorder<A>,
) -> Result<CheckResult<Choice>, NoMemory>
    ensures asked { recorder.new.asked ≡ recorder.old.asked }
    ensures answered { IfOk result (λ choice. FromAnswers recorder.old.log recorder.new.log (λ t. choice ≡ map_ok range_choice (static_choice t (site_model site.now) found.now (range_model range.now)))) }
    ensures asks { IfOk result (λ _. AsksOf (site_units (site_model site.now)) by_some_name recorder.old.log recorder.new.log) }
{
    let range = static_choice(site, found, range, recorder)?;
    Ok(range_choice(range))
}

fn fitted_choice(subtype: &CheckResult<SubtypeView>) -> CheckResult<Choice>
    ensures { result ≡ fitted_choice subtype.now }
{
    match subtype {
        Ok(subtype) => Ok(bounds_choice(subtype.subtype.bounds)),
        Err(fault) => Err(*fault),
    }
}

/// Two bounds after a mark: E305 if they don't lie in it.
#[tactic(auto, unfolding(crate::specs::ChoicesAt::marked_choice))]
fn marked_choice(
    labeller: &Labeller,
    found: &FoundType,
    place: Place,
    mark: &SubtypeView,
    range: StaticRange,
) -> Result<CheckResult<Choice>, NoMemory>
    ensures { IfOk result (λ choice. choice ≡ marked_choice found.now place (mark.now, range)) }
{
    if mark.subtype.base.is(&found.of) {
        let standard = &labeller.predefined.standard;
        let subtype = subtype_of(labeller.alloc, standard, mark, place, Some(range))?;
        return Ok(fitted_choice(&subtype));
    }
    Ok(Ok(Choice::OfOtherType))
}

fn any_marked_choice(
    labeller: &Labeller,
    found: &FoundType,
    place: Place,
    checked: CheckResult<(SubtypeView, StaticRange)>,
) -> Result<CheckResult<Choice>, NoMemory>
    ensures { IfOk result (λ choice. choice ≡ next checked (marked_choice found.now place)) }
{
    match checked {
        Ok((mark, range)) => {
            let choice = marked_choice(labeller, found, place, &mark, range);
            drop(mark);
            choice
        }
        Err(fault) => Ok(Err(fault)),
    }
}

/// A mark and the bounds after it, each by itself.
fn marked_parts<A: Answers>(
    site: &Site<'_>,
    found: &FoundType,
    mark: &Expression,
    range: &Range,
    recorder: &mut Recorder<A>,
) -> Result<CheckResult<(SubtypeView, StaticRange)>, NoMemory>
    ensures asked { recorder.new.asked ≡ recorder.old.asked }
    ensures answered { IfOk result (λ parts. FromAnswers recorder.old.log recorder.new.log (λ t. parts ≡ both (mark_at t (site_model site.now).place (site_model site.now).packages (expression_model mark.now)) (static_choice t (site_model site.now) found.now (range_model range.now)))) }
    ensures asks { IfOk result (λ _. AsksOf (site_units (site_model site.now)) by_some_name recorder.old.log recorder.new.log) }
{
    let labeller = site.labeller;
    let standard = &labeller.predefined.standard;
    let (scope, packages) = (site.scope, site.packages);
    let mark = mark_at(labeller.alloc, standard, scope, packages, mark, recorder)?;
    let range = static_choice(site, found, range, recorder)?;
    Ok(both(mark, range))
}

fn marked_chosen<A: Answers>(
    site: &Site<'_>,
    found: &FoundType,
    mark: &Expression,
    range: &Range,
    recorder: &mut Recorder<A>,
) -> Result<CheckResult<Choice>, NoMemory>
    ensures asked { recorder.new.asked ≡ recorder.old.asked }
    ensures answered { IfOk result (λ choice. FromAnswers recorder.old.log recorder.new.log (λ t. choice ≡ next (both (mark_at t (site_model site.now).place (site_model site.now).packages (expression_model mark.now)) (static_choice t (site_model site.now) found.now (range_model range.now))) (marked_choice found.now (first_place (expression_model mark.now))))) }
    ensures asks { IfOk result (λ _. AsksOf (site_units (site_model site.now)) by_some_name recorder.old.log recorder.new.log) }
{
    let parts = marked_parts(site, found, mark, range, recorder)?;
    let choice = any_marked_choice(site.labeller, found, first_place(mark), parts)?;
    Ok(choice)
}

fn discrete_choice<A: Answers>(
    site: &Site<'_>,
    found: &FoundType,
    range: &DiscreteRange,
    recorder: &mut Recorder<A>,
) -> Result<CheckResult<Choice>, NoMemory>
    ensures asked { recorder.new.asked ≡ recorder.old.asked }
    ensures answered { IfOk result (λ choice. FromAnswers recorder.old.log recorder.new.log (λ t. choice ≡ discrete_choice t (site_model site.now) found.now (discrete_range_model range.now))) }
    ensures asks { IfOk result (λ _. AsksOf (site_units (site_model site.now)) by_some_name recorder.old.log recorder.new.log) }
{
    match range {
        DiscreteRange::Mark(expression) => single_choice(site, found, expression, recorder),
        DiscreteRange::Bounds(range) => bounds_chosen(site, found, range, recorder),
        DiscreteRange::MarkRange(mark, range) => marked_chosen(site, found, mark, range, recorder),
    }
}

/// A choice of a case statement at a place, whose selector has this type (ARM 5.4).
/// # Errors
/// `NoMemory` if the allocator refuses memory. The inner error is E401 or E404 of a name in it; what is wrong with its values; E304 at one
/// that isn't static; E305 at one that lies outside the mark's.
pub fn choice_at<A: Answers>(
    site: &Site<'_>,
    found: &FoundType,
    choice: &ChoiceText,
    recorder: &mut Recorder<A>,
) -> Result<CheckResult<Choice>, NoMemory>
    ensures asked { recorder.new.asked ≡ recorder.old.asked }
    ensures answered { IfOk result (λ checked. FromAnswers recorder.old.log recorder.new.log (λ t. checked ≡ choice_at t (site_model site.now) found.now (choice_model choice.now))) }
    ensures asks { IfOk result (λ _. AsksOf (site_units (site_model site.now)) by_some_name recorder.old.log recorder.new.log) }
{
    match choice {
        ChoiceText::Others => Ok(Ok(Choice::Others)),
        ChoiceText::Range(range) => discrete_choice(site, found, range, recorder),
    }
}
