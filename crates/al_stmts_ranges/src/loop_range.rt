// Ranges of for loops (ARM 5.5).
ghost use Rattle.std.specs.Prelude.{◌≡◌, IfOk, [], None};
ghost use Rattle.al_base_fault.specs.Judging.{both, next, map_ok};
ghost use Rattle.al_overload_lookup.specs.Places.{first_place};
ghost use Rattle.al_overload_nodes.specs.Ranges.{bounds_checked};
ghost use Rattle.al_overload_nodes.specs.RangesSeen.{pair_model};
ghost use Rattle.al_overload.specs.declared.context.Context.TheVariants as contexts;
ghost use Rattle.al_overload_values.specs.TextsAt.{bounds_with_at, range_with_at};
ghost use Rattle.al_query.specs.Asked.{AsksOf, by_some_name};
ghost use Rattle.al_query.specs.Reads.{FromAnswers};
ghost use Rattle.al_stmts_ranges.specs.LoopsAt.{after_mark, between, discrete, found_range_model, loop_range_at, loop_range_checked, marked_model, range_with_words, whole, whole_range};
ghost use Rattle.al_tree_syntax.specs.DeclarationTrees.DiscreteRangeTree.{MarkRange};
ghost use Rattle.al_overload.specs.TermViews.{term_model};
ghost use Rattle.al_overload_values.specs.TermsAt.{mark_at};
ghost use Rattle.al_overload_nodes.specs.Leaves.{mark_type};
ghost use Rattle.al_tree.specs.DeclarationViews.{discrete_range_model, range_model};
ghost use Rattle.al_tree.specs.ExpressionViews.{expression_model};
ghost use Rattle.al_overload_values.specs.Surroundings.{site_model, site_units};
ghost use Rattle.al_overload_values.specs.ValuesAt.{pair_judged_at};

use al_base::{NoMemory, Place};
use al_base_fault::{CheckResult, Fault, both, unless};
use al_decl_ada::bound_context;
use al_decl_judged::scalar_bounds;
use al_overload::{Context, Term};
use al_overload_lookup::first_place;
use al_overload_nodes::{FoundType, Labeller, Pair, check_bounds};
use al_overload_slots::number_slots;
use al_overload_values::{Site, bounds_with_at, mark_at, no_types, pair_judged_at, range_with_at};
use al_query::{Answers, Recorder};
use al_stmts::{LoopRange, mark_range};
use al_tree::{DiscreteRange, Expression, Range};
use al_view::{Bounds, SubtypeView};
use al_view_predefined::StandardTypes;
use std::alloc::Global;

/// The values of a loop's parameter, with its type.
#[derive(Drop)]
pub struct FoundRange {
    /// The values.
    pub range: LoopRange,
    /// The type.
    pub found: FoundType,
}

/// A mark of a discrete type with its range; E404 at one of another type (ARM 3.6.1(4)).
fn discrete(
    standard: &StandardTypes,
    place: Place,
    mark: SubtypeView,
) -> CheckResult<(SubtypeView, Bounds)>
    ensures { result ≡ discrete place mark }
{
    match scalar_bounds(standard, &mark, place) {
        Ok(bounds) => Ok((mark, bounds)),
        Err(fault) => Err(fault),
    }
}

fn discrete_mark(
    standard: &StandardTypes,
    place: Place,
    mark: CheckResult<SubtypeView>,
) -> CheckResult<(SubtypeView, Bounds)>
    ensures { result ≡ next mark (discrete place) }
{
    match mark {
        Ok(mark) => discrete(standard, place, mark),
        Err(fault) => Err(fault),
    }
}

/// All values of a mark.
fn whole(
    alloc: Global,
    place: Place,
    mark: SubtypeView,
    bounds: Bounds,
) -> Result<FoundRange, NoMemory>
    ensures { IfOk result (λ range. found_range_model range ≡ whole place (mark, bounds)) }
{
    let range = mark_range(alloc, place, &mark.subtype.base, bounds)?;
    let found = FoundType {
        of: mark.subtype.base,
        types: mark.types,
    };
    Ok(FoundRange { range, found })
}

fn whole_range(
    labeller: &Labeller,
    place: Place,
    mark: CheckResult<SubtypeView>,
) -> Result<CheckResult<FoundRange>, NoMemory>
    ensures { IfOk result (λ range. map_ok found_range_model range ≡ next mark (whole_range place)) }
{
    match discrete_mark(&labeller.predefined.standard, place, mark) {
        Ok((mark, bounds)) => {
            let range = whole(labeller.alloc, place, mark, bounds)?;
            Ok(Ok(range))
        }
        Err(fault) => Ok(Err(fault)),
    }
}

/// The range from one bound to another, after a mark with this range or by themselves.
fn between(mark: Option<Bounds>, pair: CheckResult<Pair>) -> CheckResult<FoundRange>
    ensures { map_ok found_range_model result ≡ map_ok (between mark) (map_ok pair_model pair) }
{
    match pair {
        Ok(pair) => {
            let (low, high, range) = pair.into_parts();
            Ok(FoundRange {
                range: LoopRange { low, high, mark },
                found: range,
            })
        }
        Err(fault) => Err(fault),
    }
}

/// Two bounds after a mark, as one context of its type.
fn pair_after(
    labeller: &Labeller,
    mark: &SubtypeView,
    low: &Term,
    high: &Term,
) -> Result<CheckResult<Pair>, NoMemory>
    ensures { IfOk result (λ pair. map_ok pair_model pair ≡ bounds_checked labeller.now.predefined labeller.now.own (contexts.BoundOf (mark_type mark.now)) mark.now.types (term_model low.now) (term_model high.now)) }
{
    let context = bound_context(labeller, mark)?;
    check_bounds(labeller, &context, &mark.types, low, high)
}

/// The range from one bound to another, after a mark with its range.
fn after_found(
    labeller: &Labeller,
    mark: (SubtypeView, Bounds),
    bounds: ((Term, Term), Option<Fault>),
) -> Result<CheckResult<FoundRange>, NoMemory>
    ensures { IfOk result (λ range. map_ok found_range_model range ≡ after_mark labeller.now.predefined labeller.now.own (marked_model (mark, bounds))) }
{
    let pair = pair_after(labeller, &mark.0, &bounds.0.0, &bounds.0.1);
    let (within, fault) = (mark.1, bounds.1);
    drop(mark);
    drop(bounds);
    let checked = pair?;
    Ok(between(Some(within), unless(fault, checked)))
}

fn after_mark(
    labeller: &Labeller,
    checked: CheckResult<((SubtypeView, Bounds), ((Term, Term), Option<Fault>))>,
) -> Result<CheckResult<FoundRange>, NoMemory>
    ensures { IfOk result (λ range. map_ok found_range_model range ≡ next (map_ok marked_model checked) (after_mark labeller.now.predefined labeller.now.own)) }
{
    match checked {
        Ok((mark, bounds)) => after_found(labeller, mark, bounds),
        Err(fault) => Ok(Err(fault)),
    }
}

fn single_range<A: Answers>(
    site: &Site<'_>,
    expression: &Expression,
    recorder: &mut Recorder<A>,
) -> Result<CheckResult<FoundRange>, NoMemory>
    ensures asked { recorder.new.asked ≡ recorder.old.asked }
    ensures answered { IfOk result (λ range. FromAnswers recorder.old.log recorder.new.log (λ t. map_ok found_range_model range ≡ next (range_with_at t (site_model site.now).place (site_model site.now).packages (site_model site.now).predefined (site_model site.now).own (expression_model expression.now)) (whole_range (first_place (expression_model expression.now))))) }
    ensures asks { IfOk result (λ _. AsksOf (site_units (site_model site.now)) by_some_name recorder.old.log recorder.new.log) }
{
    let labeller = site.labeller;
    let (scope, packages) = (site.scope, site.packages);
    let mark = range_with_at(labeller, scope, packages, expression, recorder)?;
    let range = whole_range(labeller, first_place(expression), mark)?;
    Ok(range)
}

fn bounds_range<A: Answers>(
    site: &Site<'_>,
    range: &Range,
    recorder: &mut Recorder<A>,
) -> Result<CheckResult<FoundRange>, NoMemory>
    ensures asked { recorder.new.asked ≡ recorder.old.asked }
    ensures answered { IfOk result (λ found. FromAnswers recorder.old.log recorder.new.log (λ t. map_ok found_range_model found ≡ map_ok (between None) (pair_judged_at t (site_model site.now) contexts.PairOfBounds [] (range_model range.now)))) }
    ensures asks { IfOk result (λ _. AsksOf (site_units (site_model site.now)) by_some_name recorder.old.log recorder.new.log) }
{
    let types = no_types(site.labeller.alloc)?;
    let pair = pair_judged_at(site, &Context::PairOfBounds, &types, range, recorder)?;
    Ok(between(None, pair))
}

/// The range of a mark, with the terms of the bounds after it.
fn marked_bounds<A: Answers>(
    site: &Site<'_>,
    mark: &Expression,
    range: &Range,
    recorder: &mut Recorder<A>,
) -> Result<CheckResult<((SubtypeView, Bounds), ((Term, Term), Option<Fault>))>, NoMemory>
    ensures asked { recorder.new.asked ≡ recorder.old.asked }
    ensures answered { IfOk result (λ checked. FromAnswers recorder.old.log recorder.new.log (λ t. map_ok marked_model checked ≡ both (next (mark_at t (site_model site.now).place (site_model site.now).packages (expression_model mark.now)) (discrete (first_place (expression_model mark.now)))) (bounds_with_at t (site_model site.now).place (site_model site.now).packages (site_model site.now).predefined (site_model site.now).own (range_model range.now)))) }
    ensures asks { IfOk result (λ _. AsksOf (site_units (site_model site.now)) by_some_name recorder.old.log recorder.new.log) }
{
    let labeller = site.labeller;
    let (alloc, standard) = (labeller.alloc, &labeller.predefined.standard);
    let (scope, packages) = (site.scope, site.packages);
    let place = first_place(mark);
    let mark = mark_at(alloc, standard, scope, packages, mark, recorder)?;
    let bounds = bounds_with_at(labeller, scope, packages, range, recorder)?;
    Ok(both(discrete_mark(standard, place, mark), bounds))
}

fn marked_range<A: Answers>(
    site: &Site<'_>,
    mark: &Expression,
    range: &Range,
    recorder: &mut Recorder<A>,
) -> Result<CheckResult<FoundRange>, NoMemory>
    ensures asked { recorder.new.asked ≡ recorder.old.asked }
    ensures answered { IfOk result (λ found. FromAnswers recorder.old.log recorder.new.log (λ t. map_ok found_range_model found ≡ loop_range_checked t (site_model site.now) (MarkRange (expression_model mark.now) (range_model range.now)))) }
    ensures asks { IfOk result (λ _. AsksOf (site_units (site_model site.now)) by_some_name recorder.old.log recorder.new.log) }
{
    let checked = marked_bounds(site, mark, range, recorder)?;
    let found = after_mark(site.labeller, checked)?;
    Ok(found)
}

fn check_range<A: Answers>(
    site: &Site<'_>,
    range: &DiscreteRange,
    recorder: &mut Recorder<A>,
) -> Result<CheckResult<FoundRange>, NoMemory>
    ensures asked { recorder.new.asked ≡ recorder.old.asked }
    ensures answered { IfOk result (λ found. FromAnswers recorder.old.log recorder.new.log (λ t. map_ok found_range_model found ≡ loop_range_checked t (site_model site.now) (discrete_range_model range.now))) }
    ensures asks { IfOk result (λ _. AsksOf (site_units (site_model site.now)) by_some_name recorder.old.log recorder.new.log) }
{
    match range {
        DiscreteRange::Mark(expression) => single_range(site, expression, recorder),
        DiscreteRange::Bounds(range) => bounds_range(site, range, recorder),
        DiscreteRange::MarkRange(mark, range) => marked_range(site, mark, range, recorder),
    }
}

/// Gives the temporaries of what is right their words, the low bound's first.
#[tactic(auto, unfolding(crate::specs::LoopsAt::range_with_words))]
fn take_range_words(checked: &mut CheckResult<FoundRange>, word: &mut u32)
    ensures { (word.new, map_ok found_range_model checked.new) ≡ range_with_words word.old (map_ok found_range_model checked.old) }
{
    match checked {
        Ok(found) => {
            let after = number_slots(&mut found.range.low, *word);
            *word = number_slots(&mut found.range.high, after);
        }
        Err(_) => {}
    }
}

/// The range of a for loop at a place (ARM 5.5). The words of its temporaries begin at `word`, which is the next free one afterwards.
/// # Errors
/// `NoMemory` if the allocator refuses memory. The inner error is E401 or E404 of a name in it; E404 at what is no range and at a mark of
/// no discrete type; else what is wrong with the bounds.
pub fn loop_range_at<A: Answers>(
    site: &Site<'_>,
    range: &DiscreteRange,
    word: &mut u32,
    recorder: &mut Recorder<A>,
) -> Result<CheckResult<FoundRange>, NoMemory>
    ensures asked { recorder.new.asked ≡ recorder.old.asked }
    ensures answered { IfOk result (λ found. FromAnswers recorder.old.log recorder.new.log (λ t. (word.new, map_ok found_range_model found) ≡ loop_range_at t (site_model site.now) (discrete_range_model range.now) word.old)) }
    ensures asks { IfOk result (λ _. AsksOf (site_units (site_model site.now)) by_some_name recorder.old.log recorder.new.log) }
{
    let mut checked = check_range(site, range, recorder)?;
    take_range_words(&mut checked, word);
    Ok(checked)
}
