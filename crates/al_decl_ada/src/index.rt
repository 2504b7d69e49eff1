// Index subtypes (ARM 3.6, 3.6.1).
ghost use Rattle.std.specs.Prelude.{◌≡◌, ◌++◌, IfOk, []};
ghost use Rattle.al_base_fault.specs.Judging.{next, map_ok};
ghost use Rattle.al_overload_lookup.specs.Places.{first_place};
ghost use Rattle.al_overload_nodes.specs.RangesSeen.{pair_model};
ghost use Rattle.al_overload.specs.declared.context.Context.TheVariants as contexts;
ghost use Rattle.al_query.specs.Asked.{AsksOf, by_some_name};
ghost use Rattle.al_query.specs.Reads.{FromAnswers};
ghost use Rattle.al_decl_ada.specs.Complete.{completed};
ghost use Rattle.al_decl_ada.specs.SubtypesAt.{discrete_names, index_at, index_of_marked, index_of_pair, index_of_single};
ghost use Rattle.al_overload_values.specs.TermsAt.{mark_at, range_names, text_names};
ghost use Rattle.al_tree.specs.DeclarationViews.{discrete_range_model, range_model};
ghost use Rattle.al_tree.specs.ExpressionViews.{expression_model};
ghost use Rattle.al_overload_values.specs.Surroundings.{site_model, site_units};
ghost use Rattle.al_overload_values.specs.ValuesAt.{static_pair_at};

use crate::complete::completed;
use crate::constraint::{constraint_at, static_pair};
use al_base::{NoMemory, Place, UnitKey};
use al_base_fault::CheckResult;
use al_decl_judged::{index_of_bounds, index_of_mark};
use al_overload::Context;
use al_overload_lookup::first_place;
use al_overload_nodes::{Labeller, Pair};
use al_overload_values::{Site, mark_at, no_types, range_with_at, static_pair_at};
use al_query::{Answers, Recorder};
use al_tree::{DiscreteRange, Expression, Range};
use al_view::SubtypeView;

fn single_index<A: Answers>(
    site: &Site<'_>,
    unit: &UnitKey,
    expression: &Expression,
    recorder: &mut Recorder<A>,
) -> Result<CheckResult<SubtypeView>, NoMemory>
    ensures asked { recorder.new.asked ≡ recorder.old.asked }
    ensures answered { IfOk result (λ checked. FromAnswers recorder.old.log recorder.new.log (λ t. checked ≡ index_of_single t (site_model site.now) unit.now (expression_model expression.now))) }
    ensures asks { IfOk result (λ _. AsksOf (site_units (site_model site.now)) by_some_name recorder.old.log recorder.new.log) }
{
    let labeller = site.labeller;
    let (alloc, standard) = (labeller.alloc, &labeller.predefined.standard);
    let (scope, packages) = (site.scope, site.packages);
    let range = range_with_at(labeller, scope, packages, expression, recorder)?;
    let range = completed(unit, first_place(expression), range);
    let subtype = index_of_mark(alloc, standard, first_place(expression), &range, None);
    drop(range);
    subtype
}

/// A mark that was checked, with a constraint.
fn constrained_index<A: Answers>(
    site: &Site<'_>,
    place: Place,
    mark: &CheckResult<SubtypeView>,
    range: &Range,
    recorder: &mut Recorder<A>,
) -> Result<CheckResult<SubtypeView>, NoMemory>
    ensures asked { recorder.new.asked ≡ recorder.old.asked }
    ensures answered { IfOk result (λ checked. FromAnswers recorder.old.log recorder.new.log (λ t. checked ≡ index_of_marked t (site_model site.now) place mark.now (range_model range.now))) }
    ensures asks { IfOk result (λ _. AsksOf (site_units (site_model site.now)) by_some_name recorder.old.log recorder.new.log) }
{
    let constraint = constraint_at(site, mark, range, recorder)?;
    let labeller = site.labeller;
    let standard = &labeller.predefined.standard;
    let subtype = index_of_mark(labeller.alloc, standard, place, mark, constraint)?;
    Ok(subtype)
}

fn marked_index<A: Answers>(
    site: &Site<'_>,
    unit: &UnitKey,
    mark: &Expression,
    range: &Range,
    recorder: &mut Recorder<A>,
) -> Result<CheckResult<SubtypeView>, NoMemory>
    ensures asked { recorder.new.asked ≡ recorder.old.asked }
    ensures answered { IfOk result (λ checked. FromAnswers recorder.old.log recorder.new.log (λ t. checked ≡ index_of_marked t (site_model site.now) (first_place (expression_model mark.now)) (completed unit.now (first_place (expression_model mark.now)) (mark_at t (site_model site.now).place (site_model site.now).packages (expression_model mark.now))) (range_model range.now))) }
    ensures asks { IfOk result (λ _. AsksOf (site_units (site_model site.now)) by_some_name recorder.old.log recorder.new.log) }
{
    let labeller = site.labeller;
    let (alloc, standard) = (labeller.alloc, &labeller.predefined.standard);
    let (place, packages) = (first_place(mark), site.packages);
    let mark = mark_at(alloc, standard, site.scope, packages, mark, recorder)?;
    let mark = completed(unit, place, mark);
    let subtype = constrained_index(site, place, &mark, range, recorder);
    drop(mark);
    subtype
}

fn pair_index(
    labeller: &Labeller,
    pair: CheckResult<Pair>,
) -> Result<CheckResult<SubtypeView>, NoMemory>
    ensures { IfOk result (λ checked. checked ≡ next (map_ok pair_model pair) index_of_pair) }
{
    let bounds = static_pair(&pair);
    match pair {
        Ok(pair) => {
            let (of, types) = pair.into_range().into_parts();
            index_of_bounds(labeller.alloc, of, types, bounds)
        }
        Err(fault) => Ok(Err(fault)),
    }
}

fn bounds_index<A: Answers>(
    site: &Site<'_>,
    range: &Range,
    recorder: &mut Recorder<A>,
) -> Result<CheckResult<SubtypeView>, NoMemory>
    ensures asked { recorder.new.asked ≡ recorder.old.asked }
    ensures answered { IfOk result (λ checked. FromAnswers recorder.old.log recorder.new.log (λ t. checked ≡ next (static_pair_at t (site_model site.now) contexts.PairOfBounds [] (range_model range.now)) index_of_pair)) }
    ensures asks { IfOk result (λ _. AsksOf (site_units (site_model site.now)) by_some_name recorder.old.log recorder.new.log) }
{
    let types = no_types(site.labeller.alloc)?;
    let pair = static_pair_at(site, &Context::PairOfBounds, &types, range, recorder)?;
    let subtype = pair_index(site.labeller, pair)?;
    Ok(subtype)
}

/// The subtype of an index at a place (ARM 3.6, 3.6.1).
/// # Errors
/// `NoMemory` if the allocator refuses memory. The inner error is E401 or E404 of a mark; E404 at what is no range and at a mark that isn't
/// scalar; what is wrong with the bounds; E304 at one that isn't static; E305 at one that lies outside the mark's; E310 at a mark whose
/// type has no full declaration yet, in the unit that declares it.
pub fn index_at<A: Answers>(
    site: &Site<'_>,
    unit: &UnitKey,
    of: &DiscreteRange,
    recorder: &mut Recorder<A>,
) -> Result<CheckResult<SubtypeView>, NoMemory>
    ensures asked { recorder.new.asked ≡ recorder.old.asked }
    ensures answered { IfOk result (λ checked. FromAnswers recorder.old.log recorder.new.log (λ t. checked ≡ index_at t (site_model site.now) unit.now (discrete_range_model of.now))) }
    ensures asks { IfOk result (λ _. AsksOf (site_units (site_model site.now)) by_some_name recorder.old.log recorder.new.log) }
{
    match of {
        DiscreteRange::Mark(expression) => single_index(site, unit, expression, recorder),
        DiscreteRange::Bounds(range) => bounds_index(site, range, recorder),
        DiscreteRange::MarkRange(mark, range) => marked_index(site, unit, mark, range, recorder),
    }
}
