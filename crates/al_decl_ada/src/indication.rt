// Subtype indications (ARM 3.2.2).
ghost use Rattle.std.specs.Prelude.{◌≡◌, IfOk, Some};
ghost use Rattle.al_query.specs.Asked.{AsksOf, by_some_name};
ghost use Rattle.al_query.specs.Reads.{FromAnswers};
ghost use Rattle.al_decl_ada.specs.SubtypesAt.{constrained_at, indication_at, indication_names};
ghost use Rattle.al_overload_values.specs.TermsAt.{range_names};
ghost use Rattle.al_tree.specs.DeclarationViews.{indication_model, range_model};
ghost use Rattle.al_overload_values.specs.Surroundings.{site_model, site_units};

use crate::complete::completed;
use crate::constraint::constraint_at;
use al_base::{NoMemory, Place, UnitKey};
use al_base_fault::CheckResult;
use al_decl_judged::indication;
use al_overload_values::{Site, name_mark_at};
use al_query::{Answers, Recorder};
use al_tree::{Range, SubtypeIndication};
use al_view::SubtypeView;

/// A mark that was checked, with a constraint.
fn constrained<A: Answers>(
    site: &Site<'_>,
    place: Place,
    mark: &CheckResult<SubtypeView>,
    range: &Range,
    recorder: &mut Recorder<A>,
) -> Result<CheckResult<SubtypeView>, NoMemory>
    ensures asked { recorder.new.asked ≡ recorder.old.asked }
    ensures answered { IfOk result (λ checked. FromAnswers recorder.old.log recorder.new.log (λ t. checked ≡ constrained_at t (site_model site.now) place mark.now (Some (range_model range.now)))) }
    ensures asks { IfOk result (λ _. AsksOf (site_units (site_model site.now)) by_some_name recorder.old.log recorder.new.log) }
{
    let constraint = constraint_at(site, mark, range, recorder)?;
    let labeller = site.labeller;
    let standard = &labeller.predefined.standard;
    let subtype = indication(labeller.alloc, standard, place, mark, constraint)?;
    Ok(subtype)
}

/// The subtype that an indication denotes at a place (ARM 3.2.2).
/// # Errors
/// `NoMemory` if the allocator refuses memory. The inner error is E401 or E404 of the mark; E404 at a constrained mark that isn't scalar;
/// what is wrong with the bounds; E304 at one that isn't static; E305 at one that lies outside; E310 at a mark whose type has no full
/// declaration yet, in the unit that declares it (ARM 3.11.1(8), 7.3(5)).
pub fn indication_at<A: Answers>(
    site: &Site<'_>,
    unit: &UnitKey,
    of: &SubtypeIndication,
    recorder: &mut Recorder<A>,
) -> Result<CheckResult<SubtypeView>, NoMemory>
    ensures asked { recorder.new.asked ≡ recorder.old.asked }
    ensures answered { IfOk result (λ checked. FromAnswers recorder.old.log recorder.new.log (λ t. checked ≡ indication_at t (site_model site.now) unit.now (indication_model of.now))) }
    ensures asks { IfOk result (λ _. AsksOf (site_units (site_model site.now)) by_some_name recorder.old.log recorder.new.log) }
{
    let labeller = site.labeller;
    let (alloc, place) = (labeller.alloc, of.mark.first.place);
    let mark = name_mark_at(alloc, site.scope, site.packages, &of.mark, recorder)?;
    let mark = completed(unit, place, mark);
    match &of.constraint {
        None => {
            let standard = &labeller.predefined.standard;
            let subtype = indication(alloc, standard, place, &mark, None);
            drop(mark);
            subtype
        }
        Some(range) => {
            let subtype = constrained(site, place, &mark, range, recorder);
            drop(mark);
            subtype
        }
    }
}
