// Ranges whose bounds must be static.
ghost use Rattle.std.specs.Prelude.{◌≡◌, IfOk};
ghost use Rattle.al_base_fault.specs.Judging.{next, map_ok};
ghost use Rattle.al_overload_nodes.specs.RangesSeen.{pair_model};
ghost use Rattle.al_overload.specs.declared.context.Context.TheVariants as contexts;
ghost use Rattle.al_query.specs.Asked.{AsksOf, by_some_name};
ghost use Rattle.al_query.specs.Reads.{FromAnswers};
ghost use Rattle.al_decl_ada.specs.SubtypesAt.{constraint_at, static_at, static_pair};
ghost use Rattle.al_overload_values.specs.TermsAt.{range_names};
ghost use Rattle.al_overload_nodes.specs.Leaves.{mark_type};
ghost use Rattle.al_tree.specs.DeclarationViews.{range_model};
ghost use Rattle.al_overload_values.specs.Surroundings.{site_model, site_units};

use al_base::NoMemory;
use al_base_fault::CheckResult;
use al_decl_judged::{StaticRange, static_range};
use al_overload::{Context, value_type};
use al_overload_nodes::{Labeller, Pair};
use al_overload_values::{Site, static_pair_at};
use al_query::{Answers, Recorder};
use al_tree::Range;
use al_view::{SubtypeView, Types};

pub(crate) fn static_pair(pair: &CheckResult<Pair>) -> CheckResult<StaticRange>
    ensures { result ≡ next (map_ok pair_model pair.now) static_pair }
{
    match pair {
        Ok(pair) => static_range(&pair.low, &pair.high),
        Err(fault) => Err(*fault),
    }
}

/// Two bounds as one context, which must be static (ARM 4.9).
/// # Errors
/// `NoMemory` if the allocator refuses memory. The inner error is E401 or E404 of a name in either; else E402 or E403 at the low one's
/// first token, or the first of the faults in them and E304 at a bound that isn't static.
pub fn static_at<A: Answers>(
    site: &Site<'_>,
    context: &Context,
    types: &Types,
    range: &Range,
    recorder: &mut Recorder<A>,
) -> Result<CheckResult<StaticRange>, NoMemory>
    ensures asked { recorder.new.asked ≡ recorder.old.asked }
    ensures answered { IfOk result (λ checked. FromAnswers recorder.old.log recorder.new.log (λ t. checked ≡ static_at t (site_model site.now) context.now types.now (range_model range.now))) }
    ensures asks { IfOk result (λ _. AsksOf (site_units (site_model site.now)) by_some_name recorder.old.log recorder.new.log) }
{
    let pair = static_pair_at(site, context, types, range, recorder)?;
    Ok(static_pair(&pair))
}

/// The context of what is expected to have the type of this mark (ARM 3.5(5)).
/// # Errors
/// `NoMemory` if the allocator refuses memory.
pub fn bound_context(labeller: &Labeller, mark: &SubtypeView) -> Result<Context, NoMemory>
    ensures { IfOk result (λ context. context ≡ contexts.BoundOf (mark_type mark.now)) }
{
    let standard = &labeller.predefined.standard;
    let of = value_type(labeller.alloc, standard, &mark.types, &mark.subtype.base)?;
    Ok(Context::BoundOf(of))
}

fn constraint_of<A: Answers>(
    site: &Site<'_>,
    mark: &SubtypeView,
    range: &Range,
    recorder: &mut Recorder<A>,
) -> Result<CheckResult<StaticRange>, NoMemory>
    ensures asked { recorder.new.asked ≡ recorder.old.asked }
    ensures answered { IfOk result (λ checked. FromAnswers recorder.old.log recorder.new.log (λ t. checked ≡ static_at t (site_model site.now) (contexts.BoundOf (mark_type mark.now)) mark.now.types (range_model range.now))) }
    ensures asks { IfOk result (λ _. AsksOf (site_units (site_model site.now)) by_some_name recorder.old.log recorder.new.log) }
{
    let context = bound_context(site.labeller, mark)?;
    static_at(site, &context, &mark.types, range, recorder)
}

/// The constraint after a mark, which is of the mark's type. If the mark is faulty, it isn't read.
#[tactic(auto, unfolding(crate::specs::SubtypesAt::constraint_at))]
pub(crate) fn constraint_at<A: Answers>(
    site: &Site<'_>,
    mark: &CheckResult<SubtypeView>,
    range: &Range,
    recorder: &mut Recorder<A>,
) -> Result<Option<CheckResult<StaticRange>>, NoMemory>
    ensures asked { recorder.new.asked ≡ recorder.old.asked }
    ensures answered { IfOk result (λ constraint. FromAnswers recorder.old.log recorder.new.log (λ t. constraint ≡ constraint_at t (site_model site.now) mark.now (range_model range.now))) }
    ensures asks { IfOk result (λ _. AsksOf (site_units (site_model site.now)) by_some_name recorder.old.log recorder.new.log) }
{
    match mark {
        Ok(mark) => {
            let range = constraint_of(site, mark, range, recorder)?;
            Ok(Some(range))
        }
        Err(_) => Ok(None),
    }
}
