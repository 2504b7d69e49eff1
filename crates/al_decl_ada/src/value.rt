// Values and bounds of declarations.
ghost use Rattle.std.specs.Prelude.{◌≡◌, IfOk, Some};
ghost use Rattle.al_decl_ada.specs.AdaPartReading.{bound_at, initial_at, number_at, priority_at};
ghost use Rattle.al_overload.specs.Parts.{nominal};
ghost use Rattle.al_base_fault.specs.Judging.{map_ok};
ghost use Rattle.al_overload.specs.declared.context.Context.TheVariants as contexts;
ghost use Rattle.al_query.specs.Reads.{FromAnswers};
ghost use Rattle.al_overload_nodes.specs.Leaves.{mark_type};
ghost use Rattle.al_tree.specs.ExpressionViews.{expression_model};
ghost use Rattle.al_view_typed.specs.ExpressionViews.{typed_model};
ghost use Rattle.al_overload_values.specs.Surroundings.{site_model};
ghost use Rattle.al_overload_values.specs.ValuesAt.{checked_at};

use al_base::NoMemory;
use al_base_fault::CheckResult;
use al_overload::{Context, Nominal, value_type};
use al_overload_nodes::Labeller;
use al_overload_values::{Site, checked_at, no_types, static_checked_at};
use al_query::{Answers, Recorder};
use al_tree::Expression;
use al_view::SubtypeView;
use al_view_typed::Typed;

/// A subtype as the nominal subtype of what is declared.
fn nominal(labeller: &Labeller, of: &SubtypeView) -> Result<Nominal, NoMemory>
    ensures { IfOk result (λ made. made ≡ nominal of.now.types of.now.subtype) }
{
    let types = of.types.share()?;
    let subtype = of.subtype.copy(labeller.alloc)?;
    Ok(Nominal { subtype, types })
}

fn initial_context(labeller: &Labeller, of: &SubtypeView) -> Result<Context, NoMemory>
    ensures { IfOk result (λ context. context ≡ contexts.InitialValue (mark_type of.now)) }
{
    let standard = &labeller.predefined.standard;
    let of = value_type(labeller.alloc, standard, &of.types, &of.subtype.base)?;
    Ok(Context::InitialValue(of))
}

/// A value in that context, which may be an aggregate of this nominal subtype.
fn value_of<A: Answers>(
    site: &Site<'_>,
    of: &SubtypeView,
    context: &Context,
    value: &Expression,
    recorder: &mut Recorder<A>,
) -> Result<CheckResult<Typed>, NoMemory>
    ensures asked { recorder.new.asked ≡ recorder.old.asked }
    ensures answered { IfOk result (λ checked. FromAnswers recorder.old.log recorder.new.log (λ t. map_ok typed_model checked ≡ checked_at t (site_model site.now) context.now (Some (nominal of.now.types of.now.subtype)) of.now.types (expression_model value.now))) }
{
    let allowed = Some(nominal(site.labeller, of)?);
    checked_at(site, context, &allowed, &of.types, value, recorder)
}

/// The initial value of objects of this subtype (ARM 3.3.1(4)).
pub(crate) fn initial_at<A: Answers>(
    site: &Site<'_>,
    of: &SubtypeView,
    value: &Expression,
    recorder: &mut Recorder<A>,
) -> Result<CheckResult<Typed>, NoMemory>
    ensures asked { recorder.new.asked ≡ recorder.old.asked }
    ensures answered { IfOk result (λ checked. FromAnswers recorder.old.log recorder.new.log (λ t. map_ok typed_model checked ≡ initial_at t (site_model site.now) of.now (expression_model value.now))) }
{
    let context = initial_context(site.labeller, of)?;
    value_of(site, of, &context, value, recorder)
}

/// The value of named numbers, which must be static (ARM 3.3.2(2, 3)).
pub(crate) fn number_at<A: Answers>(
    site: &Site<'_>,
    value: &Expression,
    recorder: &mut Recorder<A>,
) -> Result<CheckResult<Typed>, NoMemory>
    ensures asked { recorder.new.asked ≡ recorder.old.asked }
    ensures answered { IfOk result (λ checked. FromAnswers recorder.old.log recorder.new.log (λ t. map_ok typed_model checked ≡ number_at t (site_model site.now) (expression_model value.now))) }
{
    let types = no_types(site.labeller.alloc)?;
    let context = Context::NumberValue;
    static_checked_at(site, &context, &types, value, recorder)
}

/// A bound of an integer type, which must be static (ARM 3.5.4(4, 5)).
pub(crate) fn bound_at<A: Answers>(
    site: &Site<'_>,
    bound: &Expression,
    recorder: &mut Recorder<A>,
) -> Result<CheckResult<Typed>, NoMemory>
    ensures asked { recorder.new.asked ≡ recorder.old.asked }
    ensures answered { IfOk result (λ checked. FromAnswers recorder.old.log recorder.new.log (λ t. map_ok typed_model checked ≡ bound_at t (site_model site.now) (expression_model bound.now))) }
{
    let types = no_types(site.labeller.alloc)?;
    let context = Context::IntegerBound;
    static_checked_at(site, &context, &types, bound, recorder)
}

/// The value of aspect Priority, which must be static (ARM D.1(15, 17)).
pub(crate) fn priority_at<A: Answers>(
    site: &Site<'_>,
    value: &Expression,
    recorder: &mut Recorder<A>,
) -> Result<CheckResult<Typed>, NoMemory>
    ensures asked { recorder.new.asked ≡ recorder.old.asked }
    ensures answered { IfOk result (λ checked. FromAnswers recorder.old.log recorder.new.log (λ t. map_ok typed_model checked ≡ priority_at t (site_model site.now) (expression_model value.now))) }
{
    let types = no_types(site.labeller.alloc)?;
    let priority = Context::PriorityValue;
    static_checked_at(site, &priority, &types, value, recorder)
}
