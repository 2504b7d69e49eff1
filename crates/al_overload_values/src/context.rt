// Expressions in the contexts of statements.
ghost use Rattle.std.specs.Prelude.{◌≡◌, IfOk, []};
ghost use Rattle.al_base_fault.specs.Judging.{map_ok};
ghost use Rattle.al_overload.specs.declared.context.Context.TheVariants as contexts;
ghost use Rattle.al_query.specs.Asked.{AsksOf, by_some_name};
ghost use Rattle.al_query.specs.Reads.{FromAnswers};
ghost use Rattle.al_overload_nodes.specs.Leaves.{mark_type};
ghost use Rattle.al_tree.specs.ExpressionViews.{expression_model};
ghost use Rattle.al_view_typed.specs.ExpressionViews.{typed_model};
ghost use Rattle.al_overload_values.specs.Surroundings.{site_model, site_units};
ghost use Rattle.al_overload_values.specs.ValuesAt.{condition_at, moment_at, result_at};

use crate::site::Site;
use crate::value::value_at;
use al_base::NoMemory;
use al_base_fault::CheckResult;
use al_overload::{Context, value_type};
use al_overload_nodes::Labeller;
use al_query::{Answers, Recorder};
use al_tree::Expression;
use al_view::{Seq, SubtypeView, Types};
use al_view_typed::Typed;
use std::alloc::Global;

/// No types besides those that every unit has.
/// # Errors
/// `NoMemory` if the allocator refuses memory.
pub fn no_types(alloc: Global) -> Result<Types, NoMemory>
    ensures { IfOk result (λ types. types ≡ []) }
{
    let types = Types::new(alloc, Seq::empty(alloc))?;
    Ok(types)
}

/// A condition (ARM 5.3, 5.5, 5.7). The words of its temporaries begin at `word`, which is the next free one afterwards.
/// # Errors
/// `NoMemory` if the allocator refuses memory. The inner error is that of `value_at`.
pub fn condition_at<A: Answers>(
    site: &Site<'_>,
    expression: &Expression,
    word: &mut u32,
    recorder: &mut Recorder<A>,
) -> Result<CheckResult<Typed>, NoMemory>
    ensures asked { recorder.new.asked ≡ recorder.old.asked }
    ensures answered { IfOk result (λ checked. FromAnswers recorder.old.log recorder.new.log (λ t. (word.new, map_ok typed_model checked) ≡ condition_at t (site_model site.now) (expression_model expression.now) word.old)) }
    ensures asks { IfOk result (λ _. AsksOf (site_units (site_model site.now)) by_some_name recorder.old.log recorder.new.log) }
{
    let types = no_types(site.labeller.alloc)?;
    let context = Context::Condition;
    value_at(site, &context, &None, &types, expression, word, recorder)
}

/// The moment of a `delay until` (ARM 9.6). The words of its temporaries begin at `word`, which is the next free one afterwards.
/// # Errors
/// `NoMemory` if the allocator refuses memory. The inner error is that of `value_at`.
pub fn moment_at<A: Answers>(
    site: &Site<'_>,
    expression: &Expression,
    word: &mut u32,
    recorder: &mut Recorder<A>,
) -> Result<CheckResult<Typed>, NoMemory>
    ensures asked { recorder.new.asked ≡ recorder.old.asked }
    ensures answered { IfOk result (λ checked. FromAnswers recorder.old.log recorder.new.log (λ t. (word.new, map_ok typed_model checked) ≡ moment_at t (site_model site.now) (expression_model expression.now) word.old)) }
    ensures asks { IfOk result (λ _. AsksOf (site_units (site_model site.now)) by_some_name recorder.old.log recorder.new.log) }
{
    let types = no_types(site.labeller.alloc)?;
    let context = Context::Moment;
    value_at(site, &context, &None, &types, expression, word, recorder)
}

fn result_context(labeller: &Labeller, of: &SubtypeView) -> Result<Context, NoMemory>
    ensures { IfOk result (λ context. context ≡ contexts.ReturnValue (mark_type of.now)) }
{
    let standard = &labeller.predefined.standard;
    let of = value_type(labeller.alloc, standard, &of.types, &of.subtype.base)?;
    Ok(Context::ReturnValue(of))
}

/// The value that a function with this result returns (ARM 6.5). The words of its temporaries begin at `word`, which is the next free one
/// afterwards.
/// # Errors
/// `NoMemory` if the allocator refuses memory. The inner error is that of `value_at`.
pub fn result_at<A: Answers>(
    site: &Site<'_>,
    of: &SubtypeView,
    expression: &Expression,
    word: &mut u32,
    recorder: &mut Recorder<A>,
) -> Result<CheckResult<Typed>, NoMemory>
    ensures asked { recorder.new.asked ≡ recorder.old.asked }
    ensures answered { IfOk result (λ checked. FromAnswers recorder.old.log recorder.new.log (λ t. (word.new, map_ok typed_model checked) ≡ result_at t (site_model site.now) of.now (expression_model expression.now) word.old)) }
    ensures asks { IfOk result (λ _. AsksOf (site_units (site_model site.now)) by_some_name recorder.old.log recorder.new.log) }
{
    let context = result_context(site.labeller, of)?;
    value_at(site, &context, &None, &of.types, expression, word, recorder)
}
