// Targets and sources of assignments (ARM 5.2).
ghost use Rattle.std.specs.Prelude.{◌≡◌, IfOk, [], Some};
ghost use Rattle.al_base_fault.specs.Judging.{next, map_ok, unless};
ghost use Rattle.al_overload_nodes.specs.Contexts.{target_checked};
ghost use Rattle.al_overload_nodes.specs.Variables.{target_part};
ghost use Rattle.al_overload.specs.Types.{value_type};
ghost use Rattle.al_overload.specs.declared.context.Context.TheVariants as contexts;
ghost use Rattle.al_overload_values.specs.TextsAt.{term_with_model};
ghost use Rattle.al_query.specs.Asked.{AsksOf, by_some_name};
ghost use Rattle.al_query.specs.Reads.{FromAnswers};
ghost use Rattle.al_overload.specs.TermViews.{term_model};
ghost use Rattle.al_overload_values.specs.TermsAt.{term_at};
ghost use Rattle.al_tree.specs.ExpressionViews.{expression_model};
ghost use Rattle.al_view_typed.specs.ExpressionViews.{typed_model};
ghost use Rattle.al_overload_values.specs.Surroundings.{site_model, site_units};
ghost use Rattle.al_overload_values.specs.ValuesAt.{source_at, source_checked, target_at, value_at};
ghost use Rattle.al_overload_values.specs.Words.{with_words};

use crate::context::no_types;
use crate::site::Site;
use crate::value::value_at;
use crate::words::take_words;
use crate::{context_with_at, term_at};
use al_base::NoMemory;
use al_base_fault::{CheckResult, Fault, unless};
use al_overload::{Context, Nominal, Term, value_type};
use al_overload_nodes::{Labeller, check_target, nominal, target_part};
use al_query::{Answers, Recorder};
use al_tree::Expression;
use al_view_typed::Typed;

fn check_assigned(labeller: &Labeller, term: &Term) -> Result<CheckResult<Typed>, NoMemory>
    ensures { IfOk result (λ checked. map_ok typed_model checked ≡ target_checked labeller.now.predefined labeller.now.own [] (term_model term.now)) }
{
    let types = no_types(labeller.alloc)?;
    check_target(labeller, &types, term)
}

#[tactic(auto, using(crate::proofs::Seen::seen_unless))]
fn check_found_target(
    labeller: &Labeller,
    term: CheckResult<(Term, Option<Fault>)>,
) -> Result<CheckResult<Typed>, NoMemory>
    ensures { IfOk result (λ checked. map_ok typed_model checked ≡ next (map_ok term_with_model term) (λ w. unless w.1 (target_checked labeller.now.predefined labeller.now.own [] w.0))) }
{
    match term {
        Ok((term, fault)) => {
            let checked = check_assigned(labeller, &term);
            drop(term);
            Ok(unless(fault, checked?))
        }
        Err(fault) => Ok(Err(fault)),
    }
}

/// The target of an assignment (ARM 5.2). The words of its temporaries begin at `word`, which is the next free one afterwards.
/// # Errors
/// `NoMemory` if the allocator refuses memory. The inner error is E401 or E404 of a name in it; else E402 or E403 at its first token, or
/// the first of E405 and E604 in it and E406 at its first token if it is no name of a variable.
pub fn target_at<A: Answers>(
    site: &Site<'_>,
    expression: &Expression,
    word: &mut u32,
    recorder: &mut Recorder<A>,
) -> Result<CheckResult<Typed>, NoMemory>
    ensures asked { recorder.new.asked ≡ recorder.old.asked }
    ensures answered { IfOk result (λ checked. FromAnswers recorder.old.log recorder.new.log (λ t. (word.new, map_ok typed_model checked) ≡ target_at t (site_model site.now) (expression_model expression.now) word.old)) }
    ensures asks { IfOk result (λ _. AsksOf (site_units (site_model site.now)) by_some_name recorder.old.log recorder.new.log) }
{
    let labeller = site.labeller;
    let (scope, packages) = (site.scope, site.packages);
    let term = context_with_at(labeller, scope, packages, expression, recorder)?;
    let mut checked = check_found_target(labeller, term)?;
    take_words(&mut checked, word);
    Ok(checked)
}

/// The nominal subtype of a target that is judged.
fn part_of_target(
    labeller: &Labeller,
    term: CheckResult<Term>,
) -> Result<CheckResult<Nominal>, NoMemory>
    ensures { IfOk result (λ checked. checked ≡ next (map_ok term_model term) (target_part labeller.now.predefined)) }
{
    match term {
        Ok(term) => {
            let checked = target_part(labeller, &term);
            drop(term);
            checked
        }
        Err(fault) => Ok(Err(fault)),
    }
}

fn source_context(labeller: &Labeller, of: &Nominal) -> Result<Context, NoMemory>
    ensures { IfOk result (λ context. context ≡ contexts.Source (value_type of.now.types of.now.subtype.base)) }
{
    let standard = &labeller.predefined.standard;
    let of = value_type(labeller.alloc, standard, &of.types, &of.subtype.base)?;
    Ok(Context::Source(of))
}

/// A value in that context, which may be an aggregate of this nominal subtype.
fn value_of<A: Answers>(
    site: &Site<'_>,
    of: &Nominal,
    context: &Context,
    value: &Expression,
    word: &mut u32,
    recorder: &mut Recorder<A>,
) -> Result<CheckResult<Typed>, NoMemory>
    ensures asked { recorder.new.asked ≡ recorder.old.asked }
    ensures answered { IfOk result (λ checked. FromAnswers recorder.old.log recorder.new.log (λ t. (word.new, map_ok typed_model checked) ≡ value_at t (site_model site.now) context.now (Some of.now) of.now.types (expression_model value.now) word.old)) }
    ensures asks { IfOk result (λ _. AsksOf (site_units (site_model site.now)) by_some_name recorder.old.log recorder.new.log) }
{
    let allowed = Some(nominal(site.labeller, &of.subtype, &of.types)?);
    value_at(site, context, &allowed, &of.types, value, word, recorder)
}

fn source_of<A: Answers>(
    site: &Site<'_>,
    of: &Nominal,
    value: &Expression,
    word: &mut u32,
    recorder: &mut Recorder<A>,
) -> Result<CheckResult<Typed>, NoMemory>
    ensures asked { recorder.new.asked ≡ recorder.old.asked }
    ensures answered { IfOk result (λ checked. FromAnswers recorder.old.log recorder.new.log (λ t. (word.new, map_ok typed_model checked) ≡ with_words word.old (source_checked t (site_model site.now) (expression_model value.now) of.now))) }
    ensures asks { IfOk result (λ _. AsksOf (site_units (site_model site.now)) by_some_name recorder.old.log recorder.new.log) }
{
    let context = source_context(site.labeller, of)?;
    value_of(site, of, &context, value, word, recorder)
}

fn source_in<A: Answers>(
    site: &Site<'_>,
    of: CheckResult<Nominal>,
    value: &Expression,
    word: &mut u32,
    recorder: &mut Recorder<A>,
) -> Result<CheckResult<Typed>, NoMemory>
    ensures asked { recorder.new.asked ≡ recorder.old.asked }
    ensures answered { IfOk result (λ checked. FromAnswers recorder.old.log recorder.new.log (λ t. (word.new, map_ok typed_model checked) ≡ with_words word.old (next of (source_checked t (site_model site.now) (expression_model value.now))))) }
    ensures asks { IfOk result (λ _. AsksOf (site_units (site_model site.now)) by_some_name recorder.old.log recorder.new.log) }
{
    match of {
        Ok(of) => {
            let checked = source_of(site, &of, value, word, recorder);
            drop(of);
            checked
        }
        Err(fault) => Ok(Err(fault)),
    }
}

fn target_part_at<A: Answers>(
    site: &Site<'_>,
    target: &Expression,
    recorder: &mut Recorder<A>,
) -> Result<CheckResult<Nominal>, NoMemory>
    ensures asked { recorder.new.asked ≡ recorder.old.asked }
    ensures answered { IfOk result (λ checked. FromAnswers recorder.old.log recorder.new.log (λ t. checked ≡ next (term_at t (site_model site.now).place (site_model site.now).packages (expression_model target.now)) (target_part (site_model site.now).predefined))) }
    ensures asks { IfOk result (λ _. AsksOf (site_units (site_model site.now)) by_some_name recorder.old.log recorder.new.log) }
{
    let labeller = site.labeller;
    let standard = &labeller.predefined.standard;
    let (scope, packages) = (site.scope, site.packages);
    let term = term_at(labeller.alloc, standard, scope, packages, target, recorder)?;
    part_of_target(labeller, term)
}

/// The value that is assigned to this target (ARM 5.2). It is expected to have the type of the target's nominal subtype, and may be an
/// aggregate of that.
/// # Errors
/// `NoMemory` if the allocator refuses memory. The inner error is that of the target if it is no object or part of one; else E401 or E404
/// of a name in the value, E402 or E403 at its first token, E405 and E604 in it.
pub fn source_at<A: Answers>(
    site: &Site<'_>,
    target: &Expression,
    value: &Expression,
    word: &mut u32,
    recorder: &mut Recorder<A>,
) -> Result<CheckResult<Typed>, NoMemory>
    ensures asked { recorder.new.asked ≡ recorder.old.asked }
    ensures answered { IfOk result (λ checked. FromAnswers recorder.old.log recorder.new.log (λ t. (word.new, map_ok typed_model checked) ≡ source_at t (site_model site.now) (expression_model target.now) (expression_model value.now) word.old)) }
    ensures asks { IfOk result (λ _. AsksOf (site_units (site_model site.now)) by_some_name recorder.old.log recorder.new.log) }
{
    let of = target_part_at(site, target, recorder)?;
    source_in(site, of, value, word, recorder)
}
