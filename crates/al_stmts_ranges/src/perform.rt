// What a name alone does.
ghost use Rattle.std.specs.Prelude.{◌≡◌, IfOk};
ghost use Rattle.al_base_fault.specs.Judging.{next, map_ok, unless};
ghost use Rattle.al_stmts_ranges.specs.PerformedAt.{call_effect_at, call_effect_after, call_effect_numbered, call_effect_of, call_effect_with_words};
ghost use Rattle.al_overload_values.specs.TextsAt.{term_with_model};
ghost use Rattle.al_overload_values.specs.Puts.{call_effect};
ghost use Rattle.al_overload_values.specs.Seen.{call_effect_model as put_model};
ghost use Rattle.al_query.specs.Asked.{AsksOf, by_some_name};
ghost use Rattle.al_query.specs.Reads.{FromAnswers};
ghost use Rattle.al_stmts_text.specs.PerformedViews.{call_effect_model};
ghost use Rattle.al_tree.specs.ExpressionViews.{expression_model};
ghost use Rattle.al_overload_values.specs.Surroundings.{site_model, site_units};

use al_base::NoMemory;
use al_base_fault::{CheckResult, Fault, unless};
use al_overload::Term;
use al_overload_nodes::Labeller;
use al_overload_slots::{number_call, number_pieces};
use al_overload_values::{CallEffect as Labelled, Site, check_performed, context_with_at};
use al_query::{Answers, Recorder};
use al_stmts_text::CallEffect;
use al_tree::Expression;

fn number(call_effect: &mut CallEffect, word: u32) -> u32
    ensures form { call_effect_model call_effect.new ≡ call_effect_numbered word (call_effect_model call_effect.old) }
    ensures word { result ≡ call_effect_after word (call_effect_model call_effect.old) }
{
    match call_effect {
        CallEffect::Called(call) => number_call(call, word),
        CallEffect::Put(pieces, _) => number_pieces(pieces, word),
    }
}

/// Gives the temporaries of what is right their words, from this one on, and leaves the next one there.
#[tactic(auto, unfolding(crate::specs::PerformedAt::call_effect_with_words))]
fn take_words(checked: &mut CheckResult<CallEffect>, word: &mut u32)
    ensures { (word.new, map_ok call_effect_model checked.new) ≡ call_effect_with_words word.old (map_ok call_effect_model checked.old) }
{
    match checked {
        Ok(call_effect) => {
            *word = number(call_effect, *word);
        }
        Err(_) => {}
    }
}

fn call_effect_of(labelled: CheckResult<Labelled>) -> CheckResult<CallEffect>
    ensures { map_ok call_effect_model result ≡ map_ok call_effect_of (map_ok put_model labelled) }
{
    match labelled {
        Ok(Labelled::Call(call)) => Ok(CallEffect::Called(call)),
        Ok(Labelled::Put { pieces, ends_line }) => Ok(CallEffect::Put(pieces, ends_line)),
        Err(fault) => Err(fault),
    }
}

#[tactic(auto, using(al_overload_values::proofs::Seen::seen_unless))]
fn check(
    labeller: &Labeller,
    term: CheckResult<(Term, Option<Fault>)>,
) -> Result<CheckResult<Labelled>, NoMemory>
    ensures { IfOk result (λ checked. map_ok put_model checked ≡ next (map_ok term_with_model term) (λ w. unless w.1 (call_effect labeller.now.predefined labeller.now.own w.0))) }
{
    match term {
        Ok((term, fault)) => {
            let checked = check_performed(labeller, &term);
            drop(term);
            Ok(unless(fault, checked?))
        }
        Err(fault) => Ok(Err(fault)),
    }
}

/// What a name alone does at a place: a call of a procedure or an entry, Put, Put_Line or New_Line. The words of its temporaries begin at
/// `word`, which is the next free one afterwards.
/// # Errors
/// `NoMemory` if the allocator refuses memory. The inner error is E401 or E404 of a name in it; else E402 or E403 at its first token, E604
/// of an operation of the own protected object, or what is wrong with its arguments.
pub fn call_effect_at<A: Answers>(
    site: &Site<'_>,
    expression: &Expression,
    word: &mut u32,
    recorder: &mut Recorder<A>,
) -> Result<CheckResult<CallEffect>, NoMemory>
    ensures asked { recorder.new.asked ≡ recorder.old.asked }
    ensures answered { IfOk result (λ checked. FromAnswers recorder.old.log recorder.new.log (λ t. (word.new, map_ok call_effect_model checked) ≡ call_effect_at t (site_model site.now) (expression_model expression.now) word.old)) }
    ensures asks { IfOk result (λ _. AsksOf (site_units (site_model site.now)) by_some_name recorder.old.log recorder.new.log) }
{
    let labeller = site.labeller;
    let (scope, packages) = (site.scope, site.packages);
    let term = context_with_at(labeller, scope, packages, expression, recorder)?;
    let labelled = check(labeller, term)?;
    let mut checked = call_effect_of(labelled);
    take_words(&mut checked, word);
    Ok(checked)
}
