// Calls as statements (ARM 6.4, 9.5.3, A.10.7).
ghost use Rattle.std.specs.Prelude.{◌≡◌, IfOk, option_map};
ghost use Rattle.std.specs.Option.{option_copied};
ghost use Rattle.al_overload.specs.Counts.{label_of};
ghost use Rattle.al_base_fault.specs.Judging.{map_ok};
ghost use Rattle.al_overload.specs.TermViews.{term_model};
ghost use Rattle.al_overload_values.specs.Puts.{called, ends_line, call_effect, call_effect_by, call_effect_read, put_checked, visible_under};
ghost use Rattle.al_overload_values.specs.Seen.{call_effect_model, pieces_model};
ghost use Rattle.al_view_typed.specs.ExpressionViews.{call_model};
ghost use Rattle.al_view_typed.specs.StatementTrees.{StatementFormTree as forms};

use crate::put_text::{Pieces, read_pieces};
use al_base::NoMemory;
use al_base_fault::{CheckResult, unless};
use al_overload::{
    Context, Labelled, Term, declared_under, first_place, interpret_term, nothing_fits,
};
use al_overload_nodes::{Labeller, picked_subprogram, read_call};
use al_view::{CallKind, SubprogramView, View};
use al_view_predefined::StandardTypes;
use al_view_typed::{Piece, TypedCall};

/// What a call as a statement does.
#[derive(Drop)]
pub enum CallEffect {
    /// It calls a procedure or an entry (ARM 6.4, 9.5.3).
    Call(TypedCall),
    /// It puts these pieces; the flag says whether the line ends then (ARM A.10.5, A.10.7).
    Put { pieces: Vec<Piece>, ends_line: bool },
}

/// What is visible under the name of what is called.
#[tactic(auto, using(al_overload_nodes::proofs::TermsSeen::terms_made))]
fn visible_under(term: &Term) -> Option<&[View]>
    ensures { option_map (λ visible. visible.now) result ≡ visible_under (term_model term.now) }
{
    match term {
        Term::Applied { name, arguments: _ } => declared_under(name),
        Term::Named { place: _, views } => Some(views.as_slice()),
        Term::Number { .. } => None,
        Term::Text { .. } => None,
        Term::Selected { .. } => None,
        Term::Bound { .. } => None,
        Term::Length { .. } => None,
        Term::Conversion { .. } => None,
        Term::Qualified { .. } => None,
        Term::Attribute { .. } => None,
        Term::Image { .. } => None,
        Term::Prefixed { .. } => None,
        Term::Infix { .. } => None,
        Term::Concatenation { .. } => None,
        Term::ShortCircuit { .. } => None,
        Term::Member { .. } => None,
        Term::RangeMember { .. } => None,
        Term::Group { .. } => None,
        Term::Aggregate { .. } => None,
        Term::Others { .. } => None,
        Term::Nothing { .. } => None,
    }
}

/// The subprogram that is called.
fn called<'a>(
    standard: &StandardTypes,
    term: &'a Term,
    label: &Labelled,
) -> Option<&'a SubprogramView>
    ensures { option_copied result ≡ called (term_model term.now) (label_of label.now) }
{
    match visible_under(term) {
        Some(visible) => picked_subprogram(standard, visible, label),
        None => None,
    }
}

/// Whether the procedure ends its line: each does except Put.
fn ends_line(name: &[u8]) -> bool
    ensures { result ≡ ends_line name.now }
{
    if name == b"put".as_slice() {
        return false;
    }
    true
}

fn put(name: &[u8], pieces: Pieces) -> CheckResult<CallEffect>
    ensures { map_ok call_effect_model result ≡ put_checked name.now (pieces_model pieces) }
{
    let Pieces {
        failure: _,
        fault,
        items,
    } = pieces;
    let ends_line = ends_line(name);
    unless(
        fault,
        Ok(CallEffect::Put {
            pieces: items,
            ends_line,
        }),
    )
}

fn call(call: CheckResult<TypedCall>) -> CheckResult<CallEffect>
    ensures { map_ok call_effect_model result ≡ map_ok forms.CallStatement (map_ok call_model call) }
{
    match call {
        Ok(call) => Ok(CallEffect::Call(call)),
        Err(fault) => Err(fault),
    }
}

fn perform(
    labeller: &Labeller,
    term: &Term,
    label: &Labelled,
    subprogram: &SubprogramView,
) -> Result<CheckResult<CallEffect>, NoMemory>
    ensures { IfOk result (λ call_effect. map_ok call_effect_model call_effect ≡ call_effect_by labeller.now.predefined labeller.now.own (term_model term.now) (label_of label.now) subprogram.now subprogram.now.call) }
{
    match &subprogram.call {
        CallKind::Predefined => {
            let pieces = read_pieces(labeller, term)?;
            Ok(put(subprogram.symbol.name.as_slice(), pieces))
        }
        CallKind::Subprogram { .. } => {
            let made = read_call(labeller, term, label)?;
            Ok(call(made))
        }
        CallKind::Protected => {
            let made = read_call(labeller, term, label)?;
            Ok(call(made))
        }
        CallKind::Entry => {
            let made = read_call(labeller, term, label)?;
            Ok(call(made))
        }
        CallKind::Operator { .. } => Ok(Err(nothing_fits(first_place(term)))),
    }
}

fn read_performed(
    labeller: &Labeller,
    term: &Term,
    label: &Labelled,
) -> Result<CheckResult<CallEffect>, NoMemory>
    ensures { IfOk result (λ call_effect. map_ok call_effect_model call_effect ≡ call_effect_read labeller.now.predefined labeller.now.own (term_model term.now) (label_of label.now)) }
{
    match called(&labeller.predefined.standard, term, label) {
        Some(subprogram) => perform(labeller, term, label, subprogram),
        None => Ok(Err(nothing_fits(first_place(term)))),
    }
}

/// What a call as a statement does.
/// # Errors
/// `NoMemory` if the allocator refuses memory. The inner error is E402 or E403 at its first token, E604 of an operation of the own
/// protected object, or the first fault in its arguments.
pub fn check_performed(
    labeller: &Labeller,
    term: &Term,
) -> Result<CheckResult<CallEffect>, NoMemory>
    ensures { IfOk result (λ made. map_ok call_effect_model made ≡ call_effect labeller.now.predefined labeller.now.own (term_model term.now)) }
{
    let context = Context::ProcedureCall;
    let (alloc, predefined) = (labeller.alloc, &labeller.predefined);
    let meaning = interpret_term(alloc, predefined, &context, &None, term);
    drop(context);
    match meaning? {
        Ok(label) => {
            let call_effect = read_performed(labeller, term, &label);
            drop(label);
            call_effect
        }
        Err(fault) => Ok(Err(fault)),
    }
}
