// Calls, except what recurses in them (ARM 6.4).
ghost use Rattle.std.specs.Prelude.{◌≡◌, OnOk, map};
ghost use Rattle.al_view_typed.specs.ExpressionViews.{actual_model, actuals_of};
ghost use Rattle.al_code.specs.Written.{written};
ghost use Rattle.al_code.specs.Templates.{copies_code, copy_code, flag_code, formal_code, mark_code, routine_code};

use crate::Output;
use crate::pieces::{emit_check, emit_flag_place, emit_load_slot, emit_plain, emit_sized};
use al_base::NoMemory;
use al_instr::{Instr, Plain, Sized};
use al_view::{Bounds, LinkKind, Mode, ObjectPlace};
use al_view_typed::{Actual, Callee};

/// Writes the check that a body is elaborated (ARM 3.11(10)).
#[tactic(auto, using(crate::proofs::Writing::written_append, crate::proofs::Writing::written_nothing), unfolding(crate::specs::Templates::flag_code))]
pub(crate) fn emit_flag(
    out: &mut Output,
    depth: u32,
    flag: &Option<ObjectPlace>,
) -> Result<(), NoMemory>
    ensures { OnOk result (out.new ≡ written out.old (flag_code depth flag.now)) }
{
    match flag {
        None => Ok(()),
        Some(place) => {
            emit_flag_place(out, depth, place)?;
            emit_sized(out, Sized::Load, 1)?;
            emit_plain(out, Plain::Access)
        }
    }
}

/// Writes the first words of the called subprogram's frame.
pub(crate) fn emit_mark(out: &mut Output, depth: u32, callee: &Callee) -> Result<(), NoMemory>
    ensures { OnOk result (out.new ≡ written out.old (mark_code depth callee.now)) }
{
    match callee {
        Callee::Subprogram { depth: 0, .. } => emit_plain(out, Plain::Root),
        Callee::Subprogram { depth: d, .. } => {
            emit_sized(out, Sized::Mark, depth.saturating_sub(*d))
        }
        Callee::Protected(_) => emit_plain(out, Plain::Root),
        Callee::Entry(_) => emit_plain(out, Plain::Root),
    }
}

/// Writes the call itself, with actuals of so many words.
pub(crate) fn emit_routine(out: &mut Output, callee: &Callee, words: u32) -> Result<(), NoMemory>
    ensures { OnOk result (out.new ≡ written out.old (routine_code callee.now words)) }
{
    let call = Instr::Call { place: 0, words };
    match callee {
        Callee::Subprogram { symbol, .. } => out.emit_using(&call, LinkKind::Code, symbol),
        Callee::Protected(symbol) => out.emit_using(&call, LinkKind::Code, symbol),
        Callee::Entry(symbol) => out.emit_using(&call, LinkKind::Gate, symbol),
    }
}

/// Writes the check of a value that is passed to a formal of this mode.
#[tactic(auto, using(crate::proofs::Writing::written_nothing))]
pub(crate) fn emit_formal(
    out: &mut Output,
    mode: Mode,
    bounds: &Option<Bounds>,
) -> Result<(), NoMemory>
    ensures { OnOk result (out.new ≡ written out.old (formal_code mode bounds.now)) }
{
    match mode {
        Mode::Out => Ok(()),
        Mode::In => emit_check(out, bounds),
        Mode::InOut => emit_check(out, bounds),
    }
}

/// Writes the copies back to the actuals, from the last one to the first (ARM 6.4.1(17)).
pub(crate) fn emit_copies(out: &mut Output, actuals: &[Actual]) -> Result<(), NoMemory>
    ensures { OnOk result (out.new ≡ written out.old (copies_code (actuals_of (map actual_model actuals.now)))) }
{
    let mut rest = actuals.len();
    while rest > 0 {
        rest -= 1;
        emit_copy(out, &actuals[rest])?;
    }
    Ok(())
}

#[tactic(auto, using(crate::proofs::Writing::written_append, crate::proofs::Writing::written_nothing, al_view_typed::proofs::ExpressionsMade::in_made, al_view_typed::proofs::ExpressionsMade::variable_made))]
fn emit_copy(out: &mut Output, actual: &Actual) -> Result<(), NoMemory>
    ensures { OnOk result (out.new ≡ written out.old (copy_code (actual_model actual.now))) }
{
    match actual {
        Actual::In(_) => Ok(()),
        Actual::Variable {
            words,
            actual: bounds,
            slot,
            ..
        } => {
            emit_check(out, bounds)?;
            emit_load_slot(out, *slot)?;
            emit_sized(out, Sized::Store, *words)
        }
    }
}
