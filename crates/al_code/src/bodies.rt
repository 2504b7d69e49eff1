// Bodies and elaborations (ARM 6.3, 9.1, 9.5, 10.2).
ghost use Rattle.std.specs.Prelude.{◌≡◌, ◌++◌, OnOk};
ghost use Rattle.std.specs.List.{flat_map};
ghost use Rattle.al_instr.specs.declared.numbers.Sized.TheVariants as sized;
ghost use Rattle.al_view_typed.specs.UnitTrees.{body_model, elaboration_model};
ghost use Rattle.al_code.specs.Written.{written};
ghost use Rattle.al_code.specs.ExprPieces.{of_size, slot};
ghost use Rattle.al_code.specs.Routines.{begun_code, body_code, copied_code, elaboration_code, ending_code, entry_code, formal_code, function_code, inside_code, procedure_code, protected_function_code, protected_procedure_code, task_code};

use crate::declarations::emit_declarations;
use crate::marks::emit_mark;
use crate::protected::{emit_act, emit_gate, emit_served};
use crate::routine::Routine;
use crate::statements::emit_statements;
use crate::{Construct, Output, emit_plain, emit_sized, emit_slot};
use al_base::NoMemory;
use al_instr::{Plain, Protected, Sized};
use al_view::{LinkKind, Mode, ObjectPlace, Symbol};
use al_view_typed::{BodyKind, Elaboration, EntryOf, FormalWords, TypedBody};

/// Writes the code that elaborates a unit (ARM 10.2(9)).
#[tactic(auto, using(crate::proofs::Writing::written_append), unfolding(al_view_typed::specs::UnitTrees::elaboration_model, crate::specs::Routines::elaboration_code))]
pub(crate) fn emit_elaboration(out: &mut Output, elaboration: &Elaboration) -> Result<(), NoMemory>
    ensures { OnOk result (out.new ≡ written out.old (elaboration_code (elaboration_model elaboration.now))) }
{
    emit_mark(out, true, elaboration.line)?;
    emit_inside(out, Routine::within(1), false, elaboration)?;
    emit_sized(out, Sized::Return, 0)
}

/// Writes a body, by its kind.
#[tactic(auto, unfolding(al_view_typed::specs::UnitTrees::body_model))]
pub(crate) fn emit_body(out: &mut Output, body: &TypedBody) -> Result<(), NoMemory>
    ensures { OnOk result (out.new ≡ written out.old (body_code (body_model body.now))) }
{
    match &body.kind {
        BodyKind::Procedure { copied } => emit_procedure(out, body, *copied),
        BodyKind::Function { end, .. } => emit_function(out, body, *end),
        BodyKind::Task => emit_task(out, body),
        BodyKind::ProtectedProcedure {
            object,
            entry,
            copied,
        } => emit_protected_procedure(out, body, object, entry, *copied),
        BodyKind::ProtectedFunction { object, end, .. } => {
            emit_protected_function(out, body, object, *end)
        },
        BodyKind::Entry { object, barrier } => emit_entry(out, body, object, barrier),
    }
}

#[tactic(auto, using(crate::proofs::Writing::written_append), unfolding(al_view_typed::specs::UnitTrees::body_model, al_view_typed::specs::UnitTrees::elaboration_model, crate::specs::Routines::procedure_code))]
fn emit_procedure(out: &mut Output, body: &TypedBody, copied: u32) -> Result<(), NoMemory>
    ensures { OnOk result (out.new ≡ written out.old (procedure_code (body_model body.now) copied)) }
{
    out.begin(LinkKind::Code, &body.symbol)?;
    emit_mark(out, true, body.inside.line)?;
    emit_inside(out, Routine::within(body.depth), false, &body.inside)?;
    emit_copied(out, body.formals.as_slice(), copied)
}

/// Writes a function. One that runs past its end raises Program_Error (ARM 6.5(20)).
#[tactic(auto, using(crate::proofs::Writing::written_append), unfolding(al_view_typed::specs::UnitTrees::body_model, al_view_typed::specs::UnitTrees::elaboration_model, crate::specs::Routines::function_code))]
fn emit_function(out: &mut Output, body: &TypedBody, end: usize) -> Result<(), NoMemory>
    ensures { OnOk result (out.new ≡ written out.old (function_code (body_model body.now) end)) }
{
    out.begin(LinkKind::Code, &body.symbol)?;
    emit_mark(out, true, body.inside.line)?;
    emit_inside(out, Routine::within(body.depth), false, &body.inside)?;
    emit_mark(out, true, end)?;
    emit_sized(out, Sized::Raise, 2)
}

#[tactic(auto, using(crate::proofs::Writing::written_append), unfolding(al_view_typed::specs::UnitTrees::body_model, al_view_typed::specs::UnitTrees::elaboration_model, crate::specs::Routines::task_code))]
fn emit_task(out: &mut Output, body: &TypedBody) -> Result<(), NoMemory>
    ensures { OnOk result (out.new ≡ written out.old (task_code (body_model body.now))) }
{
    out.begin(LinkKind::Code, &body.symbol)?;
    emit_mark(out, true, body.inside.line)?;
    emit_inside(out, Routine::within(body.depth), true, &body.inside)?;
    emit_plain(out, Plain::Done)
}

#[tactic(auto, using(crate::proofs::Writing::written_append), unfolding(al_view_typed::specs::UnitTrees::body_model, al_view_typed::specs::UnitTrees::elaboration_model, crate::specs::Routines::protected_procedure_code))]
fn emit_protected_procedure(
    out: &mut Output,
    body: &TypedBody,
    object: &Symbol,
    entry: &Option<EntryOf>,
    copied: u32,
) -> Result<(), NoMemory>
    ensures { OnOk result (out.new ≡ written out.old (protected_procedure_code (body_model body.now) object.now entry.now copied)) }
{
    out.begin(LinkKind::Code, &body.symbol)?;
    emit_mark(out, true, body.inside.line)?;
    emit_act(out, Protected::Enter, object)?;
    emit_inside(out, Routine::within(body.depth), false, &body.inside)?;
    emit_served(out, body.depth, object, entry)?;
    emit_plain(out, Plain::Leave)?;
    emit_copied(out, body.formals.as_slice(), copied)
}

#[tactic(auto, using(crate::proofs::Writing::written_append), unfolding(al_view_typed::specs::UnitTrees::body_model, al_view_typed::specs::UnitTrees::elaboration_model, crate::specs::Routines::protected_function_code))]
fn emit_protected_function(
    out: &mut Output,
    body: &TypedBody,
    object: &Symbol,
    end: usize,
) -> Result<(), NoMemory>
    ensures { OnOk result (out.new ≡ written out.old (protected_function_code (body_model body.now) object.now end)) }
{
    out.begin(LinkKind::Code, &body.symbol)?;
    emit_mark(out, true, body.inside.line)?;
    emit_act(out, Protected::Enter, object)?;
    emit_inside(out, Routine::unlocking(body.depth), false, &body.inside)?;
    emit_mark(out, true, end)?;
    emit_sized(out, Sized::Raise, 2)
}

#[tactic(auto, using(crate::proofs::Writing::written_append), unfolding(al_view_typed::specs::UnitTrees::body_model, al_view_typed::specs::UnitTrees::elaboration_model, crate::specs::Routines::entry_code))]
fn emit_entry(
    out: &mut Output,
    body: &TypedBody,
    object: &Symbol,
    barrier: &ObjectPlace,
) -> Result<(), NoMemory>
    ensures { OnOk result (out.new ≡ written out.old (entry_code (body_model body.now) object.now barrier.now)) }
{
    out.begin(LinkKind::Gate, &body.symbol)?;
    emit_mark(out, true, body.inside.line)?;
    emit_gate(out, body.depth, &body.symbol, object, barrier)?;
    out.begin(LinkKind::EntryBody, &body.symbol)?;
    emit_mark(out, true, body.inside.line)?;
    emit_inside(out, Routine::within(body.depth), false, &body.inside)?;
    emit_sized(out, Sized::Return, 0)
}

/// Writes the inside of a body: its frame, its declarations and its statements.
#[tactic(auto, using(crate::proofs::Writing::written_append), unfolding(al_view_typed::specs::UnitTrees::elaboration_model, crate::specs::Routines::inside_code))]
fn emit_inside(
    out: &mut Output,
    routine: Routine,
    is_task: bool,
    inside: &Elaboration,
) -> Result<(), NoMemory>
    ensures { OnOk result (out.new ≡ written out.old (inside_code routine is_task (elaboration_model inside.now))) }
{
    emit_sized(out, Sized::Enter, inside.frame)?;
    emit_declarations(out, routine.depth, &inside.declarations)?;
    emit_begun(out, is_task)?;
    emit_ending(out, routine, inside)
}

/// Writes the statements, and their end, to which returns lead.
fn emit_ending(out: &mut Output, routine: Routine, inside: &Elaboration) -> Result<(), NoMemory>
    ensures { OnOk result (out.new ≡ written out.old (ending_code routine (elaboration_model inside.now))) }
{
    let first = out.leaving();
    emit_statements(out, routine, &inside.statements)?;
    out.close(first, Construct::Routine)?;
    Ok(())
}

/// Writes that the activation of a task ends, if the body is that of a task (ARM 9.2).
#[tactic(auto, using(crate::proofs::Writing::written_nothing))]
fn emit_begun(out: &mut Output, is_task: bool) -> Result<(), NoMemory>
    ensures { OnOk result (out.new ≡ written out.old (begun_code is_task)) }
{
    if is_task {
        return emit_plain(out, Plain::Begun);
    }
    Ok(())
}

/// Writes the return of a procedure that copies back `copied` words (ARM 6.4.1(17)).
#[tactic(auto, using(crate::proofs::Writing::written_append), unfolding(crate::specs::Routines::copied_code))]
fn emit_copied(out: &mut Output, formals: &[FormalWords], copied: u32) -> Result<(), NoMemory>
    ensures { OnOk result (out.new ≡ written out.old (copied_code formals.now copied)) }
{
    emit_formals(out, formals)?;
    emit_sized(out, Sized::Return, copied)
}

fn emit_formals(out: &mut Output, formals: &[FormalWords]) -> Result<(), NoMemory>
    ensures { OnOk result (out.new ≡ written out.old (flat_map formal_code formals.now)) }
{
    for formal in formals {
        emit_formal(out, *formal)?;
    }
    Ok(())
}

#[tactic(auto, using(crate::proofs::Writing::written_append, crate::proofs::Writing::written_nothing), unfolding(crate::specs::Routines::formal_code))]
fn emit_formal(out: &mut Output, formal: FormalWords) -> Result<(), NoMemory>
    ensures { OnOk result (out.new ≡ written out.old (formal_code formal)) }
{
    match formal.mode {
        Mode::In => Ok(()),
        Mode::Out => emit_words(out, formal.word, formal.words),
        Mode::InOut => emit_words(out, formal.word, formal.words),
    }
}

/// Writes loads of `words` words of the frame, from this one on.
#[tactic(auto, using(crate::proofs::Writing::written_append))]
fn emit_words(out: &mut Output, word: u32, words: u32) -> Result<(), NoMemory>
    ensures { OnOk result (out.new ≡ written out.old (slot word ++ of_size sized.Load words)) }
{
    emit_slot(out, word)?;
    emit_sized(out, Sized::Load, words)
}
