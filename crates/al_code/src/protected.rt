// Protected objects and their entries (ARM 9.5).
ghost use Rattle.std.specs.Prelude.{◌≡◌, ◌++◌, OnOk};
ghost use Rattle.al_instr.specs.declared.numbers.Plain.TheVariants.{Leave};
ghost use Rattle.al_instr.specs.declared.numbers.Protected.TheVariants.{Wake};
ghost use Rattle.al_instr.specs.declared.numbers.Sized.TheVariants.{Return};
ghost use Rattle.al_code.specs.Written.{written};
ghost use Rattle.al_code.specs.ExprPieces.{guarded, of_size, one};
ghost use Rattle.al_code.specs.Routines.{act_code, barrier_code, entry_call_code, gate_code, served_code};

use crate::{Construct, Output, emit_place, emit_plain, emit_sized, emit_unless_zero};
use al_base::NoMemory;
use al_instr::{Instr, Plain, Protected, Sized};
use al_view::{LinkKind, ObjectPlace, Symbol};
use al_view_typed::EntryOf;

/// Writes an action on a protected object.
pub(crate) fn emit_act(out: &mut Output, what: Protected, object: &Symbol) -> Result<(), NoMemory>
    ensures { OnOk result (out.new ≡ written out.old (act_code what object.now)) }
{
    out.emit_using(&Instr::Protected(what, 0), LinkKind::Protected, object)
}

/// Writes the value of a barrier.
#[tactic(auto, using(crate::proofs::Writing::written_append), unfolding(crate::specs::Routines::barrier_code))]
fn emit_barrier(out: &mut Output, depth: u32, barrier: &ObjectPlace) -> Result<(), NoMemory>
    ensures { OnOk result (out.new ≡ written out.old (barrier_code depth barrier.now)) }
{
    emit_place(out, depth, barrier)?;
    emit_sized(out, Sized::Load, 1)
}

/// Writes the call of an entry's body.
#[tactic(auto, using(crate::proofs::Writing::written_append), unfolding(crate::specs::Routines::entry_call_code))]
fn emit_entry_call(out: &mut Output, entry: &Symbol) -> Result<(), NoMemory>
    ensures { OnOk result (out.new ≡ written out.old (entry_call_code entry.now)) }
{
    emit_plain(out, Plain::Root)?;
    let call = Instr::Call { place: 0, words: 0 };
    out.emit_using(&call, LinkKind::EntryBody, entry)
}

/// Writes that those who wait at the entry are served if its barrier is open (ARM 9.5.3).
#[tactic(auto, using(crate::proofs::Writing::written_append, crate::proofs::Writing::written_nothing), unfolding(crate::specs::Routines::served_code))]
pub(crate) fn emit_served(
    out: &mut Output,
    depth: u32,
    object: &Symbol,
    entry: &Option<EntryOf>,
) -> Result<(), NoMemory>
    ensures { OnOk result (out.new ≡ written out.old (served_code depth object.now entry.now)) }
{
    match entry {
        None => Ok(()),
        Some(entry) => {
            emit_act(out, Protected::Waiting, object)?;
            emit_open(out, depth, object, entry)
        }
    }
}

/// Writes what is done if a task waits at the entry.
fn emit_open(out: &mut Output, depth: u32, object: &Symbol, entry: &EntryOf) -> Result<(), NoMemory>
    ensures { OnOk result (out.new ≡ written out.old (guarded (barrier_code depth entry.now.barrier ++ guarded (entry_call_code entry.now.entry ++ act_code Wake object.now)))) }
{
    let first = out.leaving();
    emit_unless_zero(out)?;
    emit_barrier(out, depth, &entry.barrier)?;
    emit_woken(out, object, &entry.entry)?;
    out.close(first, Construct::Test)?;
    Ok(())
}

/// Writes what is done if a task waits and the barrier is open.
fn emit_woken(out: &mut Output, object: &Symbol, entry: &Symbol) -> Result<(), NoMemory>
    ensures { OnOk result (out.new ≡ written out.old (guarded (entry_call_code entry.now ++ act_code Wake object.now))) }
{
    let first = out.leaving();
    emit_unless_zero(out)?;
    emit_entry_call(out, entry)?;
    emit_act(out, Protected::Wake, object)?;
    out.close(first, Construct::Test)?;
    Ok(())
}

/// Writes the gate of an entry: its body is called if the barrier is open, and else the caller waits.
#[tactic(auto, using(crate::proofs::Writing::written_append), unfolding(crate::specs::Routines::gate_code))]
pub(crate) fn emit_gate(
    out: &mut Output,
    depth: u32,
    entry: &Symbol,
    object: &Symbol,
    barrier: &ObjectPlace,
) -> Result<(), NoMemory>
    ensures { OnOk result (out.new ≡ written out.old (gate_code depth entry.now object.now barrier.now)) }
{
    emit_act(out, Protected::EnterEntry, object)?;
    emit_barrier(out, depth, barrier)?;
    emit_passed(out, entry)?;
    emit_act(out, Protected::Block, object)?;
    emit_sized(out, Sized::Return, 0)
}

/// Writes what is done if the barrier is open.
fn emit_passed(out: &mut Output, entry: &Symbol) -> Result<(), NoMemory>
    ensures { OnOk result (out.new ≡ written out.old (guarded (entry_call_code entry.now ++ one Leave ++ of_size Return 0))) }
{
    let first = out.leaving();
    emit_unless_zero(out)?;
    emit_entry_call(out, entry)?;
    emit_plain(out, Plain::Leave)?;
    emit_sized(out, Sized::Return, 0)?;
    out.close(first, Construct::Test)?;
    Ok(())
}
