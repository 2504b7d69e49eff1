// The lines of replies, written piece by piece without memory.
ghost use Rattle.std.specs.Prelude.{◌≡◌, ◌-◌, ◌^◌, ◌<◌, IsOk, map};
ghost use Rattle.std.specs.List.{flat_map};
ghost use Rattle.al_base.specs.Batch.{finding_of, key_of};
ghost use Rattle.al_bind.specs.Binding.{line_model};
ghost use Rattle.al_session_stream.specs.Output.{Adds};
ghost use Rattle.al_session_served.specs.Builds.{run_model};
ghost use Rattle.al_session_served.specs.Library.{file_unit_of};
ghost use Rattle.al_session_served.specs.declared.run.RunEnd.TheVariants.{Raised};
ghost use Rattle.al_session_served.specs.Replies.{refused, finding_line, kind_word, key_words, key_line, reason_word, cycle_line, file_line, exception_word, line_words, end_words, run_reply};

use crate::run::{Exception, RunEnd, RunReport};
use al_base::{Diagnostic, Name, Refusal, UnitKey, UnitKind};
use al_base_words::{message_of, word_of};
use al_bind::{Line, Reason};
use al_session_stream::{Device, Sink, emit, emit_number};

/// Writes that a command is refused, with the number and the word of the refusal.
///
/// # Errors
/// As for `emit`.
pub fn emit_refusal<K: Sink>(
    so_far: Result<(), Device>,
    writer: &mut K,
    refusal: Refusal,
) -> Result<(), Device>
    requires { IsOk so_far → K.faults writer.old < 2 ^ 64 - 1 }
    ensures faults { IsOk result → IsOk so_far × (K.faults writer.new ≡ K.faults writer.old) }
    ensures adds { Adds K.written K.faults K.waits writer.old writer.new so_far result (refused refusal) }
{
    let so_far = emit(so_far, writer, b"refused ");
    let so_far = emit_number(so_far, writer, usize::from(refusal.number()));
    let so_far = emit(so_far, writer, b" ");
    let so_far = emit(so_far, writer, word_of(refusal));
    emit(so_far, writer, b"\n")
}

// Writes FILE:LINE:COL: CODE TEXT.
fn emit_finding<K: Sink>(
    so_far: Result<(), Device>,
    writer: &mut K,
    diagnostic: &Diagnostic,
) -> Result<(), Device>
    requires { IsOk so_far → K.faults writer.old < 2 ^ 64 - 1 }
    ensures faults { IsOk result → IsOk so_far × (K.faults writer.new ≡ K.faults writer.old) }
    ensures adds { Adds K.written K.faults K.waits writer.old writer.new so_far result (finding_line (finding_of diagnostic.now)) }
{
    let so_far = emit(so_far, writer, diagnostic.file.as_slice());
    let so_far = emit(so_far, writer, b":");
    let so_far = emit_number(so_far, writer, diagnostic.place.line as usize);
    let so_far = emit(so_far, writer, b":");
    let so_far = emit_number(so_far, writer, diagnostic.place.col as usize);
    let so_far = emit(so_far, writer, b": ");
    let so_far = emit(so_far, writer, message_of(diagnostic.code));
    emit(so_far, writer, b"\n")
}

/// Writes a line for each diagnostic.
///
/// # Errors
/// As for `emit`.
pub fn emit_findings<K: Sink>(
    mut so_far: Result<(), Device>,
    writer: &mut K,
    diagnostics: &[Diagnostic],
) -> Result<(), Device>
    requires { IsOk so_far → K.faults writer.old < 2 ^ 64 - 1 }
    ensures faults { IsOk result → IsOk so_far × (K.faults writer.new ≡ K.faults writer.old) }
    ensures adds { Adds K.written K.faults K.waits writer.old writer.new so_far result (flat_map finding_line (map finding_of diagnostics.now)) }
{
    for diagnostic in diagnostics {
        so_far = emit_finding(so_far, writer, diagnostic);
    }
    so_far
}

fn kind_word(kind: UnitKind) -> &'static [u8]
    ensures { result.now ≡ kind_word kind }
{
    match kind {
        UnitKind::Decl => b"decl",
        UnitKind::Body => b"body",
        UnitKind::Sub => b"sub",
    }
}

// Writes UNIT KIND.
fn emit_key<K: Sink>(
    so_far: Result<(), Device>,
    writer: &mut K,
    key: &UnitKey,
) -> Result<(), Device>
    requires { IsOk so_far → K.faults writer.old < 2 ^ 64 - 1 }
    ensures faults { IsOk result → IsOk so_far × (K.faults writer.new ≡ K.faults writer.old) }
    ensures adds { Adds K.written K.faults K.waits writer.old writer.new so_far result (key_words (key_of key.now)) }
{
    let so_far = emit(so_far, writer, key.name.as_slice());
    let so_far = emit(so_far, writer, b" ");
    emit(so_far, writer, kind_word(key.kind))
}

// Writes UNIT KIND as a line.
fn emit_key_line<K: Sink>(
    so_far: Result<(), Device>,
    writer: &mut K,
    key: &UnitKey,
) -> Result<(), Device>
    requires { IsOk so_far → K.faults writer.old < 2 ^ 64 - 1 }
    ensures faults { IsOk result → IsOk so_far × (K.faults writer.new ≡ K.faults writer.old) }
    ensures adds { Adds K.written K.faults K.waits writer.old writer.new so_far result (key_line (key_of key.now)) }
{
    let so_far = emit_key(so_far, writer, key);
    emit(so_far, writer, b"\n")
}

/// Writes a line for each unit.
///
/// # Errors
/// As for `emit`.
pub fn emit_keys<K: Sink>(
    mut so_far: Result<(), Device>,
    writer: &mut K,
    keys: &[UnitKey],
) -> Result<(), Device>
    requires { IsOk so_far → K.faults writer.old < 2 ^ 64 - 1 }
    ensures faults { IsOk result → IsOk so_far × (K.faults writer.new ≡ K.faults writer.old) }
    ensures adds { Adds K.written K.faults K.waits writer.old writer.new so_far result (flat_map key_line (map key_of keys.now)) }
{
    for key in keys {
        so_far = emit_key_line(so_far, writer, key);
    }
    so_far
}

fn reason_word(reason: Reason) -> &'static [u8]
    ensures { result.now ≡ reason_word reason }
{
    match reason {
        Reason::Depends => b"depends",
        Reason::Elaborate => b"elaborate",
        Reason::ElaborateAll => b"elaborate_all",
    }
}

// Writes X after Y by REASON.
fn emit_cycle_line<K: Sink>(
    so_far: Result<(), Device>,
    writer: &mut K,
    line: &Line,
) -> Result<(), Device>
    requires { IsOk so_far → K.faults writer.old < 2 ^ 64 - 1 }
    ensures faults { IsOk result → IsOk so_far × (K.faults writer.new ≡ K.faults writer.old) }
    ensures adds { Adds K.written K.faults K.waits writer.old writer.new so_far result (cycle_line (line_model line.now)) }
{
    let so_far = emit_key(so_far, writer, &line.after);
    let so_far = emit(so_far, writer, b" after ");
    let so_far = emit_key(so_far, writer, &line.before);
    let so_far = emit(so_far, writer, b" by ");
    let so_far = emit(so_far, writer, reason_word(line.reason));
    emit(so_far, writer, b"\n")
}

/// Writes the lines of a cycle.
///
/// # Errors
/// As for `emit`.
pub fn emit_cycle_lines<K: Sink>(
    mut so_far: Result<(), Device>,
    writer: &mut K,
    lines: &[Line],
) -> Result<(), Device>
    requires { IsOk so_far → K.faults writer.old < 2 ^ 64 - 1 }
    ensures faults { IsOk result → IsOk so_far × (K.faults writer.new ≡ K.faults writer.old) }
    ensures adds { Adds K.written K.faults K.waits writer.old writer.new so_far result (flat_map cycle_line (map line_model lines.now)) }
{
    for line in lines {
        so_far = emit_cycle_line(so_far, writer, line);
    }
    so_far
}

// Writes FILE KIND UNIT, or FILE fault.
fn emit_file_line<K: Sink>(
    so_far: Result<(), Device>,
    writer: &mut K,
    file: &Name,
    unit: &Option<UnitKey>,
) -> Result<(), Device>
    requires { IsOk so_far → K.faults writer.old < 2 ^ 64 - 1 }
    ensures faults { IsOk result → IsOk so_far × (K.faults writer.new ≡ K.faults writer.old) }
    ensures adds { Adds K.written K.faults K.waits writer.old writer.new so_far result (file_line (file_unit_of (file.now, unit.now))) }
{
    let so_far = emit(so_far, writer, file.as_slice());
    let Some(key) = unit else {
        return emit(so_far, writer, b" fault\n");
    };
    let so_far = emit(so_far, writer, b" ");
    let so_far = emit(so_far, writer, kind_word(key.kind));
    let so_far = emit(so_far, writer, b" ");
    let so_far = emit(so_far, writer, key.name.as_slice());
    emit(so_far, writer, b"\n")
}

/// Writes a line for each file.
///
/// # Errors
/// As for `emit`.
pub fn emit_file_lines<K: Sink>(
    mut so_far: Result<(), Device>,
    writer: &mut K,
    files: &[(Name, Option<UnitKey>)],
) -> Result<(), Device>
    requires { IsOk so_far → K.faults writer.old < 2 ^ 64 - 1 }
    ensures faults { IsOk result → IsOk so_far × (K.faults writer.new ≡ K.faults writer.old) }
    ensures adds { Adds K.written K.faults K.waits writer.old writer.new so_far result (flat_map file_line (map file_unit_of files.now)) }
{
    for (file, unit) in files {
        so_far = emit_file_line(so_far, writer, file, unit);
    }
    so_far
}

fn exception_word(exception: Exception) -> &'static [u8]
    ensures { result.now ≡ exception_word exception }
{
    match exception {
        Exception::Constraint => b"constraint_error",
        Exception::Program => b"program_error",
        Exception::Storage => b"storage_error",
    }
}

// Writes the line number of a raised exception, if it is known.
fn emit_line<K: Sink>(
    so_far: Result<(), Device>,
    writer: &mut K,
    line: Option<u32>,
) -> Result<(), Device>
    requires { IsOk so_far → K.faults writer.old < 2 ^ 64 - 1 }
    ensures faults { IsOk result → IsOk so_far × (K.faults writer.new ≡ K.faults writer.old) }
    ensures adds { Adds K.written K.faults K.waits writer.old writer.new so_far result (line_words line) }
{
    let Some(line) = line else {
        return emit(so_far, writer, b"");
    };
    let so_far = emit(so_far, writer, b" ");
    emit_number(so_far, writer, line as usize)
}

// Writes that an exception ended a run, the unit whose code raised it, and the line of its source.
fn emit_raised<K: Sink>(
    so_far: Result<(), Device>,
    writer: &mut K,
    exception: Exception,
    unit: &UnitKey,
    line: Option<u32>,
) -> Result<(), Device>
    requires { IsOk so_far → K.faults writer.old < 2 ^ 64 - 1 }
    ensures faults { IsOk result → IsOk so_far × (K.faults writer.new ≡ K.faults writer.old) }
    ensures adds { Adds K.written K.faults K.waits writer.old writer.new so_far result (end_words (Raised exception unit.now line)) }
{
    let so_far = emit(so_far, writer, b"raised ");
    let so_far = emit(so_far, writer, exception_word(exception));
    let so_far = emit(so_far, writer, b" ");
    let so_far = emit_key(so_far, writer, unit);
    emit_line(so_far, writer, line)
}

// Writes how a run ended.
fn emit_end<K: Sink>(so_far: Result<(), Device>, writer: &mut K, end: &RunEnd) -> Result<(), Device>
    requires { IsOk so_far → K.faults writer.old < 2 ^ 64 - 1 }
    ensures faults { IsOk result → IsOk so_far × (K.faults writer.new ≡ K.faults writer.old) }
    ensures adds { Adds K.written K.faults K.waits writer.old writer.new so_far result (end_words end.now) }
{
    match end {
        RunEnd::Finished => emit(so_far, writer, b"finished"),
        RunEnd::Idle => emit(so_far, writer, b"idle"),
        RunEnd::Spent => emit(so_far, writer, b"spent"),
        RunEnd::Stuck => emit(so_far, writer, b"stuck"),
        RunEnd::Raised {
            exception,
            unit,
            line,
        } => emit_raised(so_far, writer, *exception, unit, *line),
    }
}

/// Writes the output of a run, and how it ended.
///
/// # Errors
/// As for `emit`.
pub fn emit_ran<K: Sink>(
    so_far: Result<(), Device>,
    writer: &mut K,
    ran: &RunReport,
) -> Result<(), Device>
    requires { IsOk so_far → K.faults writer.old < 2 ^ 64 - 1 }
    ensures faults { IsOk result → IsOk so_far × (K.faults writer.new ≡ K.faults writer.old) }
    ensures adds { Adds K.written K.faults K.waits writer.old writer.new so_far result (run_reply (run_model ran.now)) }
{
    let so_far = emit(so_far, writer, b"output ");
    let output = ran.output.as_slice();
    let so_far = emit_number(so_far, writer, output.len());
    let so_far = emit(so_far, writer, b"\n");
    let so_far = emit(so_far, writer, output);
    let so_far = emit(so_far, writer, b"\nend ");
    let so_far = emit_end(so_far, writer, &ran.ended);
    emit(so_far, writer, b"\n")
}
