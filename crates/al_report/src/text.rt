// Diagnostics as text.
ghost use Rattle.std.specs.Prelude.{◌≡◌, ◌-◌, ◌++◌, ◌^◌, ◌<◌, IsOk};
ghost use Rattle.std.specs.List.{flat_map};
ghost use Rattle.al_session_stream.specs.Output.{Adds};
ghost use Rattle.al_report.specs.Report.{note_line, noted_text, cause_text, mark_at, causes_text, dependents_words, dependents_text, report_text};

use crate::causes::Cause;
use crate::counts::Counts;
use crate::noted::Noted;
use al_base::Files;
use al_folder::{emit_count, emit_shown_bytes, emit_told};
use al_session_stream::{Device, Sink, emit, emit_number};

/// Writes diagnostics of these files, which are in these folders, each with its notes behind it; then how many errors there are, and how
/// many units weren't checked for them.
///
/// # Errors
///
/// As for [`emit`].
pub fn emit_report<K: Sink>(
    so_far: Result<(), Device>,
    writer: &mut K,
    folders: &Files,
    texts: &Files,
    is_plain: bool,
    told: &[Noted<'_>],
    counts: Counts,
    causes: &[Cause],
) -> Result<(), Device>
    requires { IsOk so_far → K.faults writer.old < 2 ^ 64 - 1 }
    ensures faults { IsOk result → IsOk so_far × (K.faults writer.new ≡ K.faults writer.old) }
    ensures adds { Adds K.written K.faults K.waits writer.old writer.new so_far result (report_text folders.now texts.now is_plain told.now counts causes.now) }
{
    let so_far = emit_all(so_far, writer, folders, texts, is_plain, told);
    let so_far = emit_count(so_far, writer, counts.errors);
    emit_dependents(so_far, writer, counts.dependents, causes)
}

fn emit_all<K: Sink>(
    mut so_far: Result<(), Device>,
    writer: &mut K,
    folders: &Files,
    texts: &Files,
    is_plain: bool,
    told: &[Noted<'_>],
) -> Result<(), Device>
    requires { IsOk so_far → K.faults writer.old < 2 ^ 64 - 1 }
    ensures faults { IsOk result → IsOk so_far × (K.faults writer.new ≡ K.faults writer.old) }
    ensures adds { Adds K.written K.faults K.waits writer.old writer.new so_far result (flat_map (noted_text folders.now texts.now is_plain) told.now) }
{
    for noted in told {
        so_far = emit_noted(so_far, writer, folders, texts, is_plain, noted);
    }
    so_far
}

fn emit_noted<K: Sink>(
    so_far: Result<(), Device>,
    writer: &mut K,
    folders: &Files,
    texts: &Files,
    is_plain: bool,
    noted: &Noted<'_>,
) -> Result<(), Device>
    requires { IsOk so_far → K.faults writer.old < 2 ^ 64 - 1 }
    ensures faults { IsOk result → IsOk so_far × (K.faults writer.new ≡ K.faults writer.old) }
    ensures adds { Adds K.written K.faults K.waits writer.old writer.new so_far result (noted_text folders.now texts.now is_plain noted.now) }
{
    let so_far = emit_told(so_far, writer, folders, texts, is_plain, noted.diagnostic);
    emit_notes(so_far, writer, noted.notes.as_slice())
}

fn emit_notes<K: Sink>(
    mut so_far: Result<(), Device>,
    writer: &mut K,
    notes: &[Vec<u8>],
) -> Result<(), Device>
    requires { IsOk so_far → K.faults writer.old < 2 ^ 64 - 1 }
    ensures faults { IsOk result → IsOk so_far × (K.faults writer.new ≡ K.faults writer.old) }
    ensures adds { Adds K.written K.faults K.waits writer.old writer.new so_far result (flat_map (λ note. note_line note.items) notes.now) }
{
    for note in notes {
        so_far = emit_note(so_far, writer, note.as_slice());
    }
    so_far
}

fn emit_note<K: Sink>(so_far: Result<(), Device>, writer: &mut K, note: &[u8]) -> Result<(), Device>
    requires { IsOk so_far → K.faults writer.old < 2 ^ 64 - 1 }
    ensures faults { IsOk result → IsOk so_far × (K.faults writer.new ≡ K.faults writer.old) }
    ensures adds { Adds K.written K.faults K.waits writer.old writer.new so_far result (note_line note.now) }
{
    let so_far = emit(so_far, writer, b"note: ");
    let so_far = emit_shown_bytes(so_far, writer, note);
    emit(so_far, writer, b"\n")
}

// Writes how many units weren't checked, if any wasn't, and for which files.
fn emit_dependents<K: Sink>(
    so_far: Result<(), Device>,
    writer: &mut K,
    count: usize,
    causes: &[Cause],
) -> Result<(), Device>
    requires { IsOk so_far → K.faults writer.old < 2 ^ 64 - 1 }
    ensures faults { IsOk result → IsOk so_far × (K.faults writer.new ≡ K.faults writer.old) }
    ensures adds { Adds K.written K.faults K.waits writer.old writer.new so_far result (dependents_text count causes.now) }
{
    if count == 0 {
        return emit(so_far, writer, b"");
    }
    let so_far = emit_number(so_far, writer, count);
    let so_far = emit(so_far, writer, dependents_words(count));
    let so_far = emit_causes(so_far, writer, b": ", causes);
    emit(so_far, writer, b"\n")
}

fn dependents_words(count: usize) -> &'static [u8]
    ensures { result.now ≡ dependents_words count }
{
    if count == 1 {
        b" unit depends on these and wasn't checked"
    } else {
        b" units depend on these and weren't checked"
    }
}

// Writes the causes, with this mark before the first.
fn emit_causes<K: Sink>(
    mut so_far: Result<(), Device>,
    writer: &mut K,
    mark: &[u8],
    causes: &[Cause],
) -> Result<(), Device>
    requires { IsOk so_far → K.faults writer.old < 2 ^ 64 - 1 }
    ensures faults { IsOk result → IsOk so_far × (K.faults writer.new ≡ K.faults writer.old) }
    ensures adds { Adds K.written K.faults K.waits writer.old writer.new so_far result (causes_text mark.now causes.now) }
{
    for (number, cause) in causes.iter().enumerate() {
        so_far = emit_cause(so_far, writer, mark_at(mark, number), cause);
    }
    so_far
}

// The mark before the cause of a number: this one before the first.
fn mark_at(mark: &[u8], number: usize) -> &[u8]
    ensures { result.now ≡ mark_at mark.now number }
{
    if number == 0 { mark } else { b", " }
}

fn emit_cause<K: Sink>(
    so_far: Result<(), Device>,
    writer: &mut K,
    mark: &[u8],
    cause: &Cause,
) -> Result<(), Device>
    requires { IsOk so_far → K.faults writer.old < 2 ^ 64 - 1 }
    ensures faults { IsOk result → IsOk so_far × (K.faults writer.new ≡ K.faults writer.old) }
    ensures adds { Adds K.written K.faults K.waits writer.old writer.new so_far result (mark.now ++ cause_text cause.now) }
{
    let so_far = emit(so_far, writer, mark);
    let so_far = emit_number(so_far, writer, cause.units);
    let so_far = emit(so_far, writer, b" on ");
    emit(so_far, writer, cause.file.as_slice())
}
