// Diagnostics, as they are printed.
ghost use Rattle.std.specs.Prelude.{◌≡◌, ◌-◌, ◌^◌, ◌<◌, IsOk, map, option_map};
ghost use Rattle.std.specs.List.{flat_map};
ghost use Rattle.al_base.specs.Batch.{finding_of};
ghost use Rattle.al_session_stream.specs.Output.{Adds};
ghost use Rattle.al_folder.specs.Diagnostics.{named_folder, separator, folder_words, diagnostic_line, source_lines, diagnostic_text, folder_of, text_shown, told_text, errors_word, count_line, diagnostics_text};

use crate::messages::emit_shown_bytes;
use crate::{emit_excerpt, line_at};
use al_base::{Diagnostic, Files, Place};
use al_base_words::message_of;
use al_session_stream::{Device, Sink, emit, emit_number};

/// The folder of a file; empty for the current folder.
fn named_folder(folder: &[u8]) -> &[u8]
    ensures { result.now ≡ named_folder folder.now }
{
    if folder == b".".as_slice() {
        &[]
    } else {
        folder
    }
}

/// The separator between a folder and the name of a file.
fn separator(folder: &[u8]) -> &'static [u8]
    ensures { result.now ≡ separator folder.now }
{
    if folder == b".".as_slice() {
        b""
    } else if folder == b"/".as_slice() {
        b""
    } else {
        b"/"
    }
}

/// Writes what comes before the name of a file in a folder: nothing for the current folder.
///
/// # Errors
///
/// As for [`emit`].
pub(crate) fn emit_folder<K: Sink>(
    so_far: Result<(), Device>,
    writer: &mut K,
    folder: &[u8],
) -> Result<(), Device>
    requires { IsOk so_far → K.faults writer.old < 2 ^ 64 - 1 }
    ensures faults { IsOk result → IsOk so_far × (K.faults writer.new ≡ K.faults writer.old) }
    ensures adds { Adds K.written K.faults K.waits writer.old writer.new so_far result (folder_words folder.now) }
{
    let so_far = emit_shown_bytes(so_far, writer, named_folder(folder));
    emit(so_far, writer, separator(folder))
}

/// Writes `FOLDER/FILE:LINE:COL: error: CODE TEXT`.
fn emit_diagnostic_line<K: Sink>(
    so_far: Result<(), Device>,
    writer: &mut K,
    folder: &[u8],
    diagnostic: &Diagnostic,
) -> Result<(), Device>
    requires { IsOk so_far → K.faults writer.old < 2 ^ 64 - 1 }
    ensures faults { IsOk result → IsOk so_far × (K.faults writer.new ≡ K.faults writer.old) }
    ensures adds { Adds K.written K.faults K.waits writer.old writer.new so_far result (diagnostic_line folder.now (finding_of diagnostic.now)) }
{
    let so_far = emit_folder(so_far, writer, folder);
    let so_far = emit(so_far, writer, diagnostic.file.as_slice());
    let so_far = emit(so_far, writer, b":");
    let so_far = emit_number(so_far, writer, diagnostic.place.line as usize);
    let so_far = emit(so_far, writer, b":");
    let so_far = emit_number(so_far, writer, diagnostic.place.col as usize);
    let so_far = emit(so_far, writer, b": error: ");
    let so_far = emit(so_far, writer, message_of(diagnostic.code));
    emit(so_far, writer, b"\n")
}

/// Writes the line of the source with a caret under the place, if there is a source.
fn emit_source<K: Sink>(
    so_far: Result<(), Device>,
    writer: &mut K,
    place: Place,
    text: Option<&[u8]>,
) -> Result<(), Device>
    requires { IsOk so_far → K.faults writer.old < 2 ^ 64 - 1 }
    ensures faults { IsOk result → IsOk so_far × (K.faults writer.new ≡ K.faults writer.old) }
    ensures adds { Adds K.written K.faults K.waits writer.old writer.new so_far result (source_lines place.line place.col (option_map (λ text. text.now) text.entry)) }
{
    let Some(text) = text else {
        return emit(so_far, writer, b"");
    };
    let line = line_at(place.line, text);
    emit_excerpt(so_far, writer, place.col.saturating_sub(1) as usize, line)
}

/// Writes a diagnostic of a file in a folder, as `FOLDER/FILE:LINE:COL: error: CODE TEXT`; if there is a source, also its line with a caret under the
/// place.
fn emit_diagnostic<K: Sink>(
    so_far: Result<(), Device>,
    writer: &mut K,
    folder: &[u8],
    diagnostic: &Diagnostic,
    text: Option<&[u8]>,
) -> Result<(), Device>
    requires { IsOk so_far → K.faults writer.old < 2 ^ 64 - 1 }
    ensures faults { IsOk result → IsOk so_far × (K.faults writer.new ≡ K.faults writer.old) }
    ensures adds { Adds K.written K.faults K.waits writer.old writer.new so_far result (diagnostic_text folder.now (finding_of diagnostic.now) (option_map (λ text. text.now) text.entry)) }
{
    let so_far = emit_diagnostic_line(so_far, writer, folder, diagnostic);
    emit_source(so_far, writer, diagnostic.place, text)
}

/// The folder of a file; the current one if `folders` has none for it.
pub(crate) fn folder_of<'a>(folders: &'a Files, file: &[u8]) -> &'a [u8]
    ensures { result.now ≡ folder_of folders.now file.now }
{
    match folders.get(file) {
        Some(folder) => folder,
        None => b".",
    }
}

/// The source of a file, if it is shown.
fn text_shown<'a>(is_plain: bool, texts: &'a Files, file: &[u8]) -> Option<&'a [u8]>
    ensures { option_map (λ text. text.now) result ≡ text_shown is_plain texts.now file.now }
{
    if is_plain { None } else { texts.get(file) }
}

/// Writes a diagnostic of one of these sources, whose files are in these folders.
///
/// # Errors
///
/// As for [`emit`].
pub fn emit_told<K: Sink>(
    so_far: Result<(), Device>,
    writer: &mut K,
    folders: &Files,
    texts: &Files,
    is_plain: bool,
    diagnostic: &Diagnostic,
) -> Result<(), Device>
    requires { IsOk so_far → K.faults writer.old < 2 ^ 64 - 1 }
    ensures faults { IsOk result → IsOk so_far × (K.faults writer.new ≡ K.faults writer.old) }
    ensures adds { Adds K.written K.faults K.waits writer.old writer.new so_far result (told_text folders.now texts.now is_plain (finding_of diagnostic.now)) }
{
    let file = diagnostic.file.as_slice();
    let folder = folder_of(folders, file);
    let text = text_shown(is_plain, texts, file);
    emit_diagnostic(so_far, writer, folder, diagnostic, text)
}

/// Writes all diagnostics.
fn emit_each<K: Sink>(
    mut so_far: Result<(), Device>,
    writer: &mut K,
    folders: &Files,
    texts: &Files,
    is_plain: bool,
    diagnostics: &[Diagnostic],
) -> Result<(), Device>
    requires { IsOk so_far → K.faults writer.old < 2 ^ 64 - 1 }
    ensures faults { IsOk result → IsOk so_far × (K.faults writer.new ≡ K.faults writer.old) }
    ensures adds { Adds K.written K.faults K.waits writer.old writer.new so_far result (flat_map (told_text folders.now texts.now is_plain) (map finding_of diagnostics.now)) }
{
    for diagnostic in diagnostics {
        so_far = emit_told(so_far, writer, folders, texts, is_plain, diagnostic);
    }
    so_far
}

// The word for errors, and the end of the line.
fn errors_word(count: usize) -> &'static [u8]
    ensures { result.now ≡ errors_word count }
{
    if count == 1 {
        b" error\n"
    } else {
        b" errors\n"
    }
}

/// Writes how many errors there are.
///
/// # Errors
///
/// As for [`emit`].
pub fn emit_count<K: Sink>(
    so_far: Result<(), Device>,
    writer: &mut K,
    count: usize,
) -> Result<(), Device>
    requires { IsOk so_far → K.faults writer.old < 2 ^ 64 - 1 }
    ensures faults { IsOk result → IsOk so_far × (K.faults writer.new ≡ K.faults writer.old) }
    ensures adds { Adds K.written K.faults K.waits writer.old writer.new so_far result (count_line count) }
{
    let so_far = emit_number(so_far, writer, count);
    emit(so_far, writer, errors_word(count))
}

/// Writes the diagnostics of these sources, whose files are in these folders, and then their number. Each is `FOLDER/FILE:LINE:COL: error: CODE
/// TEXT`, and unless `is_plain` the line of the source with a caret under the place.
///
/// # Errors
///
/// As for [`emit`].
pub fn emit_diagnostics<K: Sink>(
    so_far: Result<(), Device>,
    writer: &mut K,
    folders: &Files,
    texts: &Files,
    is_plain: bool,
    diagnostics: &[Diagnostic],
) -> Result<(), Device>
    requires { IsOk so_far → K.faults writer.old < 2 ^ 64 - 1 }
    ensures faults { IsOk result → IsOk so_far × (K.faults writer.new ≡ K.faults writer.old) }
    ensures adds { Adds K.written K.faults K.waits writer.old writer.new so_far result (diagnostics_text folders.now texts.now is_plain (map finding_of diagnostics.now)) }
{
    let so_far = emit_each(so_far, writer, folders, texts, is_plain, diagnostics);
    emit_count(so_far, writer, diagnostics.len())
}
