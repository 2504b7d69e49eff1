// The end of a run, as it is printed.
ghost use Rattle.std.specs.Prelude.{◌≡◌, ◌-◌, ◌^◌, ◌<◌, IsOk};
ghost use Rattle.al_base.specs.Batch.{key_of};
ghost use Rattle.al_session_stream.specs.Output.{Adds};
ghost use Rattle.al_folder.specs.declared.runs.RunEnd.TheVariants.{Raised};
ghost use Rattle.al_folder.specs.Runs.{exception_word, file_words, named_words, line_words, end_text};

use crate::diagnostics::{emit_folder, folder_of};
use al_base::{FileKey, Files, UnitKey};
use al_machine::Exception;
use al_session_stream::{Device, Sink, emit, emit_number};

/// How a run ended.
pub enum RunEnd {
    /// All tasks have ended.
    Finished,
    /// No task is ready or delayed, and some haven't ended.
    Idle,
    /// The number of steps that was allowed is used up.
    Spent,
    /// The image is damaged.
    Stuck,
    /// An exception was raised in the code of this unit, on this line of its source if that is known.
    Raised {
        exception: Exception,
        unit: UnitKey,
        line: Option<u32>,
    },
}

impl Drop for RunEnd {
    fn drop(self) {
        match self {
            RunEnd::Finished => {}
            RunEnd::Idle => {}
            RunEnd::Spent => {}
            RunEnd::Stuck => {}
            RunEnd::Raised {
                exception: _,
                unit: _,
                line: _,
            } => {}
        }
    }
}

// The name of an exception.
fn exception_word(exception: Exception) -> &'static [u8]
    ensures { result.now ≡ exception_word exception }
{
    match exception {
        Exception::Constraint => b"constraint_error",
        Exception::Program => b"program_error",
        Exception::Storage => b"storage_error",
    }
}

/// Writes the name of a file after its folder.
fn emit_named<K: Sink>(
    so_far: Result<(), Device>,
    writer: &mut K,
    folders: &Files,
    name: &[u8],
) -> Result<(), Device>
    requires { IsOk so_far → K.faults writer.old < 2 ^ 64 - 1 }
    ensures faults { IsOk result → IsOk so_far × (K.faults writer.new ≡ K.faults writer.old) }
    ensures adds { Adds K.written K.faults K.waits writer.old writer.new so_far result (named_words folders.now name.now) }
{
    let so_far = emit_folder(so_far, writer, folder_of(folders, name));
    emit(so_far, writer, name)
}

/// Writes the name of the file that holds the unit, after its folder.
fn emit_file<K: Sink>(
    so_far: Result<(), Device>,
    writer: &mut K,
    folders: &Files,
    key: &UnitKey,
) -> Result<(), Device>
    requires { IsOk so_far → K.faults writer.old < 2 ^ 64 - 1 }
    ensures faults { IsOk result → IsOk so_far × (K.faults writer.new ≡ K.faults writer.old) }
    ensures adds { Adds K.written K.faults K.waits writer.old writer.new so_far result (named_words folders.now (file_words (key_of key.now))) }
{
    let name = key.name.as_slice();
    if name.len() > 251 {
        return emit_named(so_far, writer, folders, name);
    }
    match FileKey::of(name, key.kind) {
        Some(file) => emit_named(so_far, writer, folders, file.as_slice()),
        None => emit_named(so_far, writer, folders, name),
    }
}

/// Writes the number of a line, if it is known.
fn emit_line<K: Sink>(
    so_far: Result<(), Device>,
    writer: &mut K,
    line: Option<u32>,
) -> Result<(), Device>
    requires { IsOk so_far → K.faults writer.old < 2 ^ 64 - 1 }
    ensures faults { IsOk result → IsOk so_far × (K.faults writer.new ≡ K.faults writer.old) }
    ensures adds { Adds K.written K.faults K.waits writer.old writer.new so_far result (line_words line) }
{
    let Some(line) = line else {
        return emit(so_far, writer, b"\n");
    };
    let so_far = emit(so_far, writer, b":");
    let so_far = emit_number(so_far, writer, line as usize);
    emit(so_far, writer, b"\n")
}

/// Writes that an exception ended a run, and the file and line in which it was raised.
fn emit_raised<K: Sink>(
    so_far: Result<(), Device>,
    writer: &mut K,
    folders: &Files,
    exception: Exception,
    unit: &UnitKey,
    line: Option<u32>,
) -> Result<(), Device>
    requires { IsOk so_far → K.faults writer.old < 2 ^ 64 - 1 }
    ensures faults { IsOk result → IsOk so_far × (K.faults writer.new ≡ K.faults writer.old) }
    ensures adds { Adds K.written K.faults K.waits writer.old writer.new so_far result (end_text folders.now (Raised exception unit.now line)) }
{
    let so_far = emit(so_far, writer, b"raised ");
    let so_far = emit(so_far, writer, exception_word(exception));
    let so_far = emit(so_far, writer, b", ");
    let so_far = emit_file(so_far, writer, folders, unit);
    emit_line(so_far, writer, line)
}

/// Writes how a run ended; nothing if all tasks have ended. The files of units are in these folders.
///
/// # Errors
///
/// As for [`emit`].
pub fn emit_end<K: Sink>(
    so_far: Result<(), Device>,
    writer: &mut K,
    folders: &Files,
    end: &RunEnd,
) -> Result<(), Device>
    requires { IsOk so_far → K.faults writer.old < 2 ^ 64 - 1 }
    ensures faults { IsOk result → IsOk so_far × (K.faults writer.new ≡ K.faults writer.old) }
    ensures adds { Adds K.written K.faults K.waits writer.old writer.new so_far result (end_text folders.now end.now) }
{
    match end {
        RunEnd::Finished => emit(so_far, writer, b""),
        RunEnd::Idle => emit(
            so_far,
            writer,
            b"idle: each task waits, and nothing can wake one\n",
        ),
        RunEnd::Spent => emit(so_far, writer, b"stopped: the steps are spent\n"),
        RunEnd::Stuck => emit(so_far, writer, b"stopped: the image is damaged\n"),
        RunEnd::Raised {
            exception,
            unit,
            line,
        } => emit_raised(so_far, writer, folders, *exception, unit, *line),
    }
}
