// What a build did, as it is printed.
ghost use Rattle.std.specs.Prelude.{◌≡◌, ◌-◌, ◌^◌, ◌<◌, IsOk};
ghost use Rattle.al_session_stream.specs.Output.{Adds};
ghost use Rattle.al_folder.specs.Progress.{change_of, change_words, checked_words, progress_line};

use al_session_stream::{Device, Sink, emit, emit_number};

/// What a build did to the image of the program.
#[derive(Clone, Copy)]
pub enum ImageChange {
    /// There is none.
    Absent,
    /// It was built anew.
    Made,
    /// The code of some units was written into it.
    Patched,
    /// It is unchanged.
    Kept,
}

/// What a build did to the image: `had` says whether there was one before, `has` whether there is one now, and `written` into the code of how many of
/// the `units` it wrote.
pub fn image_change(had: bool, has: bool, written: usize, units: usize) -> ImageChange
    ensures { result ≡ change_of had has written units }
{
    if !has {
        return ImageChange::Absent;
    }
    if !had {
        return ImageChange::Made;
    }
    if written == 0 {
        ImageChange::Kept
    } else if written < units {
        ImageChange::Patched
    } else {
        ImageChange::Made
    }
}

// The words for what was done to the image.
fn change_words(change: ImageChange) -> &'static [u8]
    ensures { result.now ≡ change_words change }
{
    match change {
        ImageChange::Absent => b"no image",
        ImageChange::Made => b"image made",
        ImageChange::Patched => b"image patched",
        ImageChange::Kept => b"image as before",
    }
}

/// Writes how many of the units were checked.
fn emit_checked<K: Sink>(
    so_far: Result<(), Device>,
    writer: &mut K,
    checked: usize,
    units: usize,
) -> Result<(), Device>
    requires { IsOk so_far → K.faults writer.old < 2 ^ 64 - 1 }
    ensures faults { IsOk result → IsOk so_far × (K.faults writer.new ≡ K.faults writer.old) }
    ensures adds { Adds K.written K.faults K.waits writer.old writer.new so_far result (checked_words checked units) }
{
    let so_far = emit(so_far, writer, b"checked ");
    let so_far = emit_number(so_far, writer, checked);
    let so_far = emit(so_far, writer, b" of ");
    let so_far = emit_number(so_far, writer, units);
    emit(so_far, writer, b" units, ")
}

/// Writes how many of the units were checked, what was done to the image, and how many milliseconds it took.
///
/// # Errors
///
/// As for [`emit`].
pub fn emit_progress<K: Sink>(
    so_far: Result<(), Device>,
    writer: &mut K,
    checked: usize,
    units: usize,
    change: ImageChange,
    millis: usize,
) -> Result<(), Device>
    requires { IsOk so_far → K.faults writer.old < 2 ^ 64 - 1 }
    ensures faults { IsOk result → IsOk so_far × (K.faults writer.new ≡ K.faults writer.old) }
    ensures adds { Adds K.written K.faults K.waits writer.old writer.new so_far result (progress_line checked units change millis) }
{
    let so_far = emit_checked(so_far, writer, checked, units);
    let so_far = emit(so_far, writer, change_words(change));
    let so_far = emit(so_far, writer, b", ");
    let so_far = emit_number(so_far, writer, millis);
    emit(so_far, writer, b" ms\n")
}
