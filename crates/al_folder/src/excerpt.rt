// A line with a caret under a place in it.
ghost use Rattle.std.specs.Prelude.{◌≡◌, ◌∷◌, [], ◌-◌, ◌^◌, ◌<◌, ◌≤◌, ◌+◌, IsOk, length, drop, take, nat_lt};
ghost use Rattle.std.specs.List.{flat_map};
ghost use Rattle.al_session_stream.specs.Output.{Adds};
ghost use Rattle.al_folder.specs.Excerpts.{left_out, where_left, shown, blanks_for, caret, marked, excerpt};

use crate::messages::emit_shown_bytes;
use al_session_stream::{Device, Sink, emit};

/// The largest number of bytes of a line that are shown.
pub const WIDTH: usize = 120;

/// The number of bytes of a long line that are shown before the place.
pub const BEFORE: usize = 80;

/// The number of bytes at the beginning of a line of `len` bytes that aren't shown.
fn left_out(len: usize, place: usize) -> usize
    ensures value { result ≡ left_out len place }
    ensures within { result ≤ len }
{
    if len <= WIDTH {
        0
    } else {
        place.saturating_sub(BEFORE).min(len - WIDTH)
    }
}

/// The first bytes, at most `most` of them.
fn front_of(most: usize, bytes: &[u8]) -> &[u8]
    ensures { result.now ≡ take most bytes.now }
{
    if bytes.len() <= most {
        bytes
    } else {
        &bytes[..most]
    }
}

/// The line without its first bytes.
fn after(front: usize, line: &[u8]) -> &[u8]
    requires { front ≤ length line.now }
    ensures { result.now ≡ drop front line.now }
{
    &line[front..]
}

/// The mark for bytes that aren't shown, if there are such bytes.
fn where_left(is_left: bool, mark: &[u8]) -> &[u8]
    ensures { result.now ≡ where_left is_left mark.now }
{
    if is_left { mark } else { &[] }
}

/// Writes what is shown of a line whose first `front` bytes aren't.
fn emit_shown<K: Sink>(
    so_far: Result<(), Device>,
    writer: &mut K,
    front: usize,
    line: &[u8],
) -> Result<(), Device>
    requires room { IsOk so_far → K.faults writer.old < 2 ^ 64 - 1 }
    requires front { front ≤ length line.now }
    ensures faults { IsOk result → IsOk so_far × (K.faults writer.new ≡ K.faults writer.old) }
    ensures adds { Adds K.written K.faults K.waits writer.old writer.new so_far result (shown front line.now) }
{
    let rest = after(front, line);
    let so_far = emit(so_far, writer, where_left(front > 0, b"..."));
    let so_far = emit_shown_bytes(so_far, writer, front_of(WIDTH, rest));
    emit(so_far, writer, where_left(rest.len() > WIDTH, b"..."))
}

/// Blanks as wide as a byte is when it is shown. A tab gives a tab, so that what is below it is aligned, however wide tabs are.
fn blanks_for(byte: u8) -> &'static [u8]
    ensures { result.now ≡ blanks_for byte }
{
    match byte {
        b'\t' => b"\t",
        0..=31 | 127 => b"  ",
        128..=191 => b"",
        _ => b" ",
    }
}

/// Writes blanks as wide as these bytes.
fn emit_blanks<K: Sink>(
    mut so_far: Result<(), Device>,
    writer: &mut K,
    bytes: &[u8],
) -> Result<(), Device>
    requires { IsOk so_far → K.faults writer.old < 2 ^ 64 - 1 }
    ensures faults { IsOk result → IsOk so_far × (K.faults writer.new ≡ K.faults writer.old) }
    ensures adds { Adds K.written K.faults K.waits writer.old writer.new so_far result (flat_map blanks_for bytes.now) }
{
    for byte in bytes {
        so_far = emit(so_far, writer, blanks_for(*byte));
    }
    so_far
}

/// Writes the caret below the byte at a place of the line.
fn emit_caret<K: Sink>(
    so_far: Result<(), Device>,
    writer: &mut K,
    front: usize,
    place: usize,
    line: &[u8],
) -> Result<(), Device>
    requires room { IsOk so_far → K.faults writer.old < 2 ^ 64 - 1 }
    requires front { front ≤ length line.now }
    ensures faults { IsOk result → IsOk so_far × (K.faults writer.new ≡ K.faults writer.old) }
    ensures adds { Adds K.written K.faults K.waits writer.old writer.new so_far result (caret front place line.now) }
{
    let rest = after(front, line);
    let before = front_of(place.saturating_sub(front), rest);
    let so_far = emit(so_far, writer, where_left(front > 0, b"   "));
    let so_far = emit_blanks(so_far, writer, before);
    emit(so_far, writer, b"^")
}

/// Writes a line, at most [`WIDTH`] bytes of it, and below it a caret under the byte at the place.
fn emit_marked<K: Sink>(
    so_far: Result<(), Device>,
    writer: &mut K,
    place: usize,
    line: &[u8],
) -> Result<(), Device>
    requires { IsOk so_far → K.faults writer.old < 2 ^ 64 - 1 }
    ensures faults { IsOk result → IsOk so_far × (K.faults writer.new ≡ K.faults writer.old) }
    ensures adds { Adds K.written K.faults K.waits writer.old writer.new so_far result (marked place line.now) }
{
    let front = left_out(line.len(), place);
    let so_far = emit_shown(so_far, writer, front, line);
    let so_far = emit(so_far, writer, b"\n");
    let so_far = emit_caret(so_far, writer, front, place, line);
    emit(so_far, writer, b"\n")
}

/// Writes a line, at most [`WIDTH`] bytes of it, and below it a caret under the byte at the place; nothing if the line has no byte, as at the end of
/// a text.
///
/// # Errors
///
/// As for [`emit`].
pub fn emit_excerpt<K: Sink>(
    so_far: Result<(), Device>,
    writer: &mut K,
    place: usize,
    line: &[u8],
) -> Result<(), Device>
    requires { IsOk so_far → K.faults writer.old < 2 ^ 64 - 1 }
    ensures faults { IsOk result → IsOk so_far × (K.faults writer.new ≡ K.faults writer.old) }
    ensures adds { Adds K.written K.faults K.waits writer.old writer.new so_far result (excerpt place line.now) }
{
    if line.is_empty() {
        emit(so_far, writer, b"")
    } else {
        emit_marked(so_far, writer, place, line)
    }
}
