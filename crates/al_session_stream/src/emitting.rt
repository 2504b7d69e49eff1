// Writing in pieces, which takes no memory.
ghost use Rattle.std.specs.Prelude.{◌≡◌, ◌-◌, ◌^◌, ◌<◌, ◌≤◌, [], false, IsOk, OnOk, length, decimal};
ghost use Rattle.al_session_stream.specs.Hexadecimal.{hex_line, hex_lines};
ghost use Rattle.al_session_stream.specs.Output.{Adds};

use crate::device::{Device, Sink};
use crate::writing::write_all;
use itoa::Buffer;

/// Writes one more piece, unless an earlier piece failed: then nothing more is written.
///
/// `so_far` is the result of the pieces before it, so a caller chains the calls and looks only at the last result. What the calls wrote is all the
/// pieces in a row, or a prefix of them.
///
/// # Errors
/// The error in `so_far`, if there is one; else [`Device::Write`] if a push fails. A prefix of the pieces is written then.
pub fn emit<K: Sink>(so_far: Result<(), Device>, writer: &mut K, piece: &[u8]) -> Result<(), Device>
    requires { IsOk so_far → K.faults writer.old < 2 ^ 64 - 1 }
    ensures faults { IsOk result → IsOk so_far × (K.faults writer.new ≡ K.faults writer.old) }
    ensures adds { Adds K.written K.faults K.waits writer.old writer.new so_far result piece.now }
{
    if so_far.is_err() {
        return so_far;
    }
    write_all(writer, piece)
}

/// Ends a reply: passes on what the writer holds back of it, unless a piece failed.
///
/// # Errors
/// The error in `so_far`, if there is one; else [`Device::Write`] if the flush fails.
pub fn finish<K: Sink>(so_far: Result<(), Device>, writer: &mut K) -> Result<(), Device>
    requires { IsOk so_far → K.faults writer.old < 2 ^ 64 - 1 }
    ensures adds { Adds K.written K.faults K.waits writer.old writer.new so_far result [] }
    ensures passed { OnOk result (K.waits writer.new ≡ false) }
{
    so_far?;
    match writer.flush() {
        Ok(()) => Ok(()),
        Err(_) => Err(Device::Write),
    }
}

/// Writes a number in decimal digits, as [`emit`] writes a piece.
///
/// # Errors
/// As for [`emit`].
pub fn emit_number<K: Sink>(
    so_far: Result<(), Device>,
    writer: &mut K,
    number: usize,
) -> Result<(), Device>
    requires { IsOk so_far → K.faults writer.old < 2 ^ 64 - 1 }
    ensures faults { IsOk result → IsOk so_far × (K.faults writer.new ≡ K.faults writer.old) }
    ensures adds { Adds K.written K.faults K.waits writer.old writer.new so_far result (decimal number) }
{
    let mut digits = Buffer::new();
    emit(so_far, writer, digits.format(number).as_bytes())
}

const HEX_DIGITS: [u8; 16] = *b"0123456789abcdef";

// Writes the digits of one line, at most 32 bytes, and its line end, in one piece.
fn emit_hex_line<K: Sink>(
    so_far: Result<(), Device>,
    writer: &mut K,
    bytes: &[u8],
) -> Result<(), Device>
    requires room { IsOk so_far → K.faults writer.old < 2 ^ 64 - 1 }
    requires short { length bytes.now ≤ 32 }
    ensures faults { IsOk result → IsOk so_far × (K.faults writer.new ≡ K.faults writer.old) }
    ensures adds { Adds K.written K.faults K.waits writer.old writer.new so_far result (hex_line bytes.now) }
{
    let mut text = [0; 65];
    for (i, byte) in bytes.iter().enumerate() {
        text[2 * i] = HEX_DIGITS[(*byte / 16) as usize];
        text[2 * i + 1] = HEX_DIGITS[(*byte % 16) as usize];
    }
    let end = 2 * bytes.len();
    text[end] = b'\n';
    emit(so_far, writer, &text[..end + 1])
}

/// Writes bytes in hexadecimal digits of lower case, 32 bytes on a line, as [`emit`] writes a piece. Each line has a line end, and no bytes give no
/// line.
///
/// # Errors
/// As for [`emit`].
pub fn emit_hex<K: Sink>(
    mut so_far: Result<(), Device>,
    writer: &mut K,
    bytes: &[u8],
) -> Result<(), Device>
    requires { IsOk so_far → K.faults writer.old < 2 ^ 64 - 1 }
    ensures faults { IsOk result → IsOk so_far × (K.faults writer.new ≡ K.faults writer.old) }
    ensures adds { Adds K.written K.faults K.waits writer.old writer.new so_far result (hex_lines bytes.now) }
{
    for line in bytes.chunks(32) {
        so_far = emit_hex_line(so_far, writer, line);
    }
    so_far
}
