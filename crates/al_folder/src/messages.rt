// Lines in which control characters are shown, so that none reaches a terminal.
ghost use Rattle.std.specs.Prelude.{◌≡◌, ◌-◌, ◌^◌, ◌<◌, IsOk, map};
ghost use Rattle.std.specs.List.{flat_map};
ghost use Rattle.al_session_stream.specs.Output.{Adds};
ghost use Rattle.al_folder.specs.Messages.{shown_byte, shown_bytes, message_text};

use al_session_stream::{Device, Sink, emit};

/// Writes a byte; a control character as a circumflex and a letter, except a tab.
fn emit_byte<K: Sink>(so_far: Result<(), Device>, writer: &mut K, byte: u8) -> Result<(), Device>
    requires { IsOk so_far → K.faults writer.old < 2 ^ 64 - 1 }
    ensures faults { IsOk result → IsOk so_far × (K.faults writer.new ≡ K.faults writer.old) }
    ensures adds { Adds K.written K.faults K.waits writer.old writer.new so_far result (shown_byte byte) }
{
    if byte == b'\t' {
        emit(so_far, writer, b"\t")
    } else if byte < 32 {
        emit(so_far, writer, &[b'^', byte + 64])
    } else if byte == 127 {
        emit(so_far, writer, b"^?")
    } else {
        emit(so_far, writer, &[byte])
    }
}

/// Writes bytes; each control character as a circumflex and a letter, except tabs.
///
/// # Errors
///
/// As for [`emit`].
pub fn emit_shown_bytes<K: Sink>(
    mut so_far: Result<(), Device>,
    writer: &mut K,
    bytes: &[u8],
) -> Result<(), Device>
    requires { IsOk so_far → K.faults writer.old < 2 ^ 64 - 1 }
    ensures faults { IsOk result → IsOk so_far × (K.faults writer.new ≡ K.faults writer.old) }
    ensures adds { Adds K.written K.faults K.waits writer.old writer.new so_far result (shown_bytes bytes.now) }
{
    for byte in bytes {
        so_far = emit_byte(so_far, writer, *byte);
    }
    so_far
}

/// Writes the pieces as one line, in which control characters are shown.
///
/// # Errors
///
/// As for [`emit`].
pub fn emit_message<K: Sink>(
    so_far: Result<(), Device>,
    writer: &mut K,
    pieces: &[&[u8]],
) -> Result<(), Device>
    requires { IsOk so_far → K.faults writer.old < 2 ^ 64 - 1 }
    ensures faults { IsOk result → IsOk so_far × (K.faults writer.new ≡ K.faults writer.old) }
    ensures adds { Adds K.written K.faults K.waits writer.old writer.new so_far result (message_text (map (λ piece. piece.now) pieces.now)) }
{
    let so_far = emit_pieces(so_far, writer, pieces);
    emit(so_far, writer, b"\n")
}

/// Writes the pieces, in which control characters are shown.
fn emit_pieces<K: Sink>(
    mut so_far: Result<(), Device>,
    writer: &mut K,
    pieces: &[&[u8]],
) -> Result<(), Device>
    requires { IsOk so_far → K.faults writer.old < 2 ^ 64 - 1 }
    ensures faults { IsOk result → IsOk so_far × (K.faults writer.new ≡ K.faults writer.old) }
    ensures adds { Adds K.written K.faults K.waits writer.old writer.new so_far result (flat_map shown_bytes (map (λ piece. piece.now) pieces.now)) }
{
    for piece in pieces {
        so_far = emit_shown_bytes(so_far, writer, piece);
    }
    so_far
}
