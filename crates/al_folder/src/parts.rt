// Units, as they are printed.
ghost use Rattle.std.specs.Prelude.{◌≡◌, ◌-◌, ◌^◌, ◌<◌, IsOk, map};
ghost use Rattle.al_base.specs.Batch.{key_of};
ghost use Rattle.al_session_stream.specs.Output.{Adds};
ghost use Rattle.al_folder.specs.Parts.{part_word, part_words, part_line, part_lines};

use al_base::{UnitKey, UnitKind};
use al_session_stream::{Device, Sink, emit};

// The words before the name of a unit of this kind.
fn part_word(kind: UnitKind) -> &'static [u8]
    ensures { result.now ≡ part_word kind }
{
    match kind {
        UnitKind::Decl => b"declaration of ",
        UnitKind::Body => b"body of ",
        UnitKind::Sub => b"subunit ",
    }
}

/// Writes a unit's kind and name.
///
/// # Errors
///
/// As for [`emit`].
pub(crate) fn emit_part<K: Sink>(
    so_far: Result<(), Device>,
    writer: &mut K,
    key: &UnitKey,
) -> Result<(), Device>
    requires { IsOk so_far → K.faults writer.old < 2 ^ 64 - 1 }
    ensures faults { IsOk result → IsOk so_far × (K.faults writer.new ≡ K.faults writer.old) }
    ensures adds { Adds K.written K.faults K.waits writer.old writer.new so_far result (part_words (key_of key.now)) }
{
    let so_far = emit(so_far, writer, part_word(key.kind));
    emit(so_far, writer, key.name.as_slice())
}

/// Writes a line with a unit's kind and name.
fn emit_part_line<K: Sink>(
    so_far: Result<(), Device>,
    writer: &mut K,
    key: &UnitKey,
) -> Result<(), Device>
    requires { IsOk so_far → K.faults writer.old < 2 ^ 64 - 1 }
    ensures faults { IsOk result → IsOk so_far × (K.faults writer.new ≡ K.faults writer.old) }
    ensures adds { Adds K.written K.faults K.waits writer.old writer.new so_far result (part_line (key_of key.now)) }
{
    let so_far = emit_part(so_far, writer, key);
    emit(so_far, writer, b"\n")
}

/// Writes a line for each unit, with its kind and name.
///
/// # Errors
///
/// As for [`emit`].
pub fn emit_parts<K: Sink>(
    mut so_far: Result<(), Device>,
    writer: &mut K,
    keys: &[UnitKey],
) -> Result<(), Device>
    requires { IsOk so_far → K.faults writer.old < 2 ^ 64 - 1 }
    ensures faults { IsOk result → IsOk so_far × (K.faults writer.new ≡ K.faults writer.old) }
    ensures adds { Adds K.written K.faults K.waits writer.old writer.new so_far result (part_lines (map key_of keys.now)) }
{
    for key in keys {
        so_far = emit_part_line(so_far, writer, key);
    }
    so_far
}
