// Why a library without errors has no program.
ghost use Rattle.std.specs.Prelude.{◌≡◌, ◌-◌, ◌^◌, ◌<◌, IsOk, map};
ghost use Rattle.std.specs.List.{flat_map};
ghost use Rattle.al_bind.specs.Binding.{line_model};
ghost use Rattle.al_session_stream.specs.Output.{Adds};
ghost use Rattle.al_folder.specs.Faults.{no_main, no_body, no_subunit, too_large, reason_words, step_line, cycle_text};

use crate::parts::emit_part;
use al_base_graph::Reason;
use al_bind::Line;
use al_session_stream::{Device, Sink, emit};

/// Writes that the library has no procedure of this name without parameters.
///
/// # Errors
///
/// As for [`emit`].
pub fn emit_no_main<K: Sink>(
    so_far: Result<(), Device>,
    writer: &mut K,
    name: &[u8],
) -> Result<(), Device>
    requires { IsOk so_far → K.faults writer.old < 2 ^ 64 - 1 }
    ensures faults { IsOk result → IsOk so_far × (K.faults writer.new ≡ K.faults writer.old) }
    ensures adds { Adds K.written K.faults K.waits writer.old writer.new so_far result (no_main name.now) }
{
    let so_far = emit(so_far, writer, b"error: ");
    let so_far = emit(so_far, writer, name);
    emit(
        so_far,
        writer,
        b" is no procedure of the library without parameters\n",
    )
}

/// Writes that a body is missing.
///
/// # Errors
///
/// As for [`emit`].
pub fn emit_no_body<K: Sink>(
    so_far: Result<(), Device>,
    writer: &mut K,
    name: &[u8],
) -> Result<(), Device>
    requires { IsOk so_far → K.faults writer.old < 2 ^ 64 - 1 }
    ensures faults { IsOk result → IsOk so_far × (K.faults writer.new ≡ K.faults writer.old) }
    ensures adds { Adds K.written K.faults K.waits writer.old writer.new so_far result (no_body name.now) }
{
    let so_far = emit(so_far, writer, b"error: the body of ");
    let so_far = emit(so_far, writer, name);
    emit(so_far, writer, b" is missing\n")
}

/// Writes that a subunit is missing.
///
/// # Errors
///
/// As for [`emit`].
pub fn emit_no_subunit<K: Sink>(
    so_far: Result<(), Device>,
    writer: &mut K,
    name: &[u8],
) -> Result<(), Device>
    requires { IsOk so_far → K.faults writer.old < 2 ^ 64 - 1 }
    ensures faults { IsOk result → IsOk so_far × (K.faults writer.new ≡ K.faults writer.old) }
    ensures adds { Adds K.written K.faults K.waits writer.old writer.new so_far result (no_subunit name.now) }
{
    let so_far = emit(so_far, writer, b"error: the subunit ");
    let so_far = emit(so_far, writer, name);
    emit(so_far, writer, b" is missing\n")
}

/// Writes that the image would pass a limit.
///
/// # Errors
///
/// As for [`emit`].
pub fn emit_too_large<K: Sink>(so_far: Result<(), Device>, writer: &mut K) -> Result<(), Device>
    requires { IsOk so_far → K.faults writer.old < 2 ^ 64 - 1 }
    ensures faults { IsOk result → IsOk so_far × (K.faults writer.new ≡ K.faults writer.old) }
    ensures adds { Adds K.written K.faults K.waits writer.old writer.new so_far result too_large }
{
    emit(so_far, writer, b"error: the image is too large\n")
}

// Why an item comes after the one that was just named.
fn reason_words(reason: Reason) -> &'static [u8]
    ensures { result.now ≡ reason_words reason }
{
    match reason {
        Reason::Depends => b", on which it depends\n",
        Reason::Elaborate => b", which a pragma Elaborate names\n",
        Reason::ElaborateAll => b", which a pragma Elaborate_All reaches\n",
    }
}

/// Writes one step of a cycle.
fn emit_step<K: Sink>(so_far: Result<(), Device>, writer: &mut K, line: &Line) -> Result<(), Device>
    requires { IsOk so_far → K.faults writer.old < 2 ^ 64 - 1 }
    ensures faults { IsOk result → IsOk so_far × (K.faults writer.new ≡ K.faults writer.old) }
    ensures adds { Adds K.written K.faults K.waits writer.old writer.new so_far result (step_line (line_model line.now)) }
{
    let so_far = emit(so_far, writer, b"  ");
    let so_far = emit_part(so_far, writer, &line.after);
    let so_far = emit(so_far, writer, b" after ");
    let so_far = emit_part(so_far, writer, &line.before);
    emit(so_far, writer, reason_words(line.reason))
}

/// Writes the steps of a cycle.
fn emit_steps<K: Sink>(
    mut so_far: Result<(), Device>,
    writer: &mut K,
    lines: &[Line],
) -> Result<(), Device>
    requires { IsOk so_far → K.faults writer.old < 2 ^ 64 - 1 }
    ensures faults { IsOk result → IsOk so_far × (K.faults writer.new ≡ K.faults writer.old) }
    ensures adds { Adds K.written K.faults K.waits writer.old writer.new so_far result (flat_map step_line (map line_model lines.now)) }
{
    for line in lines {
        so_far = emit_step(so_far, writer, line);
    }
    so_far
}

/// Writes that there is no order of elaboration, and the cycle that shows it.
///
/// # Errors
///
/// As for [`emit`].
pub fn emit_cycle<K: Sink>(
    so_far: Result<(), Device>,
    writer: &mut K,
    lines: &[Line],
) -> Result<(), Device>
    requires { IsOk so_far → K.faults writer.old < 2 ^ 64 - 1 }
    ensures faults { IsOk result → IsOk so_far × (K.faults writer.new ≡ K.faults writer.old) }
    ensures adds { Adds K.written K.faults K.waits writer.old writer.new so_far result (cycle_text (map line_model lines.now)) }
{
    let so_far = emit(so_far, writer, b"error: no order of elaboration\n");
    emit_steps(so_far, writer, lines)
}
