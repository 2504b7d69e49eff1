// The replies to builds and reports, from the last build.
ghost use Rattle.std.specs.Prelude.{◌≡◌, ◌-◌, ◌^◌, ◌<◌, false, IsOk, OnOk, map, codes, length};
ghost use Rattle.al_base.specs.Batch.{finding_of, key_of};
ghost use Rattle.al_bind.specs.Binding.{line_model};
ghost use Rattle.al_session_stream.specs.Output.{sink_moment, WritesReply, Adds};
ghost use Rattle.al_session_served.specs.Outcomes.{outcome_model};
ghost use Rattle.al_session_served.specs.Library.{file_unit_of};
ghost use Rattle.al_session_served.specs.ReplySeen.{reply_model};
ghost use Rattle.al_session_served.specs.Builds.{order_of, image_of};
ghost use Rattle.al_session_served.specs.Replies.{listing, file_line, finding_line, key_line, cycle_line, build_reply, report_reply, order_reply, image_reply, built_line, lack_line, image_text};

use crate::library::{Outcome, UnitLibrary};
use crate::pieces::{
    emit_cycle_lines, emit_file_lines, emit_findings, emit_keys, emit_ran, emit_refusal,
};
use crate::reply::Reply;
use crate::subject::ReportKind;
use al_base::{Diagnostic, Name, Refusal, UnitKey};
use al_bind::Line;
use al_session_stream::{Device, Sink, emit, emit_hex, emit_number, finish};

// Writes a word, the number of diagnostics, and a line for each.
fn emit_diagnostics<K: Sink>(
    so_far: Result<(), Device>,
    writer: &mut K,
    word: &[u8],
    diagnostics: &[Diagnostic],
) -> Result<(), Device>
    requires { IsOk so_far → K.faults writer.old < 2 ^ 64 - 1 }
    ensures faults { IsOk result → IsOk so_far × (K.faults writer.new ≡ K.faults writer.old) }
    ensures adds { Adds K.written K.faults K.waits writer.old writer.new so_far result (listing word.now finding_line (map finding_of diagnostics.now)) }
{
    let so_far = emit(so_far, writer, word);
    let so_far = emit_number(so_far, writer, diagnostics.len());
    let so_far = emit(so_far, writer, b"\n");
    emit_findings(so_far, writer, diagnostics)
}

// Writes a word, the number of units, and a line for each.
fn emit_order<K: Sink>(
    so_far: Result<(), Device>,
    writer: &mut K,
    word: &[u8],
    order: &[UnitKey],
) -> Result<(), Device>
    requires { IsOk so_far → K.faults writer.old < 2 ^ 64 - 1 }
    ensures faults { IsOk result → IsOk so_far × (K.faults writer.new ≡ K.faults writer.old) }
    ensures adds { Adds K.written K.faults K.waits writer.old writer.new so_far result (listing word.now key_line (map key_of order.now)) }
{
    let so_far = emit(so_far, writer, word);
    let so_far = emit_number(so_far, writer, order.len());
    let so_far = emit(so_far, writer, b"\n");
    emit_keys(so_far, writer, order)
}

// Writes a word, the number of files, and a line for each.
fn emit_units<K: Sink>(
    so_far: Result<(), Device>,
    writer: &mut K,
    word: &[u8],
    files: &[(Name, Option<UnitKey>)],
) -> Result<(), Device>
    requires { IsOk so_far → K.faults writer.old < 2 ^ 64 - 1 }
    ensures faults { IsOk result → IsOk so_far × (K.faults writer.new ≡ K.faults writer.old) }
    ensures adds { Adds K.written K.faults K.waits writer.old writer.new so_far result (listing word.now file_line (map file_unit_of files.now)) }
{
    let so_far = emit(so_far, writer, word);
    let so_far = emit_number(so_far, writer, files.len());
    let so_far = emit(so_far, writer, b"\n");
    emit_file_lines(so_far, writer, files)
}

fn emit_image<K: Sink>(
    so_far: Result<(), Device>,
    writer: &mut K,
    image: &[u8],
) -> Result<(), Device>
    requires { IsOk so_far → K.faults writer.old < 2 ^ 64 - 1 }
    ensures faults { IsOk result → IsOk so_far × (K.faults writer.new ≡ K.faults writer.old) }
    ensures adds { Adds K.written K.faults K.waits writer.old writer.new so_far result (image_text image.now) }
{
    let so_far = emit(so_far, writer, b"image ");
    let so_far = emit_number(so_far, writer, image.len());
    let so_far = emit(so_far, writer, b"\n");
    emit_hex(so_far, writer, image)
}

fn emit_built<K: Sink>(
    so_far: Result<(), Device>,
    writer: &mut K,
    items: usize,
    bytes: usize,
) -> Result<(), Device>
    requires { IsOk so_far → K.faults writer.old < 2 ^ 64 - 1 }
    ensures faults { IsOk result → IsOk so_far × (K.faults writer.new ≡ K.faults writer.old) }
    ensures adds { Adds K.written K.faults K.waits writer.old writer.new so_far result (built_line items bytes) }
{
    let so_far = emit(so_far, writer, b"built ");
    let so_far = emit_number(so_far, writer, items);
    let so_far = emit(so_far, writer, b" ");
    let so_far = emit_number(so_far, writer, bytes);
    emit(so_far, writer, b"\n")
}

// Writes what is missing in a partition, and the name of the unit.
fn emit_lack<K: Sink>(
    so_far: Result<(), Device>,
    writer: &mut K,
    word: &[u8],
    name: &[u8],
) -> Result<(), Device>
    requires { IsOk so_far → K.faults writer.old < 2 ^ 64 - 1 }
    ensures faults { IsOk result → IsOk so_far × (K.faults writer.new ≡ K.faults writer.old) }
    ensures adds { Adds K.written K.faults K.waits writer.old writer.new so_far result (lack_line word.now name.now) }
{
    let so_far = emit(so_far, writer, word);
    let so_far = emit(so_far, writer, name);
    emit(so_far, writer, b"\n")
}

// Writes a word, the number of a cycle's lines, and these lines.
fn emit_cycle<K: Sink>(
    so_far: Result<(), Device>,
    writer: &mut K,
    word: &[u8],
    lines: &[Line],
) -> Result<(), Device>
    requires { IsOk so_far → K.faults writer.old < 2 ^ 64 - 1 }
    ensures faults { IsOk result → IsOk so_far × (K.faults writer.new ≡ K.faults writer.old) }
    ensures adds { Adds K.written K.faults K.waits writer.old writer.new so_far result (listing word.now cycle_line (map line_model lines.now)) }
{
    let so_far = emit(so_far, writer, word);
    let so_far = emit_number(so_far, writer, lines.len());
    let so_far = emit(so_far, writer, b"\n");
    emit_cycle_lines(so_far, writer, lines)
}

// Writes the reply to a build with this outcome.
fn emit_outcome<K: Sink>(
    so_far: Result<(), Device>,
    writer: &mut K,
    main: &[u8],
    outcome: &Outcome<'_>,
) -> Result<(), Device>
    requires { IsOk so_far → K.faults writer.old < 2 ^ 64 - 1 }
    ensures faults { IsOk result → IsOk so_far × (K.faults writer.new ≡ K.faults writer.old) }
    ensures adds { Adds K.written K.faults K.waits writer.old writer.new so_far result (build_reply main.now (outcome_model outcome.now)) }
{
    match outcome {
        Outcome::Faulty(diagnostics) => emit_diagnostics(so_far, writer, b"failed ", diagnostics),
        Outcome::NoMain => emit_lack(so_far, writer, b"failed B1 main ", main),
        Outcome::NoBody(name) => emit_lack(so_far, writer, b"failed B2 body ", name),
        Outcome::NoSubunit(name) => emit_lack(so_far, writer, b"failed B3 subunit ", name),
        Outcome::Cycle(lines) => emit_cycle(so_far, writer, b"failed B4 cycle ", lines),
        Outcome::TooLarge(_) => emit(so_far, writer, b"failed L1 image too large\n"),
        Outcome::Made(order, image) => emit_built(so_far, writer, order.len(), image.len()),
    }
}

// Writes the diagnostics of a build with this outcome.
fn report_diagnostics<K: Sink>(
    so_far: Result<(), Device>,
    writer: &mut K,
    outcome: &Outcome<'_>,
) -> Result<(), Device>
    requires { IsOk so_far → K.faults writer.old < 2 ^ 64 - 1 }
    ensures faults { IsOk result → IsOk so_far × (K.faults writer.new ≡ K.faults writer.old) }
    ensures adds { Adds K.written K.faults K.waits writer.old writer.new so_far result (report_reply ReportKind.Diagnostics (outcome_model outcome.now)) }
{
    emit_diagnostics(so_far, writer, b"diagnostics ", outcome.findings())
}

// Writes the order of a build with this outcome.
fn report_order<K: Sink>(
    so_far: Result<(), Device>,
    writer: &mut K,
    outcome: &Outcome<'_>,
) -> Result<(), Device>
    requires { IsOk so_far → K.faults writer.old < 2 ^ 64 - 1 }
    ensures faults { IsOk result → IsOk so_far × (K.faults writer.new ≡ K.faults writer.old) }
    ensures adds { Adds K.written K.faults K.waits writer.old writer.new so_far result (order_reply (order_of (outcome_model outcome.now))) }
{
    match outcome.order() {
        Some(order) => emit_order(so_far, writer, b"order ", order),
        None => emit_refusal(so_far, writer, Refusal::NoImage),
    }
}

// Writes the image of a build with this outcome.
fn report_image<K: Sink>(
    so_far: Result<(), Device>,
    writer: &mut K,
    outcome: &Outcome<'_>,
) -> Result<(), Device>
    requires { IsOk so_far → K.faults writer.old < 2 ^ 64 - 1 }
    ensures faults { IsOk result → IsOk so_far × (K.faults writer.new ≡ K.faults writer.old) }
    ensures adds { Adds K.written K.faults K.waits writer.old writer.new so_far result (image_reply (image_of (outcome_model outcome.now))) }
{
    match outcome.image() {
        Some(image) => emit_image(so_far, writer, image),
        None => emit_refusal(so_far, writer, Refusal::NoImage),
    }
}

// Writes a report about a build with this outcome.
fn emit_report<K: Sink>(
    so_far: Result<(), Device>,
    writer: &mut K,
    subject: ReportKind,
    outcome: &Outcome<'_>,
) -> Result<(), Device>
    requires { IsOk so_far → K.faults writer.old < 2 ^ 64 - 1 }
    ensures faults { IsOk result → IsOk so_far × (K.faults writer.new ≡ K.faults writer.old) }
    ensures adds { Adds K.written K.faults K.waits writer.old writer.new so_far result (report_reply subject (outcome_model outcome.now)) }
{
    match subject {
        ReportKind::Diagnostics => report_diagnostics(so_far, writer, outcome),
        ReportKind::Order => report_order(so_far, writer, outcome),
        ReportKind::Image => report_image(so_far, writer, outcome),
    }
}

/// Writes a reply, and passes it on. What it says of the library is written as the library holds it.
///
/// # Errors
/// [`Device::Write`] if a push or the flush fails; a prefix of the reply is written then.
pub fn write_reply<K: Sink, L: UnitLibrary>(
    writer: &mut K,
    library: &L,
    reply: &Reply,
) -> Result<(), Device>
    requires { K.faults writer.old < 2 ^ 64 - 1 }
    ensures adds { WritesReply (sink_moment K.written K.faults K.waits writer.old) (sink_moment K.written K.faults K.waits writer.new)
        (reply_model (L.state library.now) reply.now) result }
    ensures passed { OnOk result (K.waits writer.new ≡ false) }
{
    let so_far = emit_reply(writer, library, reply);
    finish(so_far, writer)
}

fn emit_reply<K: Sink, L: UnitLibrary>(
    writer: &mut K,
    library: &L,
    reply: &Reply,
) -> Result<(), Device>
    requires { K.faults writer.old < 2 ^ 64 - 1 }
    ensures { WritesReply (sink_moment K.written K.faults K.waits writer.old) (sink_moment K.written K.faults K.waits writer.new)
        (reply_model (L.state library.now) reply.now) result }
{
    match reply {
        Reply::Nothing => Ok(()),
        Reply::Done => emit(Ok(()), writer, b"ok\n"),
        Reply::Refused(refusal) => emit_refusal(Ok(()), writer, *refusal),
        Reply::LastBuild => match library.last() {
            None => Ok(()),
            Some(last) => emit_outcome(Ok(()), writer, last.main, &last.outcome),
        },
        Reply::Report(subject) => match library.last() {
            None => emit_refusal(Ok(()), writer, Refusal::NotBuilt),
            Some(last) => emit_report(Ok(()), writer, *subject, &last.outcome),
        },
        Reply::Units(files) => emit_units(Ok(()), writer, b"units ", files.as_slice()),
        Reply::Obsolete(units) => emit_order(Ok(()), writer, b"obsolete ", units.as_slice()),
        Reply::RunReport(ran) => emit_ran(Ok(()), writer, ran),
    }
}
