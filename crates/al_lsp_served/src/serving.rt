// The session of one client.
ghost use Rattle.std.specs.Prelude.{◌≡◌, ◌+◌, ◌-◌, ◌^◌, ◌<◌, [], ◌∷◌, OnOk};
ghost use Rattle.std.specs.Io.KnownBytes.{Appends};
ghost use Rattle.al_lsp.specs.Frames.{frame_of};
ghost use Rattle.al_session_stream.specs.Input.{Moment, moment};
ghost use Rattle.al_lsp_served.specs.Sent.{Writes, Handles};
ghost use Rattle.al_lsp_served.specs.Sessions.{Serves};
ghost use Rattle.al_lsp_served.specs.Told.{told_of};

use crate::disk::Folders;
use crate::library::DiagnosedLibrary;
use crate::server::{Server, Step};
use al_base::NoMemory;
use al_lsp::{Frame, ReadError, emit_frame, read_frame};
use al_lsp_messages::{Outgoing, body_of};
use al_session_stream::{Buffer, Device, Sink, Source, finish};
use std::alloc::Global;
use thiserror::Error;

/// Why a session can't go on.
#[derive(Clone, Copy, Debug, PartialEq, Eq, Error)]
pub enum Failure {
    #[error("out of memory")]
    Memory,
    #[error("the standard input can't be read")]
    Input,
    #[error("the standard output can't be written")]
    Output,
}

/// How a session ends.
#[derive(Clone, Copy, Debug, PartialEq, Eq)]
pub enum Ending {
    /// By `exit`; whether it was shut down before.
    Exit(bool),
    /// By the end of the input.
    End,
    /// By bytes that are no frame.
    Broken,
}

impl From<NoMemory> for Failure {
    fn from(_error: NoMemory) -> Failure {
        Failure::Memory
    }
}

impl From<ReadError> for Failure {
    fn from(error: ReadError) -> Failure {
        match error {
            ReadError::Memory => Failure::Memory,
            ReadError::Device => Failure::Input,
        }
    }
}

impl From<Device> for Failure {
    fn from(_error: Device) -> Failure {
        Failure::Output
    }
}

// Writes the frame of a body.
fn write_frame<K: Sink>(sink: &mut K, body: &[u8]) -> Result<(), Failure>
    requires { K.faults sink.old < 2 ^ 64 - 1 }
    ensures faults { OnOk result (K.faults sink.new ≡ K.faults sink.old) }
    ensures written { OnOk result (Appends (K.written sink.old) (K.written sink.new) (frame_of body.now)) }
{
    emit_frame(Ok(()), sink, body)?;
    Ok(())
}

// Passes on what a writer holds back.
fn pass_on<K: Sink>(sink: &mut K) -> Result<(), Failure>
    requires { K.faults sink.old < 2 ^ 64 - 1 }
    ensures faults { OnOk result (K.faults sink.new ≡ K.faults sink.old) }
    ensures written { OnOk result (Appends (K.written sink.old) (K.written sink.new) []) }
{
    finish(Ok(()), sink)?;
    Ok(())
}

// Writes a message.
fn send_one<K: Sink>(alloc: Global, sink: &mut K, message: &Outgoing) -> Result<(), Failure>
    requires { K.faults sink.old < 2 ^ 64 - 1 }
    ensures faults { OnOk result (K.faults sink.new ≡ K.faults sink.old) }
    ensures written { OnOk result (Writes (K.written sink.old) (K.written sink.new) (message.now ∷ [])) }
{
    let body = body_of(alloc, message)?;
    write_frame(sink, body.as_slice())
}

// Writes messages.
fn send_all<K: Sink>(alloc: Global, sink: &mut K, messages: &[Outgoing]) -> Result<(), Failure>
    requires { K.faults sink.old < 2 ^ 64 - 1 }
    ensures faults { OnOk result (K.faults sink.new ≡ K.faults sink.old) }
    ensures written { OnOk result (Writes (K.written sink.old) (K.written sink.new) messages.now) }
{
    for message in messages {
        send_one(alloc, sink, message)?;
    }
    Ok(())
}

// Writes messages, and passes them on.
fn send<K: Sink>(alloc: Global, sink: &mut K, messages: &[Outgoing]) -> Result<(), Failure>
    requires { K.faults sink.old < 2 ^ 64 - 1 }
    ensures faults { OnOk result (K.faults sink.new ≡ K.faults sink.old) }
    ensures written { OnOk result (Writes (K.written sink.old) (K.written sink.new) messages.now) }
{
    send_all(alloc, sink, messages)?;
    pass_on(sink)
}

// Does what a body asks for, and writes what is to be sent.
fn handle<K: Sink, L: DiagnosedLibrary, D: Folders>(
    sink: &mut K,
    server: &mut Server<L>,
    disk: &D,
    body: &[u8],
) -> Result<Step, Failure>
    requires { K.faults sink.old < 2 ^ 64 - 1 }
    ensures faults { OnOk result (K.faults sink.new ≡ K.faults sink.old) }
    ensures handles { OnOk result (Handles body.now (told_of server.old.told) (told_of server.new.told) (K.written sink.old) (K.written sink.new)) }
{
    let alloc = server.space.alloc;
    let mut out = Vec::new(alloc);
    let step = server.take(disk, body, &mut out)?;
    send(alloc, sink, out.as_slice())?;
    Ok(step)
}

/// The most calls of a reader in a session.
const MAX_PULLS: u64 = 1 << 62;

/// Serves a client: reads its messages, and writes what the server sends, until it wants the session to end. All that is written are the frames of what the
/// bodies ask for that are read, one behind the other.
///
/// # Errors
///
/// `Memory` where memory was wanted and not given, `Input` or `Output` where a device fails.
pub fn serve<S: Source, K: Sink, L: DiagnosedLibrary, D: Folders>(
    source: &mut S,
    sink: &mut K,
    server: &mut Server<L>,
    disk: &D,
) -> Result<Ending, Failure>
    requires read_faults { S.faults source.old < 2 ^ 64 - 1 }
    requires room { S.pulls source.old + MAX_PULLS < 2 ^ 64 }
    requires write_faults { K.faults sink.old < 2 ^ 64 - 1 }
    ensures { OnOk result ((read_to : Moment) × Serves 67108864 (moment S.ahead S.faults S.pulls source.old ([], MAX_PULLS)) read_to
        (told_of server.old.told) (told_of server.new.told) (K.written sink.old) (K.written sink.new)) }
{
    let mut buffer = Buffer::new(MAX_PULLS);
    for _turn in 0..u64::MAX {
        match read_frame(server.space.alloc, source, &mut buffer)? {
            Frame::Body(body) => {
                let step = handle(sink, server, disk, body.as_slice())?;
                if let Step::Exit(is_right) = step {
                    return Ok(Ending::Exit(is_right));
                }
            }
            Frame::End => return Ok(Ending::End),
            Frame::Broken => return Ok(Ending::Broken),
        }
    }
    Ok(Ending::End)
}
