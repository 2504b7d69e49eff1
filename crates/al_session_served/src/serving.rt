// The session.
ghost use Rattle.std.specs.Prelude.{◌+◌, ◌-◌, ◌^◌, ◌<◌, ◌≤◌, IfOk, IsErrOf};
ghost use Rattle.al_session_stream.specs.Input.{source_moment};
ghost use Rattle.al_session_stream.specs.Output.{sink_moment};
ghost use Rattle.al_session_served.specs.Library.{with_tick};
ghost use Rattle.al_session_served.specs.Serving.{Serves, StopsReading, StopsWriting};

use crate::act::act;
use crate::library::UnitLibrary;
use crate::reports::write_reply;
use al_session_stream::{Buffer, Device, Sink, Source};
use std::alloc::Global;

/// How a session ends.
#[derive(Clone, Copy, Debug, PartialEq, Eq)]
pub enum Ended {
    /// By `quit`, at the end of the input, or after as many commands as a session may have.
    Quit,
    /// By a put whose bytes aren't there as announced.
    BadLength,
}

/// Carries out the commands that the reader gives, at most `commands` of them and with at most `pulls` pulls, and writes their replies. A run has a
/// tick of the clock after each `tick` instructions.
///
/// # Errors
/// [`Device::Read`] if a pull fails or none is left: all commands that were read completely are answered. [`Device::Write`] if a push or a flush
/// fails: a prefix of the replies is written.
pub fn serve_within<S: Source, K: Sink, L: UnitLibrary>(
    alloc: Global,
    reader: &mut S,
    writer: &mut K,
    library: &mut L,
    tick: u32,
    commands: u64,
    pulls: u64,
) -> Result<Ended, Device>
    requires read_faults { S.faults reader.old < 2 ^ 64 - 1 }
    requires room { S.pulls reader.old + pulls < 2 ^ 64 }
    requires write_faults { K.faults writer.old < 2 ^ 64 - 1 }
    requires some { 1 ≤ tick }
    requires few { tick ≤ 10000 }

    // What is written is the replies to what is read, and nothing else. No more is read than the commands need.
    ensures served { IfOk result (Serves (with_tick L.meaning tick) commands (source_moment S.ahead S.faults S.pulls reader.old) (source_moment S.ahead S.faults S.pulls reader.new)
        (sink_moment K.written K.faults K.waits writer.old) (sink_moment K.written K.faults K.waits writer.new) (L.state library.old) (L.state library.new)) }

    // A device that fails leaves a prefix of them.
    ensures read { IsErrOf result Device.Read → StopsReading (with_tick L.meaning tick) commands pulls (source_moment S.ahead S.faults S.pulls reader.old) (source_moment S.ahead S.faults S.pulls reader.new)
        (sink_moment K.written K.faults K.waits writer.old) (sink_moment K.written K.faults K.waits writer.new) (L.state library.old) (L.state library.new) }
    ensures write { IsErrOf result Device.Write → StopsWriting (with_tick L.meaning tick) commands (source_moment S.ahead S.faults S.pulls reader.old)
        (sink_moment K.written K.faults K.waits writer.old) (sink_moment K.written K.faults K.waits writer.new) (L.state library.old) (L.state library.new) }
{
    let mut buffer = Buffer::new(pulls);
    for _ in 0..commands {
        let Some(acted) = act(alloc, reader, &mut buffer, library, tick)? else {
            return Ok(Ended::Quit);
        };
        write_reply(writer, library, &acted.reply)?;
        if let Some(ended) = acted.ended {
            return Ok(ended);
        }
        if acted.is_last {
            return Ok(Ended::Quit);
        }
    }
    Ok(Ended::Quit)
}

/// The most commands of a session.
pub const MAX_COMMANDS: u64 = 1_000_000;

/// The most calls of a reader in a session.
pub const MAX_PULLS: u64 = 1 << 31;

/// Serves a session as [`serve_within`] does, with at most [`MAX_COMMANDS`] commands and [`MAX_PULLS`] pulls.
///
/// # Errors
/// As for [`serve_within`].
pub fn serve<S: Source, K: Sink, L: UnitLibrary>(
    alloc: Global,
    reader: &mut S,
    writer: &mut K,
    library: &mut L,
    tick: u32,
) -> Result<Ended, Device>
    requires read_faults { S.faults reader.old < 2 ^ 64 - 1 }
    requires room { S.pulls reader.old + MAX_PULLS < 2 ^ 64 }
    requires write_faults { K.faults writer.old < 2 ^ 64 - 1 }
    requires some { 1 ≤ tick }
    requires few { tick ≤ 10000 }
    ensures served { IfOk result (Serves (with_tick L.meaning tick) MAX_COMMANDS (source_moment S.ahead S.faults S.pulls reader.old) (source_moment S.ahead S.faults S.pulls reader.new)
        (sink_moment K.written K.faults K.waits writer.old) (sink_moment K.written K.faults K.waits writer.new) (L.state library.old) (L.state library.new)) }
    ensures read { IsErrOf result Device.Read → StopsReading (with_tick L.meaning tick) MAX_COMMANDS MAX_PULLS (source_moment S.ahead S.faults S.pulls reader.old) (source_moment S.ahead S.faults S.pulls reader.new)
        (sink_moment K.written K.faults K.waits writer.old) (sink_moment K.written K.faults K.waits writer.new) (L.state library.old) (L.state library.new) }
    ensures write { IsErrOf result Device.Write → StopsWriting (with_tick L.meaning tick) MAX_COMMANDS (source_moment S.ahead S.faults S.pulls reader.old)
        (sink_moment K.written K.faults K.waits writer.old) (sink_moment K.written K.faults K.waits writer.new) (L.state library.old) (L.state library.new) }
{
    serve_within(
        alloc,
        reader,
        writer,
        library,
        tick,
        MAX_COMMANDS,
        MAX_PULLS,
    )
}
