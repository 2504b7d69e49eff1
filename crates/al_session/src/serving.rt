// The session.
ghost use Rattle.std.specs.Prelude.{◌+◌, ◌-◌, ◌^◌, ◌<◌, ◌≤◌, IfOk, IsErrOf};
ghost use Rattle.al_session_stream.specs.Input.{source_moment};
ghost use Rattle.al_session_stream.specs.Output.{sink_moment};
ghost use Rattle.al_session_served.specs.Library.{with_tick};
ghost use Rattle.al_session_served.specs.Serving.{Serves, StopsReading, StopsWriting};
ghost use Rattle.al_session.specs.Meanings.{library_meaning};

use crate::engine::Engine;
use al_query_outcome::UnitCheck;
use al_session_served::{Ended, MAX_COMMANDS, MAX_PULLS};
use al_session_stream::{Device, Sink, Source};
use std::alloc::Global;

/// Carries out the commands that the reader gives, at most `commands` of them and with at most `pulls` pulls, and writes their replies. A run has a
/// tick of the clock after each `tick` instructions.
/// - `served`: what is written is the replies of the plain session to what is read, and nothing else. No more is read than the commands need.
/// - `read`, `write`: a device that fails leaves a prefix of them.
///
/// # Errors
///
/// [`Device::Read`] if a pull fails or none is left; [`Device::Write`] if a push or a flush fails.
pub fn serve_within<S: Source, K: Sink, C: UnitCheck>(
    alloc: Global,
    reader: &mut S,
    writer: &mut K,
    library: &mut Engine<C>,
    tick: u32,
    commands: u64,
    pulls: u64,
) -> Result<Ended, Device>
    requires read_faults { S.faults reader.old < 2 ^ 64 - 1 }
    requires room { S.pulls reader.old + pulls < 2 ^ 64 }
    requires write_faults { K.faults writer.old < 2 ^ 64 - 1 }
    requires some { 1 ≤ tick }
    requires few { tick ≤ 10000 }
    ensures served { IfOk result (Serves (with_tick (library_meaning C.meaning C.Text.header) tick) commands (source_moment S.ahead S.faults S.pulls reader.old) (source_moment S.ahead S.faults S.pulls reader.new)
        (sink_moment K.written K.faults K.waits writer.old) (sink_moment K.written K.faults K.waits writer.new) library.old library.new) }
    ensures read { IsErrOf result Device.Read → StopsReading (with_tick (library_meaning C.meaning C.Text.header) tick) commands pulls (source_moment S.ahead S.faults S.pulls reader.old) (source_moment S.ahead S.faults S.pulls reader.new)
        (sink_moment K.written K.faults K.waits writer.old) (sink_moment K.written K.faults K.waits writer.new) library.old library.new }
    ensures write { IsErrOf result Device.Write → StopsWriting (with_tick (library_meaning C.meaning C.Text.header) tick) commands (source_moment S.ahead S.faults S.pulls reader.old)
        (sink_moment K.written K.faults K.waits writer.old) (sink_moment K.written K.faults K.waits writer.new) library.old library.new }
{
    al_session_served::serve_within(alloc, reader, writer, library, tick, commands, pulls)
}

/// Serves a session as [`serve_within`] does, with the greatest numbers of commands and pulls of a session.
///
/// # Errors
///
/// As for [`serve_within`].
pub fn serve<S: Source, K: Sink, C: UnitCheck>(
    alloc: Global,
    reader: &mut S,
    writer: &mut K,
    library: &mut Engine<C>,
    tick: u32,
) -> Result<Ended, Device>
    requires read_faults { S.faults reader.old < 2 ^ 64 - 1 }
    requires room { S.pulls reader.old + MAX_PULLS < 2 ^ 64 }
    requires write_faults { K.faults writer.old < 2 ^ 64 - 1 }
    requires some { 1 ≤ tick }
    requires few { tick ≤ 10000 }
    ensures served { IfOk result (Serves (with_tick (library_meaning C.meaning C.Text.header) tick) MAX_COMMANDS (source_moment S.ahead S.faults S.pulls reader.old) (source_moment S.ahead S.faults S.pulls reader.new)
        (sink_moment K.written K.faults K.waits writer.old) (sink_moment K.written K.faults K.waits writer.new) library.old library.new) }
    ensures read { IsErrOf result Device.Read → StopsReading (with_tick (library_meaning C.meaning C.Text.header) tick) MAX_COMMANDS MAX_PULLS (source_moment S.ahead S.faults S.pulls reader.old) (source_moment S.ahead S.faults S.pulls reader.new)
        (sink_moment K.written K.faults K.waits writer.old) (sink_moment K.written K.faults K.waits writer.new) library.old library.new }
    ensures write { IsErrOf result Device.Write → StopsWriting (with_tick (library_meaning C.meaning C.Text.header) tick) MAX_COMMANDS (source_moment S.ahead S.faults S.pulls reader.old)
        (sink_moment K.written K.faults K.waits writer.old) (sink_moment K.written K.faults K.waits writer.new) library.old library.new }
{
    serve_within(
        alloc,
        reader,
        writer,
        library,
        tick,
        MAX_COMMANDS,
        MAX_PULLS,
    )
}
