// A session over Ada units.
ghost use Rattle.std.specs.Prelude.{◌≡◌, ◌+◌, ◌-◌, ◌^◌, ◌<◌, ◌≤◌, IfOk, IsErrOf, OnErr};
ghost use Rattle.al_session_stream.specs.Input.{source_moment};
ghost use Rattle.al_session_stream.specs.Output.{sink_moment};
ghost use Rattle.al_session_served.specs.Library.{State, empty, with_tick};
ghost use Rattle.al_session_served.specs.Serving.{Serves, StopsReading, StopsWriting};
ghost use Rattle.adalib.specs.Program.{ada_meaning};

use al_base::NoMemory;
use al_check::ada_check;
use al_session::{Device, Ended, Sink, Source, session};
use std::alloc::Global;

/// Serves a session, from an empty library.
/// - `served`: what is written is the replies of the plain session to what is read, in which each build compiles all files from nothing.
/// - `read`, `write`: a device that fails leaves a prefix of them.
/// - `refused`: if memory for the library is refused, nothing is read and nothing is written.
///
/// # Errors
///
/// `NoMemory` if memory for the library is refused.
pub fn serve_ada<S: Source, K: Sink>(
    alloc: Global,
    reader: &mut S,
    writer: &mut K,
    tick: u32,
) -> Result<Result<Ended, Device>, NoMemory>
    requires read_faults { S.faults reader.old < 2 ^ 64 - 1 }
    requires room { S.pulls reader.old + 2 ^ 31 < 2 ^ 64 }
    requires write_faults { K.faults writer.old < 2 ^ 64 - 1 }
    requires some { 1 ≤ tick }
    requires few { tick ≤ 10000 }
    ensures served { IfOk result (λ came. IfOk came (λ ended. (after : State) × Serves (with_tick ada_meaning tick) 1000000 (source_moment S.ahead S.faults S.pulls reader.old) (source_moment S.ahead S.faults S.pulls reader.new)
        (sink_moment K.written K.faults K.waits writer.old) (sink_moment K.written K.faults K.waits writer.new) empty after ended)) }
    ensures read { IfOk result (λ came. IsErrOf came Device.Read → (after : State) × StopsReading (with_tick ada_meaning tick) 1000000 (2 ^ 31) (source_moment S.ahead S.faults S.pulls reader.old) (source_moment S.ahead S.faults S.pulls reader.new)
        (sink_moment K.written K.faults K.waits writer.old) (sink_moment K.written K.faults K.waits writer.new) empty after) }
    ensures write { IfOk result (λ came. IsErrOf came Device.Write → (after : State) × StopsWriting (with_tick ada_meaning tick) 1000000 (source_moment S.ahead S.faults S.pulls reader.old)
        (sink_moment K.written K.faults K.waits writer.old) (sink_moment K.written K.faults K.waits writer.new) empty after) }
    ensures refused { OnErr result ((reader.new ≡ reader.old) × (writer.new ≡ writer.old)) }
{
    session(alloc, ada_check(), reader, writer, tick)
}
