// A session from an empty library.
ghost use Rattle.std.specs.Prelude.{◌≡◌, ◌+◌, ◌-◌, ◌^◌, ◌<◌, ◌≤◌, IfOk, IsErrOf, OnErr};
ghost use Rattle.al_session_stream.specs.Input.{source_moment};
ghost use Rattle.al_session_stream.specs.Output.{sink_moment};
ghost use Rattle.al_session_served.specs.Library.{State, empty, with_tick};
ghost use Rattle.al_session_served.specs.Serving.{Serves, StopsReading, StopsWriting};
ghost use Rattle.al_unit.specs.Texts.{header_in};
ghost use Rattle.al_session.specs.Meanings.{library_meaning};

use crate::engine::new_engine;
use crate::serving::serve;
use al_base::NoMemory;
use al_query_outcome::UnitCheck;
use al_session_served::{Ended, MAX_COMMANDS, MAX_PULLS};
use al_session_stream::{Device, Sink, Source};
use al_unit::AdaText;
use std::alloc::Global;

/// A whole session: carries out the commands that the reader gives, from an empty library, and writes their replies. The result of [`serve`] is
/// given as it is.
/// - `served`: what is written is the replies of the plain session to what is read, and nothing else; and the result says how the session ended.
/// - `read`, `write`: a device that fails leaves a prefix of them.
/// - `refused`: if memory for the library is refused, nothing is read and nothing is written.
///
/// # Errors
///
/// `NoMemory` if memory for the library is refused.
pub fn session<S: Source, K: Sink, C: UnitCheck<Text = AdaText> + Drop>(
    alloc: Global,
    checker: C,
    reader: &mut S,
    writer: &mut K,
    tick: u32,
) -> Result<Result<Ended, Device>, NoMemory>
    requires read_faults { S.faults reader.old < 2 ^ 64 - 1 }
    requires room { S.pulls reader.old + MAX_PULLS < 2 ^ 64 }
    requires write_faults { K.faults writer.old < 2 ^ 64 - 1 }
    requires some { 1 ≤ tick }
    requires few { tick ≤ 10000 }
    ensures served { IfOk result (λ came. IfOk came (λ ended. (after : State) × Serves (with_tick (library_meaning C.meaning header_in) tick) MAX_COMMANDS (source_moment S.ahead S.faults S.pulls reader.old) (source_moment S.ahead S.faults S.pulls reader.new)
        (sink_moment K.written K.faults K.waits writer.old) (sink_moment K.written K.faults K.waits writer.new) empty after ended)) }
    ensures read { IfOk result (λ came. IsErrOf came Device.Read → (after : State) × StopsReading (with_tick (library_meaning C.meaning header_in) tick) MAX_COMMANDS MAX_PULLS (source_moment S.ahead S.faults S.pulls reader.old) (source_moment S.ahead S.faults S.pulls reader.new)
        (sink_moment K.written K.faults K.waits writer.old) (sink_moment K.written K.faults K.waits writer.new) empty after) }
    ensures write { IfOk result (λ came. IsErrOf came Device.Write → (after : State) × StopsWriting (with_tick (library_meaning C.meaning header_in) tick) MAX_COMMANDS (source_moment S.ahead S.faults S.pulls reader.old)
        (sink_moment K.written K.faults K.waits writer.old) (sink_moment K.written K.faults K.waits writer.new) empty after) }
    ensures refused { OnErr result ((reader.new ≡ reader.old) × (writer.new ≡ writer.old)) }
{
    let mut library = new_engine(alloc, checker)?;
    let ended = serve(alloc, reader, writer, &mut library, tick);
    // The system takes the memory back at the end of the process; dropping all that is kept would only take time.
    std::mem::forget(library);
    Ok(ended)
}
