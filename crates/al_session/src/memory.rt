// A session over bytes in memory.
ghost use Rattle.std.specs.Prelude.{◌≤◌, IfOk, IsErrOf};
ghost use Rattle.al_session_served.specs.Library.{with_tick};
ghost use Rattle.al_session_served.specs.Serving.{ServesBytes, StopsReadingBytes, StopsWritingBytes};
ghost use Rattle.al_session.specs.Meanings.{library_meaning};

use crate::engine::Engine;
use al_query_outcome::UnitCheck;
use al_session_stream::Device;
use std::alloc::Global;

/// The replies to the commands in these bytes. A command that runs out of memory has a reply too. The library is as after all of them.
///
/// # Errors
///
/// [`Device::Read`] if the session needs more calls of a reader than it may have, which at least 2,147,483,648 bytes can make: the library is as
/// after the commands that were read completely. [`Device::Write`] if memory for a reply is refused: the library is as after its command.
pub fn serve_bytes<C: UnitCheck>(
    alloc: Global,
    library: &mut Engine<C>,
    tick: u32,
    input: &[u8],
) -> Result<Vec<u8>, Device>
    requires some { 1 ≤ tick }
    requires few { tick ≤ 10000 }
    ensures served { IfOk result (λ replies. ServesBytes (with_tick (library_meaning C.meaning C.Text.header) tick) input.now library.old library.new replies.items) }
    ensures read { IsErrOf result Device.Read → StopsReadingBytes (with_tick (library_meaning C.meaning C.Text.header) tick) input.now library.old library.new }
    ensures write { IsErrOf result Device.Write → StopsWritingBytes (with_tick (library_meaning C.meaning C.Text.header) tick) input.now library.old library.new }
{
    al_session_served::serve_bytes(alloc, library, tick, input)
}
