// Writing of bytes.
ghost use Rattle.std.specs.Prelude.{◌-◌, ◌^◌, ◌<◌};
ghost use Rattle.al_session_stream.specs.Output.{sink_moment, WritesReply};

use crate::device::{Device, Sink};

/// Writes all of the bytes, by as many pushes as it takes.
///
/// # Errors
/// [`Device::Write`] if a push fails: a prefix of the bytes is written then.
pub fn write_all<K: Sink>(writer: &mut K, bytes: &[u8]) -> Result<(), Device>
    requires { K.faults writer.old < 2 ^ 64 - 1 }
    ensures { WritesReply (sink_moment K.written K.faults K.waits writer.old) (sink_moment K.written K.faults K.waits writer.new)
        bytes.now result }
{
    let mut done = 0;
    while done < bytes.len() {
        match writer.push(&bytes[done..]) {
            Ok(count) => done += count,
            Err(_) => return Err(Device::Write),
        }
    }
    Ok(())
}
