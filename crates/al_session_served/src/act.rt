// One command, from its bytes to its reply.
ghost use Rattle.std.specs.Prelude.{◌≡◌, ℕ, ◌+◌, ◌-◌, ◌^◌, ◌<◌, ◌≤◌, List, [], length, false, IsTrue, IfOk, IfErr, MatchOption};
ghost use Rattle.std.specs.Io.KnownBytes.{IsAtEnd};
ghost use Rattle.al_base.specs.declared.refusal.Refusal.TheVariants.{BadLength as BadLengthRefusal};
ghost use Rattle.al_session_stream.specs.Input.{moment, Reads};
ghost use Rattle.al_session_served.specs.Lines.{PutLine};
ghost use Rattle.al_session_served.specs.Library.{with_tick};
ghost use Rattle.al_session_served.specs.ReplySeen.{reply_model};
ghost use Rattle.al_session_served.specs.Acting.{ActsOn, ActsOnRest, StopsShort, StopsInText};

use crate::answering::{answer, put};
use crate::library::UnitLibrary;
use crate::line::{Line, line_of};
use crate::reply::Reply;
use crate::serving::Ended;
use al_base::Refusal;
use al_session_stream::{Buffer, Device, KeptLine, Source, Text, read_line, read_text};
use std::alloc::Global;

/// The reply to a command, and whether the session ends with it.
#[derive(Drop)]
pub struct Acted {
    /// The reply.
    pub reply: Reply,
    /// How the session ends, if it ends with the command.
    pub ended: Option<Ended>,
    /// Whether the input ended with the command.
    pub is_last: bool,
}

/// Reads a command and carries it out, if there is one. A run has a tick of the clock after each `tick` instructions.
///
/// # Errors
/// [`Device::Read`] if a pull fails, or no pull is left; the library is then as before.
pub fn act<S: Source, L: UnitLibrary>(
    alloc: Global,
    source: &mut S,
    buffer: &mut Buffer,
    library: &mut L,
    tick: u32,
) -> Result<Option<Acted>, Device>
    requires faults { S.faults source.old < 2 ^ 64 - 1 }
    requires pulls { S.pulls source.old + buffer.old.1 < 2 ^ 64 }
    requires some { 1 ≤ tick }
    requires few { tick ≤ 10000 }
    ensures acted { IfOk result (λ acted. MatchOption acted
        ((L.state library.new ≡ L.state library.old) × IsAtEnd (moment S.ahead S.faults S.pulls source.new buffer.new).ahead
        × Reads (moment S.ahead S.faults S.pulls source.old buffer.old) (moment S.ahead S.faults S.pulls source.new buffer.new) [] 1)
        (λ acted. ActsOn (with_tick L.meaning tick) (moment S.ahead S.faults S.pulls source.old buffer.old)
        (moment S.ahead S.faults S.pulls source.new buffer.new) (L.state library.old) (L.state library.new)
        (reply_model (L.state library.new) acted.reply) acted.ended acted.is_last)) }
    ensures stopped { IfErr result (λ device. (device ≡ Device.Read) × (L.state library.new ≡ L.state library.old)
        × StopsShort (moment S.ahead S.faults S.pulls source.old buffer.old) (moment S.ahead S.faults S.pulls source.new buffer.new)) }
{
    let mut kept = KeptLine::new();
    let has_end = read_line(source, buffer, &mut kept)?;
    let line = kept.as_slice();
    if !has_end && line.is_empty() {
        return Ok(None);
    }
    let is_last = !has_end;
    match line_of(line) {
        Line::Put(name, len) => {
            if is_last {
                Ok(Some(bad_length()))
            } else {
                let acted = act_on_text(alloc, source, buffer, library, tick, name, len)?;
                Ok(Some(acted))
            }
        }
        Line::BadPut => Ok(Some(bad_length())),
        Line::Whole(command) => {
            let (reply, ended) = answer(alloc, library, tick, command);
            Ok(Some(Acted {
                reply,
                ended,
                is_last,
            }))
        }
    }
}

// Reads the bytes of a put and carries it out.
fn act_on_text<S: Source, L: UnitLibrary>(
    alloc: Global,
    source: &mut S,
    buffer: &mut Buffer,
    library: &mut L,
    tick: u32,
    name: &[u8],
    len: usize,
) -> Result<Acted, Device>
    requires faults { S.faults source.old < 2 ^ 64 - 1 }
    requires pulls { S.pulls source.old + buffer.old.1 < 2 ^ 64 }
    ensures acted { IfOk result (λ acted. ActsOnRest (with_tick L.meaning tick) (PutLine name.now len)
        (moment S.ahead S.faults S.pulls source.old buffer.old) (moment S.ahead S.faults S.pulls source.new buffer.new)
        (L.state library.old) (L.state library.new) (reply_model (L.state library.new) acted.reply) acted.ended) }
    ensures not_last { IfOk result (λ acted. acted.is_last ≡ false) }
    ensures stopped { IfErr result (λ device. (device ≡ Device.Read) × (L.state library.new ≡ L.state library.old)
        × StopsInText name.now len (moment S.ahead S.faults S.pulls source.old buffer.old) (moment S.ahead S.faults S.pulls source.new buffer.new)) }
{
    let mut text = Text::new(alloc, library.check_put(name, len).is_ok());
    if !read_text(source, buffer, len, &mut text)? {
        return Ok(bad_length());
    }
    let reply = put(library, name, len, text);
    Ok(Acted {
        reply,
        ended: None,
        is_last: false,
    })
}

fn bad_length() -> Acted
    ensures reply { result.reply ≡ Reply.Refused BadLengthRefusal }
    ensures ended { result.ended ≡ Some Ended.BadLength }
    ensures not_last { result.is_last ≡ false }
{
    Acted {
        reply: Reply::Refused(Refusal::BadLength),
        ended: Some(Ended::BadLength),
        is_last: false,
    }
}
