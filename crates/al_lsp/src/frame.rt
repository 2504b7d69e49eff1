// Frames: a head that tells the length of a body, and the body.
ghost use Rattle.std.specs.Prelude.{◌≡◌, ◌+◌, ◌-◌, ◌^◌, ◌<◌, ◌≤◌, [], IsOk, length};
ghost use Rattle.al_session_stream.specs.Input.{moment};
ghost use Rattle.al_session_stream.specs.Output.{Adds};
ghost use Rattle.al_lsp.specs.Frames.{frame_of, ReadsFrame};
ghost use Rattle.al_lsp.specs.Reading.{ReadsHead, ReadsRest, ReadsTail};

use crate::head::{MAX_BODY, content_length, ends_head};
use al_session_stream::{Buffer, Device, Sink, Source, emit, emit_number};
use std::alloc::{AllocFailed, Global};

/// The most bytes of a head.
const MAX_HEAD: usize = 4096;

/// What is read.
#[derive(Drop)]
pub enum Frame {
    Body(Vec<u8>),
    /// The input ended after a whole frame.
    End,
    /// The bytes are no frame, so that nobody knows where the next one begins.
    Broken,
}

/// Why nothing more can be read.
#[derive(Clone, Copy, Debug, PartialEq, Eq)]
pub enum ReadError {
    Memory,
    Device,
}

impl From<Device> for ReadError {
    ghost use Rattle.al_lsp.specs.declared.frame.ReadError.TheVariants.{Device};

    ghost from_gives = { λ _ e. e ≡ Device };

    fn from(_error: Device) -> ReadError {
        ReadError::Device
    }
}

impl<T: Drop> From<AllocFailed<T>> for ReadError {
    ghost use Rattle.al_lsp.specs.declared.frame.ReadError.TheVariants.{Memory};

    ghost from_gives = { λ _ e. e ≡ Memory };

    fn from(_error: AllocFailed<T>) -> ReadError {
        ReadError::Memory
    }
}

/// How a head ends.
#[derive(Clone, Copy)]
enum HeadEnd {
    Whole,
    /// There is no byte of it.
    Nothing,
    Broken,
}

// Reads a head.
fn read_head<S: Source>(
    source: &mut S,
    buffer: &mut Buffer,
    head: &mut Vec<u8>,
) -> Result<HeadEnd, ReadError>
    requires empty { head.old.items ≡ [] }
    requires faults { S.faults source.old < 2 ^ 64 - 1 }
    requires pulls { S.pulls source.old + buffer.old.1 < 2 ^ 64 }
    ensures { ReadsHead MAX_HEAD (moment S.ahead S.faults S.pulls source.old buffer.old)
        (moment S.ahead S.faults S.pulls source.new buffer.new) head.new.items result }
{
    while let Some(byte) = buffer.next(source)? {
        head.push(byte)?;
        if ends_head(head.as_slice()) {
            return Ok(HeadEnd::Whole);
        }
        if head.len() >= MAX_HEAD {
            return Ok(HeadEnd::Broken);
        }
    }
    if head.is_empty() {
        return Ok(HeadEnd::Nothing);
    }
    Ok(HeadEnd::Broken)
}

// Reads so many bytes; whether they are there.
fn read_rest<S: Source>(
    source: &mut S,
    buffer: &mut Buffer,
    len: usize,
    body: &mut Vec<u8>,
) -> Result<bool, ReadError>
    requires empty { body.old.items ≡ [] }
    requires faults { S.faults source.old < 2 ^ 64 - 1 }
    requires pulls { S.pulls source.old + buffer.old.1 < 2 ^ 64 }
    ensures { ReadsRest len (moment S.ahead S.faults S.pulls source.old buffer.old)
        (moment S.ahead S.faults S.pulls source.new buffer.new) body.new.items result }
{
    for _done in 0..len {
        let Some(byte) = buffer.next(source)? else {
            return Ok(false);
        };
        body.push(byte)?;
    }
    Ok(true)
}

// Reads a body of so many bytes.
fn read_body<S: Source>(
    alloc: Global,
    source: &mut S,
    buffer: &mut Buffer,
    len: usize,
) -> Result<Frame, ReadError>
    requires faults { S.faults source.old < 2 ^ 64 - 1 }
    requires pulls { S.pulls source.old + buffer.old.1 < 2 ^ 64 }
    ensures { ReadsTail len (moment S.ahead S.faults S.pulls source.old buffer.old)
        (moment S.ahead S.faults S.pulls source.new buffer.new) result }
{
    let mut body = Vec::new(alloc);
    if read_rest(source, buffer, len, &mut body)? {
        Ok(Frame::Body(body))
    } else {
        Ok(Frame::Broken)
    }
}

/// Reads a frame.
///
/// # Errors
///
/// `Device` where a pull fails or none is left, `Memory` where memory was wanted and not given.
pub fn read_frame<S: Source>(
    alloc: Global,
    source: &mut S,
    buffer: &mut Buffer,
) -> Result<Frame, ReadError>
    requires faults { S.faults source.old < 2 ^ 64 - 1 }
    requires pulls { S.pulls source.old + buffer.old.1 < 2 ^ 64 }
    ensures { ReadsFrame MAX_BODY MAX_HEAD (moment S.ahead S.faults S.pulls source.old buffer.old)
        (moment S.ahead S.faults S.pulls source.new buffer.new) result }
{
    let mut head = Vec::new(alloc);
    match read_head(source, buffer, &mut head)? {
        HeadEnd::Nothing => Ok(Frame::End),
        HeadEnd::Broken => Ok(Frame::Broken),
        HeadEnd::Whole => match content_length(head.as_slice()) {
            Some(len) => read_body(alloc, source, buffer, len),
            None => Ok(Frame::Broken),
        },
    }
}

/// Writes the frame of a body, as [`emit`] writes a piece.
pub fn emit_frame<K: Sink>(
    so_far: Result<(), Device>,
    writer: &mut K,
    body: &[u8],
) -> Result<(), Device>
    requires { IsOk so_far → K.faults writer.old < 2 ^ 64 - 1 }
    ensures faults { IsOk result → IsOk so_far × (K.faults writer.new ≡ K.faults writer.old) }
    ensures adds { Adds K.written K.faults K.waits writer.old writer.new so_far result (frame_of body.now) }
{
    let so_far = emit(so_far, writer, b"Content-Length: ");
    let so_far = emit_number(so_far, writer, body.len());
    let so_far = emit(so_far, writer, b"\r\n\r\n");
    emit(so_far, writer, body)
}
