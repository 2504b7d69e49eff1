// Reading of lines, and of blocks of known length.
ghost use Rattle.std.specs.Prelude.{◌≡◌, ◌+◌, ◌-◌, ◌^◌, ◌<◌, ◌≤◌, ◌++◌, [], ◌∷◌, length, vec_capacity, IsTrue, false};
ghost use Rattle.al_session_stream.specs.Input.{moment};
ghost use Rattle.al_session_stream.specs.Reading.{ReadsLine, ReadsBlock, ReadsText};

use crate::buffer::Buffer;
use crate::device::{Device, Source};
use crate::kept::KeptLine;
use std::alloc::Global;

/// Reads a line and the line end after it, and says whether there was one: only the last line of the input may lack it. If a line has more than 601
/// bytes, the first 601 are kept, so a caller can see that it is too long.
///
/// # Errors
/// [`Device::Read`] if a pull fails, or no pull is left.
pub fn read_line<S: Source>(
    source: &mut S,
    buffer: &mut Buffer,
    line: &mut KeptLine,
) -> Result<bool, Device>
    requires empty { line.old ≡ [] }
    requires faults { S.faults source.old < 2 ^ 64 - 1 }
    requires pulls { S.pulls source.old + buffer.old.1 < 2 ^ 64 }
    ensures { ReadsLine (moment S.ahead S.faults S.pulls source.old buffer.old)
        (moment S.ahead S.faults S.pulls source.new buffer.new) line.new result }
{
    while let Some(b) = buffer.next(source)? {
        if b == b'\n' {
            return Ok(true);
        }
        line.push(b);
    }
    Ok(false)
}

/// A block of bytes as it is read. `kept` says that all its bytes are there. It becomes false if memory is refused, and nothing is kept from then
/// on.
#[derive(Drop)]
pub struct Text {
    /// The bytes so far, if they are kept.
    pub bytes: Vec<u8>,
    /// Whether all bytes so far are there.
    pub kept: bool,
}

impl Text {
    /// No bytes so far. `kept` says whether they are to be kept; if not, no memory is taken.
    pub fn new(alloc: Global, kept: bool) -> Self
        ensures bytes { result.bytes.items ≡ [] }
        ensures kept { result.kept ≡ kept }
    {
        Text {
            bytes: Vec::new(alloc),
            kept,
        }
    }

    // Takes room for so many more bytes, if they are to be kept.
    fn reserve(&mut self, count: usize)
        ensures kept { IsTrue self.new.kept → IsTrue self.old.kept }
        ensures room { IsTrue self.new.kept → length self.new.bytes.items + count ≤ vec_capacity self.new.bytes }
        ensures bytes { self.new.bytes.items ≡ self.old.bytes.items }
        ensures dropped { self.old.kept ≡ false → self.new.kept ≡ false }
    {
        if self.kept && self.bytes.reserve(count).is_err() {
            self.kept = false;
        }
    }

    fn append(&mut self, block: &[u8])
        ensures kept { IsTrue self.new.kept → IsTrue self.old.kept }
        ensures bytes { IsTrue self.new.kept → self.new.bytes.items ≡ self.old.bytes.items ++ block.now }
        ensures dropped { self.old.kept ≡ false → (self.new.kept ≡ false) × (self.new.bytes.items ≡ self.old.bytes.items) }
    {
        if self.kept && self.bytes.extend_from_slice(block).is_err() {
            self.kept = false;
        }
    }
}

// Reads some bytes of a block, those that are held or come with one pull, and adds them to it.
fn read_block<S: Source>(
    source: &mut S,
    buffer: &mut Buffer,
    most: usize,
    text: &mut Text,
) -> Result<usize, Device>
    requires faults { S.faults source.old < 2 ^ 64 - 1 }
    requires pulls { S.pulls source.old + buffer.old.1 < 2 ^ 64 }
    requires some { 0 < most }
    ensures read { ReadsBlock (moment S.ahead S.faults S.pulls source.old buffer.old)
        (moment S.ahead S.faults S.pulls source.new buffer.new) most
        (λ bytes. IsTrue text.new.kept → IsTrue text.old.kept × (text.new.bytes.items ≡ text.old.bytes.items ++ bytes)) result }
    ensures dropped { text.old.kept ≡ false → (text.new.kept ≡ false) × (text.new.bytes.items ≡ text.old.bytes.items) }
{
    buffer.refill(source)?;
    let held = buffer.held();
    let count = most.min(held.len());
    text.append(&held[..count]);
    buffer.skip(count);
    Ok(count)
}

/// Reads a block of `len` bytes and the line end after it, and says whether both are there. If not, the input ends too early, or the byte after the
/// block is another one; that byte has been read too.
///
/// The bytes are added to `text` as long as memory lasts. If `text` keeps nothing, they are read and dropped.
///
/// # Errors
/// [`Device::Read`] if a pull fails, or no pull is left.
pub fn read_text<S: Source>(
    source: &mut S,
    buffer: &mut Buffer,
    len: usize,
    text: &mut Text,
) -> Result<bool, Device>
    requires faults { S.faults source.old < 2 ^ 64 - 1 }
    requires pulls { S.pulls source.old + buffer.old.1 < 2 ^ 64 }
    ensures read { ReadsText (moment S.ahead S.faults S.pulls source.old buffer.old)
        (moment S.ahead S.faults S.pulls source.new buffer.new) len
        (λ bytes. IsTrue text.new.kept → IsTrue text.old.kept × (text.new.bytes.items ≡ text.old.bytes.items ++ bytes)) result }
    ensures dropped { text.old.kept ≡ false → (text.new.kept ≡ false) × (text.new.bytes.items ≡ text.old.bytes.items) }
{
    text.reserve(len);
    let mut left = len;
    while left > 0 {
        let count = read_block(source, buffer, left, text)?;
        if count == 0 {
            return Ok(false);
        }
        left -= count;
    }
    let Some(after) = buffer.next(source)? else {
        return Ok(false);
    };
    if after != b'\n' {
        return Ok(false);
    }
    Ok(true)
}
