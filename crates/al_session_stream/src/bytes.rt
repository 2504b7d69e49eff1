// A reader of bytes in memory.
ghost use Rattle.std.specs.Prelude.{◌≡◌};

use crate::device::{Fault, Source};

/// A reader of bytes in memory. It never fails, and counts its calls.
#[derive(Drop)]
pub struct Bytes<'a> {
    rest: &'a [u8],
    calls: u64,
}

impl<'a> Bytes<'a> {
    /// A reader of these bytes that has not been called.
    pub fn new(bytes: &'a [u8]) -> Self
        ensures { result ≡ record { rest = bytes.entry; calls = 0 } }
    {
        Bytes {
            rest: bytes,
            calls: 0,
        }
    }
}

impl Source for Bytes<'_> {
    ghost use Rattle.std.specs.Prelude.{Some};

    ghost ahead = { λ b. Some b.rest.now };

    ghost faults = { λ _. 0 };

    ghost pulls = { λ b. b.calls };

    fn pull(&mut self, buffer: &mut [u8]) -> Result<usize, Fault> {
        self.calls += 1;
        let count = self.rest.len().min(buffer.len());
        let (now, later) = self.rest.split_at(count);
        buffer[..count].copy_from_slice(now);
        self.rest = later;
        Ok(count)
    }
}
