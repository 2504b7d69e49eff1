// Bytes that were pulled and not yet read.
ghost use Rattle.std.specs.Prelude.{◌≡◌, ◌+◌, ◌-◌, ◌^◌, ◌<◌, ◌≤◌, ◌↔◌, [], ◌∷◌, length, drop, IsTrue};
ghost use Rattle.std.specs.Prelude.{OnOk, IfOk, IsSome};
ghost use Rattle.std.specs.Io.KnownBytes.{IsAtEnd};
ghost use Rattle.al_session_stream.specs.Input.{moment, budget, Reads, Stops, GivesNext, GivesMore};

use crate::device::{Device, Source};
use std::marker::Model;

/// Bytes that were pulled and not yet read, and how many more pulls are allowed.
pub struct Buffer {
    bytes: [u8; 4096],
    start: usize,
    end: usize,
    left: u64,
}

impl Drop for Buffer {
    fn drop(self) {
        let Buffer {
            bytes: _,
            start: _,
            end: _,
            left: _,
        } = self;
    }
}

impl Model for Buffer {
    ghost use Rattle.std.specs.Prelude.{ℕ, List, take, drop, ◌≤◌};

    ghost Value = { List ℕ × ℕ };

    ghost view = { λ b. (drop b.start (take b.end b.bytes), b.left) };

    ghost invariant = { λ b. (b.start ≤ b.end) × (b.end ≤ 4096) };
}

impl Buffer {
    /// A buffer that holds no bytes, and allows `pulls` pulls.
    pub fn new(pulls: u64) -> Self
        ensures { result ≡ ([], pulls) }
    {
        Buffer {
            bytes: [0; 4096],
            start: 0,
            end: 0,
            left: pulls,
        }
    }

    fn is_empty(&self) -> bool
        ensures { IsTrue result ↔ (length self.now.0 ≡ 0) }
    {
        self.start == self.end
    }

    fn pop(&mut self) -> u8
        requires { 0 < length self.old.0 }
        ensures byte { self.old.0 ≡ result ∷ self.new.0 }
        ensures left { self.new.1 ≡ self.old.1 }
    {
        let byte = self.bytes[self.start];
        self.start += 1;
        byte
    }

    // Pulls once.
    fn fill<S: Source>(&mut self, source: &mut S) -> Result<(), Device>
        requires empty { length self.old.0 ≡ 0 }
        requires faults { S.faults source.old < 2 ^ 64 - 1 }
        requires pulls { S.pulls source.old + self.old.1 < 2 ^ 64 }
        ensures more { GivesMore (moment S.ahead S.faults S.pulls source.old self.old)
            (moment S.ahead S.faults S.pulls source.new self.new) result }
        ensures fewer { OnOk result (self.new.1 < self.old.1) }
        ensures short { length self.new.0 ≤ 4096 }
    {
        if self.left == 0 {
            return Err(Device::Read);
        }
        self.left -= 1;
        self.start = 0;
        self.end = 0;
        match source.pull(&mut self.bytes) {
            Ok(count) => {
                self.end = count;
                Ok(())
            }
            Err(_) => Err(Device::Read),
        }
    }

    // Pulls once, unless some bytes are held.
    pub(crate) fn refill<S: Source>(&mut self, source: &mut S) -> Result<(), Device>
        requires faults { S.faults source.old < 2 ^ 64 - 1 }
        requires pulls { S.pulls source.old + self.old.1 < 2 ^ 64 }
        ensures more { GivesMore (moment S.ahead S.faults S.pulls source.old self.old)
            (moment S.ahead S.faults S.pulls source.new self.new) result }
        ensures bound { OnOk result (budget self.new ≤ budget self.old) }
    {
        if self.is_empty() {
            self.fill(source)?;
        }
        Ok(())
    }

    // The bytes that are held.
    pub(crate) fn held(&self) -> &[u8]
        ensures { result.now ≡ self.now.0 }
    {
        &self.bytes[self.start..self.end]
    }

    // Drops the first `count` of the bytes that are held.
    pub(crate) fn skip(&mut self, count: usize)
        requires { count ≤ length self.old.0 }
        ensures rest { self.new.0 ≡ drop count self.old.0 }
        ensures left { self.new.1 ≡ self.old.1 }
    {
        self.start += count;
    }

    /// The next byte of the input, or none at its end.
    ///
    /// # Errors
    /// [`Device::Read`] if a pull is needed and fails, or none is left.
    pub fn next<S: Source>(&mut self, source: &mut S) -> Result<Option<u8>, Device>
        requires faults { S.faults source.old < 2 ^ 64 - 1 }
        requires pulls { S.pulls source.old + self.old.1 < 2 ^ 64 }
        ensures next { GivesNext (moment S.ahead S.faults S.pulls source.old self.old)
            (moment S.ahead S.faults S.pulls source.new self.new) result }
        ensures fewer { IfOk result (λ byte. IsSome byte → budget self.new < budget self.old) }
    {
        self.refill(source)?;
        if self.is_empty() {
            return Ok(None);
        }
        Ok(Some(self.pop()))
    }
}
