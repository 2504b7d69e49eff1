// The reader of commands, and the writer of replies.
ghost use Rattle.std.specs.Prelude.{◌≡◌, ℕ, ◌+◌, ◌-◌, ◌^◌, ◌<◌, ◌≤◌, Bool, false, List, Option, IfOk, OnErr, OnOk, length};
ghost use Rattle.std.specs.Io.{ReadsAtMost, WritesAtMost};
ghost use Rattle.std.specs.Io.KnownBytes.{ReadConsumes, WriteAppends, Keeps};
ghost use Rattle.al_session_stream.specs.Device.{CountsFault};

use std::io::{Read, Write};
use thiserror::Error;

/// A call of a device failed.
#[derive(Clone, Copy, Debug, PartialEq, Eq, Error)]
#[error("the device failed")]
pub struct Fault;

/// Which device failed.
#[derive(Clone, Copy, Debug, PartialEq, Eq, Error)]
pub enum Device {
    #[error("reading failed")]
    Read,
    #[error("writing failed")]
    Write,
}

/// A reader of commands.
pub trait Source {
    /// The bytes that pulls will give from here on, if the type says.
    ghost ahead: { Self → Option (List ℕ) };

    /// How many pulls have failed.
    ghost faults: { Self → ℕ };

    /// How many pulls there have been.
    ghost pulls: { Self → ℕ };

    /// Reads some bytes to the beginning of the buffer, at least one unless the buffer is empty or the input has ended. Gives how many.
    ///
    /// # Errors
    /// [`Fault`] if the call fails; no byte is consumed then.
    fn pull(&mut self, buffer: &mut [u8]) -> Result<usize, Fault>
        requires room { pulls self.old < 2 ^ 64 - 1 }
        requires below { faults self.old < 2 ^ 64 - 1 }
        ensures bound { ReadsAtMost result buffer.new }
        ensures bytes { ReadConsumes (ahead self.old) (ahead self.new) result buffer.new }
        ensures fault { CountsFault (faults self.old) (faults self.new) result }
        ensures counted { pulls self.new ≡ pulls self.old + 1 };
}

/// A writer of replies.
pub trait Sink {
    /// The bytes that were written, if the type says.
    ghost written: { Self → Option (List ℕ) };

    /// How many pushes and flushes have failed.
    ghost faults: { Self → ℕ };

    /// Whether some of what was written may still be held back.
    ghost waits: { Self → Bool };

    /// Writes a prefix of the bytes, at least one if there is any. Gives how many.
    ///
    /// # Errors
    /// [`Fault`] if the call fails; no byte is written then, and what was held back still is.
    fn push(&mut self, bytes: &[u8]) -> Result<usize, Fault>
        requires { faults self.old < 2 ^ 64 - 1 }
        ensures bound { WritesAtMost result bytes.now }
        ensures some { IfOk result (λ n. 0 < length bytes.now → 0 < n) }
        ensures bytes { WriteAppends (written self.old) (written self.new) result bytes.now }
        ensures held { OnErr result (waits self.new ≡ waits self.old) }
        ensures fault { CountsFault (faults self.old) (faults self.new) result };

    /// Passes on what was written and is held back.
    ///
    /// # Errors
    /// [`Fault`] if the call fails; what was held back still is.
    fn flush(&mut self) -> Result<(), Fault>
        requires { faults self.old < 2 ^ 64 - 1 }
        ensures bytes { Keeps (written self.old) (written self.new) }
        ensures passed { OnOk result (waits self.new ≡ false) }
        ensures held { OnErr result (waits self.new ≡ waits self.old) }
        ensures fault { CountsFault (faults self.old) (faults self.new) result };
}

/// A reader or a writer of std, with a count of its calls and of those that failed, and whether a flush is due.
#[derive(Drop)]
pub struct Counted<D> {
    inner: D,
    faults: u64,
    calls: u64,
    waits: bool,
}

impl<D> Counted<D> {
    /// A device over this reader or writer that has not been called.
    pub fn new(inner: D) -> Self
        ensures { result ≡ record { inner = inner; faults = 0; calls = 0; waits = false } }
    {
        Counted {
            inner,
            faults: 0,
            calls: 0,
            waits: false,
        }
    }

    /// The reader or writer of std.
    pub fn into_inner(self) -> D
    where
        D: Drop,
        ensures { result ≡ self.inner }
    {
        self.inner
    }
}

impl<D: Read> Source for Counted<D> {
    ghost ahead = { λ c. D.remaining c.inner };

    ghost faults = { λ c. c.faults };

    ghost pulls = { λ c. c.calls };

    fn pull(&mut self, buffer: &mut [u8]) -> Result<usize, Fault> {
        self.calls += 1;
        match self.inner.read(buffer) {
            Ok(count) => Ok(count),
            Err(_) => {
                self.faults += 1;
                Err(Fault)
            }
        }
    }
}

impl<D: Write> Sink for Counted<D> {
    ghost written = { λ c. D.contents c.inner };

    ghost faults = { λ c. c.faults };

    ghost waits = { λ c. c.waits };

    fn push(&mut self, bytes: &[u8]) -> Result<usize, Fault> {
        match self.inner.write(bytes) {
            Ok(count) if count > 0 || bytes.is_empty() => {
                self.waits = true;
                Ok(count)
            }
            _ => {
                self.faults += 1;
                Err(Fault)
            }
        }
    }

    fn flush(&mut self) -> Result<(), Fault> {
        match self.inner.flush() {
            Ok(()) => {
                self.waits = false;
                Ok(())
            }
            Err(_) => {
                self.faults += 1;
                Err(Fault)
            }
        }
    }
}
