//! Streams of bytes: devices that may fail, a buffer before a reader, lines and blocks of bytes, and writing piece by piece. Nothing here knows a
//! command.
//!
//! - [`Source`] and [`Sink`] are a reader and a writer whose bytes, calls and failures a contract can name. [`Counted`] makes them of std's `Read`
//!   and `Write`, and [`Bytes`] is a reader of bytes in memory. A failed call is a [`Fault`]; the caller sees only which [`Device`] failed.
//! - [`Buffer`] gives the bytes of a source in turn, within a bound on the number of pulls.
//! - [`read_line`] reads a line into a [`KeptLine`], [`read_text`] a block of known length into a [`Text`].
//! - [`write_all`] writes all of some bytes. [`emit`], [`emit_number`] and [`emit_hex`] do so piece by piece and take no memory, and [`finish`] ends
//!   a row of pieces.
#![tactic(auto)]

mod buffer;
mod bytes;
mod device;
mod emitting;
mod kept;
mod laws;
mod reading;
mod writing;

pub use buffer::Buffer;
pub use bytes::Bytes;
pub use device::{Counted, Device, Fault, Sink, Source};
pub use emitting::{emit, emit_hex, emit_number, finish};
pub use kept::KeptLine;
pub use laws::cut_is_first;
pub use reading::{Text, read_line, read_text};
pub use writing::write_all;
