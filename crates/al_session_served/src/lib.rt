//! Sessions: from the bytes of commands to the bytes of replies, over any library that keeps the contract of [`UnitLibrary`].
//!
//! - `library` is what a session needs of a library: edits, builds, runs and reports.
//! - `line` parses a command, `act` reads one and carries it out, and `answering` asks the library. `reply`, `run` and `subject` are the parts of
//!   replies.
//! - `pieces` and `reports` write a reply piece by piece, without memory. `serving` is the session, `memory` a session over bytes in memory.
//! - `laws` says what is proved of every session.
#![tactic(auto)]

mod act;
mod answering;
mod laws;
mod library;
mod line;
mod memory;
mod pieces;
mod reply;
mod reports;
mod run;
mod serving;
mod subject;

pub use laws::{builds_are_right, sessions_are_one, sessions_are_ordered};
pub use library::{Built, Outcome, UnitLibrary};
pub use memory::serve_bytes;
pub use run::{Exception, RunEnd, RunReport};
pub use serving::{Ended, MAX_COMMANDS, MAX_PULLS, serve, serve_within};
