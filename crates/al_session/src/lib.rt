//! A session over a library of Ada units: from the bytes of commands to the bytes of replies, for every checker of units. A build checks again only
//! what an edit affects.
//!
//! - `served` makes the engine a library for sessions, and `outcomes` translates its results. `engine` is that library for Ada.
//! - `serving` is the session, `whole` a session from an empty library, `memory` one over bytes in memory.
//! - `laws`, `order_laws` and `text_laws` say what is proved of every session.
#![tactic(auto)]

mod engine;
mod laws;
mod memory;
pub mod order_laws;
mod outcomes;
mod served;
mod serving;
pub mod text_laws;
mod whole;

pub use al_session_served::{Ended, MAX_COMMANDS, MAX_PULLS};
pub use al_session_stream::{Counted, Device, Fault, Sink, Source};
pub use engine::{Engine, new_engine};
pub use laws::{
    builds_are_right, builds_are_settled, reports_ascend, sessions_are_one, sessions_are_ordered,
};
pub use memory::serve_bytes;
pub use served::Served;
pub use serving::{serve, serve_within};
pub use whole::session;
