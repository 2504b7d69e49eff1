//! What the command line of `adabuild` asks for.
//!
//! `options` reads the words one by one, `looks` and `words` say what they mean together.
#![tactic(auto)]

mod looks;
mod options;
mod words;

pub use looks::{Looks, TraceRequest};
pub use words::{Asked, BuildAsked, HELP, LoadAsked, USAGE, VERSION, read_words};
