//! What sources are read as: a compilation unit with its header, or the first error. This includes the sources that a checker takes.
//!
//! - `reading`: what the source in a file is, with the tree that was read.
//! - `read_unit`, `text`: the unit of a source, and a source of Ada with that unit, which is shared.
//! - `laws`, `check_text_laws`: what holds of what is read, as contracts of functions without code.
#![tactic(auto)]

pub mod check_text_laws;
mod laws;
mod read_unit;
mod reading;
mod text;

pub use laws::{texts_are_read, texts_are_read_alike};
pub use read_unit::ReadUnit;
pub use reading::{Reading, read};
pub use text::AdaText;
