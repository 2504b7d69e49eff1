//! The machine under `adabuild`: its disk, its clock and its input, and what observes the runs of programs.
#![tactic(auto)]

mod host;
mod observing;

pub use host::{Host, Lines};
pub use observing::Observer;
