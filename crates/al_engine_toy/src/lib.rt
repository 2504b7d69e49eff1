//! A small checker of units over a small language, for tests of what is proved for every checker. A unit's parent is the first unit that it
//! mentions. A unit has an error if the parent of its parent is marked. When a unit is elaborated, it prints its name.
//!
//! - `text`, `reading` and `files` are the language: the header of a unit is read from its source.
//! - `checker` is the checker, `outcomes` its results, `packages` the predefined units.
#![tactic(auto)]

mod checker;
mod files;
mod outcomes;
mod packages;
mod reading;
mod text;

pub use checker::Toy;
pub use files::{sources_after, sources_of, toys_are_read};
pub use packages::Packages;
pub use text::ToyText;
