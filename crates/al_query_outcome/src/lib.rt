//! The contract of every checker of units: what the check of a unit gives, what the unit answers to others then, and the laws of
//! checking units one by one.
//!
//! An *outcome* is what a unit with its source means under a table of answers: its errors, or what it answers to others and its
//! labelled tree. A checker *keeps the reads law* if its outcome depends only on the answers that it asked for,
//! and each question is of a unit that the source or an earlier answer names.
//!
//! - `check`, `text`: the traits of a checker, and of the sources that it takes.
//! - `checked`, `interface`: what a check gives, and what a unit answers.
//! - `identifiers`: the last identifier of a unit's name.
//! - `laws`: the equations that the outcomes of a library's units solve, as contracts of functions without code.
#![tactic(auto)]

mod check;
mod checked;
mod identifiers;
mod interface;
pub mod laws;
mod text;

pub use check::UnitCheck;
pub use checked::Checked;
pub use identifiers::last_of;
pub use interface::{Parts, Properties, StubDeclarations, UnitInterface, no_answer};
pub use text::ReadText;
