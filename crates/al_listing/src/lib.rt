//! Listings of images: the code unit by unit, lines of the sources above the instructions that are made of them, and tables of tasks, protected
//! objects and lines; and how many instructions of a run each line and each unit had.
//!
//! [`emit_listing`] and [`Profile`] write to any sink; the sources come from whoever has them ([`SourceLines`]).
#![tactic(auto)]

mod listing;
mod mnemonics;
mod operands;
mod profile;
mod tables;

pub use listing::{NoSources, SourceLines, emit_listing};
pub use profile::Profile;
