//! The check of Ada units: the verdict over a unit comes from a walk over it, within the bounds of what the unit may ask.
//!
//! - `finder` is the finder of Ada units, and the checker that has it.
//! - `start` puts together the place at which the item of a unit begins; `walk` walks over the item from there.
//! - If a visible part has private types, the unit is walked twice: first for what its private part declares, then for the verdict.
#![tactic(auto)]

mod finder;
pub mod laws;
mod standing;
mod start;
mod walk;

pub use finder::{AdaCheck, AdaFinder, ada_check};
pub use standing::state_at;
