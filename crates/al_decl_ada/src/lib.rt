//! The parts of declarations of Ada, read at their place: marks, subtype indications, index subtypes, values and bounds (ARM 3.2.2, 3.3,
//! 3.5.4, 3.6).
//!
//! `AdaPartAnalyzer` (`parts`) implements al_decl's `PartAnalyzer`. `indication` and `index` read subtypes, `constraint` their ranges,
//! `value` initial values, numbers, bounds and priorities. `complete` finds marks whose type has no full declaration yet.
#![tactic(auto)]

mod complete;
mod constraint;
mod index;
mod indication;
pub mod laws;
mod parts;
mod value;

pub use constraint::{bound_context, static_at};
pub use index::index_at;
pub use indication::indication_at;
pub use parts::AdaPartAnalyzer;
