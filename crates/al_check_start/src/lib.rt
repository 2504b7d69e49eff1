//! How the check of a unit begins, and the walk over it (ARM 10.1, 10.2).
//!
//! - `unit` gives the start of a unit: its header (`item`, `names`), what it completes (`completed`, `stub`), the place at its start (`place`), what
//!   waits for completion there (`waiting`), and the private types that its visible part hides (`hidden`); or E301 if its name is taken (`child`).
//! - `around` says whether the units that enclose a unit are there; else the unit has E401 at its name.
//! - `known` gives the units that a unit may ask: those that it names (`named`), those that enclose it (`outward`), what with clauses mention
//!   (`mentions`), and the other halves of these (`half`). `private_names` gives the private types whose full views it may see.
//! - `walk` goes over the unit's item, with an analyzer for declarations and statements.
#![tactic(auto)]

mod around;
mod child;
mod completed;
mod half;
mod hidden;
mod item;
mod known;
mod mentions;
mod named;
mod names;
mod outward;
mod place;
mod private_names;
mod question;
mod stub;
mod unit;
mod waiting;
mod walk;

pub use completed::Completed;
pub use known::units_known;
pub use private_names::names_known;
pub use unit::{UnitStart, unit_at};
pub use walk::check_unit;
