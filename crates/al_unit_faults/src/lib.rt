//! All that is wrong with the units of a library as a graph: names, units that aren't there, cycles, private children, parents, stubs
//! and bodies that don't fit; the order in which its units are checked, and which units are obsolete.
//!
//! A unit is *faultless* if it breaks no rule of the graph. It is *reachable* if it is faultless and
//! depends on no faulty unit.
//!
//! - `listing` with `cycles`, `private`, `parts`, `order`: the errors of the graph, by file, place and number.
//! - `faultless`, `reaching`, `dependents`: faultless and reachable units, and what depends on some files.
//! - `ordering` with `steps`, `places`: the order of dependence.
//! - `obsolete_units` with `wanted`: the obsolete units.
//! - `by_file`: the unit of each file.
//! - `laws`, `order_laws`, `obsolete_laws`: what holds of these, as contracts of functions without code.
#![tactic(auto)]

mod by_file;
mod cycles;
mod dependents;
mod faultless;
pub mod laws;
mod listing;
mod obsolete_laws;
mod obsolete_units;
mod order;
pub mod order_laws;
mod ordering;
mod parts;
mod places;
mod private;
mod reaching;
mod steps;
mod wanted;

pub use by_file::units;
pub use dependents::Dependents;
pub use listing::{FileFaults, faults, faults_by_file};
pub use obsolete_laws::{obsolete_are_listed, units_are_held};
pub use obsolete_units::obsolete;
pub use ordering::dependence_order;
pub use reaching::reachable;
