//! What a name means at a place in the source of a unit (ARM 8). A `Scope` is such a place: the declarative regions round it, outermost
//! first, and the library units that are mentioned there.
//!
//! Terms: a *region* (`region`) has the parts of units that it continues, what is declared in it so far and the names whose declarations
//! are begun. A declaration is *hidden* (`hiding`) if a region further in shuts it out. What a use clause opens is *potentially
//! use-visible* (`uses`, `clauses`). A unit is *mentioned* (`mentions`) if a with clause names it or a descendant of it. A *recast*
//! (`recast`, `seen`, `seen_hiding`) shows a type by its full view in place of the partial one, or the other way round.
//!
//! `search` looks a name up from the innermost region outward. `unit_place` enters the regions round the start of a unit's source, and
//! `private_part` those parts of the ancestors that are seen from a private part on. Other units are asked through a recorder
//! (`questions`).
#![tactic(auto)]

mod clauses;
mod hiding;
pub mod laws;
mod mentions;
mod names;
mod operations;
mod own;
mod partial;
mod parts;
mod private_part;
mod questions;
mod recast;
mod region;
mod scope;
mod search;
mod seen;
mod seen_hiding;
mod type_operators;
mod types;
mod unit_place;
mod uses;
mod view;

pub use clauses::use_each;
pub use mentions::{asked_units, mentioned};
pub use own::OwnText;
pub use partial::{declared_type, first_partial, is_full_view, is_private, own_type, partial_type};
pub use private_part::enter_private_part;
pub use region::UnitPart;
pub use scope::Scope;
pub use seen::{all_seen_at, completions_seen_at, subtype_seen_at};
pub use seen_hiding::{PrivateName, hidden, hidden_in};
pub use unit_place::{ancestors_of, enter_unit};
