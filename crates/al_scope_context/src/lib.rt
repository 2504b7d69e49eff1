//! Context clauses, use clauses and the library units that are mentioned at a place (ARM 8.4, 10.1.2, 10.1.6).
//!
//! A context clause is checked at a place of its own (`context`): one region, in which only the root units that its with clauses mention
//! are declared. `clause` says what use clauses open, by the package that a name denotes (`opened_package`) or the type that a mark names.
//! `mention` declares library units at a place by their own views. `pragma` has the pragmas of context clauses, and `use_pragma` those
//! among declarations.
#![tactic(auto)]

mod clause;
mod context;
mod mention;
mod opened_package;
mod pragma;
mod use_pragma;

pub use clause::{is_without_file, use_at, uses_at};
pub use context::{Context, context_at};
pub use mention::{has_unit, library_view, mention_all, mention_view, shared, view_of};
pub use pragma::full_name;
pub use use_pragma::{pragma_fault, unless_right};
