//! The headers of compilation units: what each unit says of itself, from its tree, for the graph of units.
//!
//! - `header` with `item`, `names`, `context`, `stubs`: the name of a unit, what kind it is, what its context clause and its stubs
//!   name, and what its pragmas say of elaboration.
//! - `package`: whether a package needs a body (ARM 7.2(4)).
//! - `types`: the private types of a package's visible part.
//! - `laws`: what holds of these, as contracts of functions without code.
#![tactic(auto)]

mod context;
mod header;
mod item;
mod laws;
mod names;
mod package;
mod stubs;
mod types;

pub use header::{header_of, unit_needs_body};
pub use laws::bodies_are_needed;
pub use types::private_types;
