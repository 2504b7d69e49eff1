//! What names mean where they stand: the check of a unit once more, by the answers of the library, in sound and in faulty units.
//!
//! - [`World::meant`] gives the declarations that a name may mean, with their places; [`World::references`] the names that mean one of them;
//!   [`World::proposed`] the names that are visible where a text is being typed.
//! - `named`: names of a text. [`meant_at`] says what is visible under names where they stand, and who was asked.
//! - [`declared_at`] is the place in a unit at which a declaration that is visible somewhere was declared.
//! - `replay` is the walk, with somebody who watches it.
#![tactic(auto)]

mod chosen;
mod completing;
mod declaring;
mod looking;
mod named;
mod references;
mod replay;
mod sites;
mod watch;
mod words;
mod world;

pub use completing::Proposed;
pub use declaring::declared_at;
pub use looking::{Meaning, meant_at};
pub use named::{Named, identifiers_in, name_at};
pub use sites::{Meant, Site};
pub use words::words_of;
pub use world::World;
