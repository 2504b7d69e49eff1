//! What a name of identifiers means at a place: all declarations that it may mean there, and no other.
//!
//! - [`all_meant`] gives them, under the answers of a table; `specs/Meanings.antt` says what a name may mean.
//! - [`Asked`] is a table that several recorders ask.
#![tactic(auto)]

mod asked;
mod meaning;

pub use asked::Asked;
pub use meaning::{Found, all_meant};
