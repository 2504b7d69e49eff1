//! Which lexemes are possible at the place of a syntax error, from the rules of the language as data.
//!
//! [`RULES`] are those of `al_tree_syntax`, each with what its alternatives begin with, so that the next lexeme alone decides; a
//! source is read along them up to the error, and what is expected there is what the open rules continue with.
#![tactic(auto)]

mod grammar;
mod reading;
mod rules;
mod wording;

pub use grammar::Grammar;
pub use reading::{Wanted, wanted_at};
pub use rules::RULES;
pub use wording::phrase;
