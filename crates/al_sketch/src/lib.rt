//! What a source of Ada looks like to a reader who doesn't ask whether it is right: its lexemes, what it declares, and what its context clauses name.
//!
//! Every source has a sketch, with errors or without. It decides nothing: it is only for notes.
#![tactic(auto)]

mod cursor;
mod declared;
mod lexeme;
mod scanning;
mod scope;
mod sketch;
mod standing;

pub use declared::{Declared, DeclaredKind};
pub use lexeme::{Lexeme, LexemeKind};
pub use scope::{Scope, ScopeKind};
pub use sketch::Sketch;
