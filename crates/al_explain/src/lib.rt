//! The pages of the diagnostics' codes: the rule, the Manual's clause, a short source that breaks it, and the source as it is right.
//!
//! docs/diagnostics.md is made from this table, and each source is a test (`tests/diagnostics.py`).
#![tactic(auto)]

mod declarations;
mod finding;
mod lexemes;
mod names;
mod statements;
mod table;
mod units;
mod writing;

pub use finding::{code_named, pages};
pub use table::Page;
pub use writing::page_text;
