//! The analyzer of Ada units: the walk over a unit asks it about names, expressions and declarations, and it judges them by a table of answers.
//!
//! - `analyzer` is the analyzer: the state of the check, and a recorder of what was asked. Declarations and bodies are judged in the crates below.
//! - `values`, `ranges` and `choices` judge expressions, ranges of for loops, and choices of case statements.
#![tactic(auto)]

mod analyzer;
mod choices;
mod ranges;
mod values;

pub use analyzer::AdaAnalyzer;
