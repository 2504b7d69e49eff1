//! What is printed of a build's diagnostics: as text with notes, as JSON, an object a line, or as one SARIF document (2.1.0).
#![tactic(auto)]

mod causes;
mod counts;
mod json;
mod noted;
mod sarif;
mod text;
mod writing;

pub use causes::{Cause, causes_of};
pub use counts::{Counts, counts_of};
pub use json::{build_line, diagnostic_line, end_line};
pub use noted::{Noted, noted_of};
pub use sarif::sarif_text;
pub use text::emit_report;
