//! What an editor lists of a source: its declarations in the order of their names, each with its range.
//!
//! - `declared`, `parts`, `bodies`, `units`: the declarations of a unit, from its tree.
//! - `range`, `words`: where each lies in the text, so that a declaration's range holds those of all that it declares.
//! - [`outline`] is both; [`heading_in`] is the unit alone.
#![tactic(auto)]

mod bodies;
mod declared;
mod headed;
mod outlining;
mod parts;
mod range;
mod units;
mod words;

pub use declared::{Declared, DeclaredKind};
pub use headed::{Heading, heading_in};
pub use outlining::{MAX_SOURCE, outline};
pub use range::{Extent, Symbol};
