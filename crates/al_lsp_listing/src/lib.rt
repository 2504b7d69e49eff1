//! What texts of Ada declare, as the Language Server Protocol lists it.
//!
//! - [`outline_value`] is the outline of a text: `extents` says where declarations are, `listing` puts them in one another.
//! - [`unit_in`] is the unit of a text alone.
#![tactic(auto)]

mod extents;
mod listing;
mod outlining;
mod units;

pub use outlining::outline_value;
pub use units::unit_in;
