//! What of Ada 2012 isn't in this subset, by the lexemes round a syntax error, and what is written instead.
#![tactic(auto)]

mod constructs;
mod fitting;
mod patterns;
mod subset;
mod units;

pub use constructs::Construct;
pub use subset::Subset;
pub use units::Unknown;
