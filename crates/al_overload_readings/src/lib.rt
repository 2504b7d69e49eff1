//! What an expression may be until its context is known, and the terms of expressions (ARM 4.1 to 4.7).
//!
//! A `Reading` (`reading`) is what a name with its parts may be so far: a name with all that is visible under it, a value or a call, or an
//! attribute that wants an argument. `steps` joins readings part by part and passes on the first fault; `text` does so for a whole
//! expression, `name` and `chain` by loops. `mark`, `prefix` and `attribute` say which subtype a name denotes and what an attribute is
//! applied to, `operation` which operation of a protected object is called, and `range` what a range is. A name has E401 if nothing is
//! visible under it, and E404 if it denotes something of the wrong kind.
#![tactic(auto)]

mod attribute;
mod chain;
mod copied;
mod laws;
mod mark;
mod name;
mod operation;
mod pair;
mod prefix;
mod range;
mod reading;
mod sign;
mod steps;
mod text;

pub use attribute::{Attribute, attribute_named};
pub use copied::copied_subprogram;
pub use laws::first_faults_are_reported;
pub use mark::mark_in;
pub use operation::protected_of;
pub use pair::together;
pub use prefix::Prefix;
pub use range::{RangeTerm, bounds_of, range_of};
pub use reading::{Reading, named, wrong_kind};
pub use steps::{
    added, aggregated, apply, apply_to, as_mark, as_single, as_value, attribute_of, bounds, called,
    grouped, join, member, of_value, operate, qualify, range_attribute_of, range_member, repeated,
    select, started,
};
pub use text::{is_selector, mark_of_text, one_range, read, read_identifier, term_of};
