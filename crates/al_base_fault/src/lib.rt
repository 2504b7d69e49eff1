//! What is judged: right, or the first rule that it breaks.
//!
//! A *fault* is a rule that is broken at a place. Of two faults the first is the one at the earlier place, and at one place the one
//! with the lesser number. A `CheckResult` is what was judged right, or its first fault.
//!
//! - `check_rule`: the rules that the check of a unit can find broken.
//! - `fault`, `checked`: the first of two faults, and what is judged in two parts.
#![tactic(auto)]

mod check_rule;
mod checked;
mod fault;

pub use check_rule::CheckRule;
pub use checked::{CheckResult, both, unless};
pub use fault::{Fault, earlier};
