//! Examples of the links that a unit uses and of the bodies that its source names, as laws.
#![tactic(auto)]

pub mod laws;
