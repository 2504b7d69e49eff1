//! The words that are printed for rules and for refusals. Only crates that write replies use it.
//!
//! - `message`: what a diagnostic prints for the rule of a number, as `E401 not visible`.
//! - `refusal`: the word that a reply gives for a refusal.
#![tactic(auto)]

mod message;
mod refusal;

pub use message::{message_of, rule_of};
pub use refusal::word_of;
