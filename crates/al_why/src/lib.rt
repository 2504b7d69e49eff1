//! Questions of units and their answers, in words.
//!
//! - `pieces` adds pieces of a text, `views` says what is declared, `answers` what is answered, `questions` what is asked.
//! - `changes` says that an answer is another one now.
#![tactic(auto)]

mod answers;
mod changes;
mod pieces;
mod questions;
mod views;

pub use changes::add_change;
