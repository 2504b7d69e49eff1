//! Static expressions (ARM 4.9). `Known` (`knowledge`) is what is known of an expression from what is known of its operands: its value; the
//! first token of the largest static expression in it whose evaluation would fail; or that it isn't static. `operator` has what predefined
//! operators and attributes give, and `word` the arithmetic of words of 64 bits (ARM 4.5), each with the result `None` if there is no such
//! word.
#![tactic(auto)]

mod knowledge;
mod laws;
mod operator;
mod word;

pub use knowledge::Known;
pub use laws::{divisions_leave_remainders, moduli_follow_the_divisor};
