//! The words of a frame that an expression's temporaries take. A *temporary* is a result that is kept while the rest of the expression is
//! evaluated; each has a word of its own, in source order.
//!
//! `number` and `pieces` give the words to labelled trees and to what is put. `temporary` finds whether there are any, and `turn` reverses
//! chains of operators and components in place, so that no chain takes memory or stack.
#![tactic(auto)]

mod laws;
mod number;
mod pieces;
mod temporary;
mod turn;

pub use laws::each_has_a_word_of_its_own;
pub use number::{number_call, number_slots};
pub use pieces::number_pieces;
