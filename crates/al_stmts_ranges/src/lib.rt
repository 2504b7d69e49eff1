//! Ranges of loops, choices of case statements and calls as statements, read at their place (ARM 3.6.1, 3.8.1, 5.4, 5.5, 6.4). `loop_range`
//! and `choice` read a range by itself, after a mark or as a mark alone; `selected` reads a choice with its selector, and `perform` a name
//! that is a statement. Each result is a labelled tree or the first rule that is broken.
#![tactic(auto)]

mod choice;
mod loop_range;
mod perform;
mod selected;

pub use choice::choice_at;
pub use loop_range::{FoundRange, loop_range_at};
pub use perform::call_effect_at;
pub use selected::{all_values, selected_at, whole_at};
