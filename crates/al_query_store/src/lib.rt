//! Entries of units in a slab, found by unit through an ordered map, with an index from each question to the places of its answers: of
//! each unit the entry that the last build settled, and the one that a build made since. A build's end settles or cancels what it made, and
//! takes no memory for it.
//!
//! An *entry* has a log of questions. A *mark* of an answer says whether it differs from that of now; each answer has the mark of now
//! and that of the last build. An entry is *settled* once the build that made it has ended. A *cell* is the entries of one unit.
//!
//! - `store`, `cell`, `unit_map`: entries by unit.
//! - `slots`, `marks`, `marking`, `keeping`, `ending`: entries in the slab with their marks, and a build's end.
//! - `readers`, `questions`, `place`, `logs`, `logged`: the index from questions to places.
//! - `laws`, `slots_laws`: laws as contracts of functions without code.
#![tactic(auto)]

mod cell;
mod ending;
mod keeping;
pub mod laws;
mod logged;
mod logs;
mod marking;
mod marks;
mod place;
mod questions;
mod readers;
mod slots;
pub mod slots_laws;
mod store;
mod unit_map;

pub use cell::Cell;
pub use logged::Logged;
pub use marks::Marks;
pub use place::Place;
pub use questions::Questions;
pub use readers::Readers;
pub use slots::{Held, Slots};
pub use store::Store;
pub use unit_map::UnitMap;
