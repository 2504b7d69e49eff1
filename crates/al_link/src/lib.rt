//! The linker: the image of a partition has the objects of its units one after the other, with the places of their symbols filled in. If the units
//! are closed (they define all that they use), each look-up finds its symbol.
//!
//! - `linking` and `units` are the linker's input: units with their objects. `bases` says what precedes each object, `places` where each symbol is,
//!   `patch` fills in operands.
//! - `start` is the starting code, which elaborates the items and calls the main subprogram. `image`, `prepared` and `sizes` put an image together.
//! - `linked` is an image that can be linked again in its place: `kept` is what it keeps of its units, and `exchanging`, `writing` and `refilling`
//!   replace code and words in it.
#![tactic(auto)]

mod bases;
pub mod defined_laws;
mod exchanging;
mod image;
mod kept;
mod laws;
mod linked;
mod linking;
mod patch;
mod places;
mod prepared;
mod refilling;
mod sizes;
mod start;
mod units;
mod writing;

pub use al_link_image::{Image, LinkFault};
pub use laws::links_parts;
pub use linked::{Linked, link};
pub use linking::CompiledUnit;
