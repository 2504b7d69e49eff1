//! Objects: what the compiler leaves of a unit, and the linker puts into images.
//!
//! An *object* has the unit's code, the places of the symbols that it defines (*addresses*), the operands that count from the place of
//! a symbol (*relocations*), its words and tasks, its protected objects (*regions*), and its table of lines.
//!
//! - `object`: objects.
//! - `same`: whether two objects say the same of symbols and words.
#![tactic(auto)]

mod object;
mod same;

pub use object::{Address, Compiled, Object, Region, Relocation};
pub use same::{are_same_lines, is_same_symbol};
