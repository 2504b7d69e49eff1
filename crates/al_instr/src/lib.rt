//! The machine's instructions and their bytes.
//!
//! An instruction is one byte for its number and then its operands, in all numbers the highest byte first. A *line table* says from
//! which places on code is of which lines of its unit's source.
//!
//! - `instruction`, `numbers`, `text`: instructions, their numbers, and the bytes that a program puts out.
//! - `reading`, `fault`: reading an instruction, and why bytes are none.
//! - `lines`: line tables.
#![tactic(auto)]

mod fault;
mod instruction;
mod lines;
mod numbers;
mod reading;
mod text;

pub use fault::DecodeFault;
pub use instruction::Instr;
pub use lines::{LineEntry, are_lines, line_at, line_table, push_shifted};
pub use numbers::{Plain, Protected, Sized};
pub use reading::decode;
pub use text::{Text, Word, Words};
