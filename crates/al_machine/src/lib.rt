//! The instructions of compiled programs, and what each does to memory and the stack of the running task.
//!
//! Memory is a vector of words of 64 bits. The *registers* of a task are the first of its stack words, the first word of its frame,
//! and the place after the last word on its stack. A *trap* is why an instruction changed nothing: it raises an exception, or is
//! stuck. A *burst* is many instructions of the running task, carried out in *groups*.
//!
//! - `instruction`, `operation`, `code`: instructions, by what they work on, decoded and found by their places.
//! - `table` with `stack`, `frames`, `memory`, `arithmetic`: what each instruction on words does.
//! - `output`: what a program puts out.
//! - `regions`: the protected objects, whose words only the task inside them may touch.
//! - `spot`, `pieces`, `grouping`, `bursts`: groups of instructions, which are found once.
//! - `spots`, `making`, `working`, `sinks`, `routines`: what the parts of a group do.
//! - `burst`, `singles`: groups and single instructions one after the other.
#![tactic(auto)]

mod arithmetic;
mod burst;
mod bursts;
mod code;
mod frames;
mod grouping;
mod instruction;
mod making;
mod memory;
mod operation;
mod output;
mod pieces;
mod regions;
mod routines;
mod singles;
mod sinks;
mod spot;
mod spots;
mod stack;
mod table;
mod working;

pub use burst::{Carried, carry_on};
pub use bursts::Bursts;
pub use code::{Code, Step};
pub use instruction::{BinaryOperator, Exception, Flow, Instruction, Trap, UnaryOperator};
pub use memory::{clear, copy};
pub use operation::{Operation, OutputInstruction, TaskInstruction};
pub use output::put_out;
pub use regions::{Entered, Regions, is_entered, is_open};
pub use stack::{Registers, STACK, push};
pub use table::exec;
