//! The code of labelled units does what they mean (`al_meaning`), as laws over the definitions of the code (`al_code`) and of the machine
//! (`al_machine`).
//!
//! - A law is a function that does nothing and whose contract is the law (`laws`).
//! - A machine *shows* a state if its words hold what the variables hold (specs/Showing). Pieces of code *stand* at a place of a program, and each
//!   place is of a line (specs/Standing). Code *leads* from one place and machine to another, or to an instruction that raises an exception at a
//!   line (specs/Running). `Subset` says of which trees the laws speak, `Effects` what their code does, and `Laws` has the laws.
//! - Storage_Error is raised only if the words that are needed don't fit the stack.
#![tactic(auto)]

mod laws;

pub use laws::{
    calls_are_done, exceptions_are_meant, operators_agree, partitions_are_done, pieces_stand,
    premises_are_met, statements_are_done, values_are_given,
};
