//! What the units of a sequential partition mean (ARM 3 to 6, 10.2): no address, no stack, no instruction.
//!
//! - A *state* has what each word of each object holds, which bodies are elaborated, and what was put. A word of an object is named by the
//!   object's place: a depth of nesting and a word, or a symbol and a word. A *value* is a list of words; a scalar is one.
//! - What is evaluated or executed *gives* something, *raises* an exception at a line of a unit, or goes on beyond a bound (*fuel*) on the turns of
//!   loops and the depth of calls.
//! - `Scalars` has the operators, `States` states and outcomes, `Expressions` names, values and calls by what bodies do, `Declarations` and
//!   `Statements` what is elaborated and executed, `Partitions` bodies, calls and whole partitions.
//! - `laws` has small programs with what they mean (`Examples`).
//! - The order of evaluation is that of the code. *Meaningless* is what no checked unit does, as to call a symbol without a body. Storage_Error isn't
//!   in the meaning: a stack is finite, and the law of the code says where that shows.
#![tactic(auto)]

mod laws;

pub use laws::{
    calls_return, exceptions_have_lines, loops_end, objects_hold, operators_give, tests_give,
};
