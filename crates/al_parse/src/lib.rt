//! Reads the tokens of a source, names and expressions among them, as the tree of a compilation unit, or finds the place of its
//! syntax fault.
//!
//! A function that reads something gives it with the tokens after it, or `Stop`. Its parameter `depth` is how many more constructs may
//! be open. A *construct* is what `end` or a right parenthesis closes. Chains of operators are read by loops.
//!
//! - `parsing`, `unit`: whole sources and compilation units.
//! - `body`, `statement`, `declaration`, `specification`, `protected`: the parts of a unit.
//! - `descent`, `chain`, `operator`, `bounds`, `list`: names and expressions.
//! - `step`, `expr_step`, `start`, `expr_start`: one token, and what the next token begins.
//! - `keep`, `stop`: room for what was read, and why reading stops.
#![tactic(auto)]

mod body;
mod bounds;
mod chain;
mod declaration;
mod descent;
mod expr_start;
mod expr_step;
mod keep;
mod list;
mod operator;
mod parsing;
mod protected;
mod specification;
mod start;
mod statement;
mod step;
mod stop;
mod unit;

pub use bounds::{discrete_range, range};
pub use descent::{expression, name_from, simple_expression};
pub use expr_step::{
    enter, enter_at, expect, identifier, is_next, number, skip, skip_at, string, word_at,
};
pub use keep::{append, boxed};
pub use list::{compound_name, compound_names, identifiers};
pub use parsing::{ParseError, SyntaxFault, parse};
pub use stop::Stop;
pub use unit::compilation_unit;
