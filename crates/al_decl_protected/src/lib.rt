//! Declarations of tasks and protected objects at a place, and bodies of tasks, protected objects and entries (ARM 9.1, 9.4, 9.5.2).
//!
//! `task` and `object` check the declarations; a protected object has operations (`operation`) and components (`components`) in a region of
//! its own. A *level* (`level`) is a priority or a ceiling, 0 to 30 (ARM D.1, D.3). `placing` makes what is declared visible at its end,
//! and `body` finds the declaration that a body completes by its name alone.
#![tactic(auto)]

mod body;
mod components;
mod level;
mod object;
mod operation;
mod placing;
mod task;

pub use body::{NamedBody, check_named_body, operations_waiting};
pub use object::check_protected;
pub use operation::bare_head;
pub use task::check_task;
