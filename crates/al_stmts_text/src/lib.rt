//! The walk over statements, blocks and bodies. It is generic in an `Analyzer` (`analyzer`), which reads expressions and declarations at a
//! place.
//!
//! `text` recurses over the statements that hold others. Each step that asks something is a function of its own: a module for each simple
//! statement (`assignments`, `calls`, `plain`, `returns`), for `heads`, `choices`, `regions`, declarations (`items`) and `bodies`. The
//! faults are in source order, and a faulty declaration ends the list.
#![tactic(auto)]

mod analyzer;
mod assignments;
mod bodies;
mod calls;
mod choices;
mod heads;
mod items;
mod plain;
mod regions;
mod returns;
mod text;

pub use analyzer::{Analyzer, CallEffect};
pub use items::{declared_item, object_item, subprogram_item, task_item};
pub use regions::{close_part, complete_parts};
pub use text::{check_after, check_body, check_items, check_part, check_statements};
