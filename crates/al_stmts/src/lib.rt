//! Statements by their checked parts: all faults in source order, and the statements with their labels. Nothing is asked here.
//!
//! A `FaultList` (`fault_list`) is what is wrong with a piece of source: the faults of its statements, and at most one *end*, the fault of
//! a declaration, which ends the list because nothing after it is checked. *Checked* statements (`checked`, `branches`, `alternatives`)
//! carry their faults; *walked* ones (`statements`, `part`, `inside`, `walked_branches`, `walked_alternatives`) also the bodies inside
//! them.
//!
//! `simple`, `blocks`, `loops`, `cases` and `returns` make the statements, `exits` and `enclosing` have what is round them, `ends` and
//! `extents` the names and places at ends. `choice`, `cover`, `apart` and `judging` decide whether the choices of a case statement are
//! right. `walk`, `walked_laws`, `laws` and `examples` state what a walk over statements gives.
#![tactic(auto)]

mod alternatives;
mod apart;
mod base_faults_laws;
mod blocks;
mod bodies;
mod bounds;
mod branches;
mod cases;
mod checked;
mod choice;
mod choices;
mod cover;
mod enclosing;
mod ends;
mod examples;
mod exits;
mod extent;
mod extents;
mod fault_list;
mod inside;
mod judging;
mod laws;
mod loops;
mod part;
mod ranges;
mod returns;
mod simple;
mod statements;
mod target;
mod walk;
mod walked_alternatives;
mod walked_branches;
mod walked_ends;
mod walked_laws;

pub use alternatives::{CheckedAlternatives, Chosen};
pub use base_faults_laws::{
    a_faulty_declaration_ends_the_list, a_faulty_statement_ends_no_list, parts_follow,
};
pub use blocks::block_statement;
pub use branches::CheckedBranches;
pub use cases::{checked_selector, choices_are_right, selector_of};
pub use checked::{CheckedStatement, CheckedStatements};
pub use choice::{Choice, Selector};
pub use choices::{AlternativeChoices, CaseChoices};
pub use enclosing::Enclosing;
pub use ends::{NameAtEnd, end_fault};
pub use examples::{
    faults_of_bodies, faults_of_declarations_inside, faults_of_statements, faults_of_tasks,
};
pub use exits::Loops;
pub use extent::BodyExtent;
pub use extents::{first_line, named_extent, named_line, subprogram_extent};
pub use fault_list::FaultList;
pub use inside::WalkedInside;
pub use judging::are_right;
pub use laws::{an_exit_leaves_the_innermost_loop, no_exit_where_no_loop};
pub use loops::{
    LoopRange, LoopWords, for_scheme, loop_statement, mark_range, parameter_bounds, while_scheme,
};
pub use part::WalkedPart;
pub use returns::{EnclosingBody, no_return_fault, return_fault};
pub use simple::{
    ReturnContext, assignment, call, delay, exit_statement, null, put, return_statement,
};
pub use statements::{WalkedStatement, WalkedStatements};
pub use target::{Target, target_of};
pub use walk::has_return;
pub use walked_alternatives::WalkedAlternatives;
pub use walked_branches::WalkedBranches;
pub use walked_ends::{end_of, end_of_compound, end_of_named};
pub use walked_laws::{
    faults_of_items_follow, faults_of_operations_follow, faults_of_statements_follow,
};
