//! Which declaration a body completes, and whether it conforms (ARM 3.11.1, 6.3.1). `completing` finds it among the declarations that wait;
//! `whole` is for the body of a unit that is one subprogram. The specs state both as values that a table of answers determines.
#![tactic(auto)]

mod completing;
mod whole;

pub use completing::completing_of;
pub use whole::unit_completing;
